// A clause, and whether it holds of an image. Proved: the answer is `clause_holds` of `specs/Sheet.antt`. Assumed: nothing.
ghost use Rattle.std.specs.Prelude.{◌≡◌};
ghost use Rattle.sheet.specs.Sheet.{clause_holds, range, same};
ghost use Rattle.sheet.specs.Inner.{clause_of};

#[derive(Clone, Copy)]
pub enum Clause {
    Range {
        address: usize,
        low: usize,
        high: usize,
    },
    Same {
        first: usize,
        second: usize,
    },
}

#[tactic(auto, unfolding(crate::specs::Sheet::clause_holds))]
fn range_holds(image: &[u8], address: usize, low: usize, high: usize) -> bool
    ensures { result ≡ clause_holds (range address low high) image.now image.now }
{
    image
        .get(address)
        .is_some_and(|&byte| low <= byte as usize && byte as usize <= high)
}

#[tactic(auto, unfolding(crate::specs::Sheet::clause_holds))]
fn same_holds(image: &[u8], first: usize, second: usize) -> bool
    ensures { result ≡ clause_holds (same first second) image.now image.now }
{
    match (image.get(first), image.get(second)) {
        (Some(byte), Some(other)) => *byte == *other,
        _ => false,
    }
}

impl Clause {
    pub fn holds(self, image: &[u8]) -> bool
        ensures { result ≡ clause_holds (clause_of self) image.now image.now }
    {
        match self {
            Clause::Range { address, low, high } => range_holds(image, address, low, high),
            Clause::Same { first, second } => same_holds(image, first, second),
        }
    }
}
