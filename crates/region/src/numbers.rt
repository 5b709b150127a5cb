// Document 01's numbers, as code: what crosses to a program in another language.
ghost use Rattle.std.specs.Prelude.{◌≡◌};
ghost use Rattle.region.specs.Answer.{answer_number, refusal_number};

use crate::Refusal;

impl From<Refusal> for u64 {
    ghost from_gives = { λ why n. n ≡ refusal_number why };

    fn from(why: Refusal) -> u64 {
        why as u64
    }
}

// 0 where the call is done. A `Result` is std's, so this is a function and no conversion of ours.
pub fn answer_number(answer: Result<(), Refusal>) -> u64
    ensures { result ≡ answer_number answer }
{
    match answer {
        Ok(()) => 0,
        Err(why) => why.into(),
    }
}
