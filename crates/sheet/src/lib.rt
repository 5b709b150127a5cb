// The rule sheet: `judge` says whether a sheet is well-formed, and if so whether an image obeys it. Proved: for every sheet and every image
// the answer has the number `sheet_number` of `specs/Sheet.antt`. Assumed: nothing.

#![tactic(auto)]

mod clause;
mod entry;
mod rules;

ghost use Rattle.std.specs.Prelude.{◌≡◌, ◌≤◌, length};
ghost use Rattle.region.specs.Answer.{answer_number};
ghost use Rattle.sheet.specs.Sheet.{max_bytes, filling, sheet_number};
ghost use Rattle.sheet.specs.Inner.{judged};

use bits::reader::BitReader;
use bits::{BYTE_BITS, field_at};
use region::Refusal;
use rules::judge_rule;

const MAX_BYTES: usize = 512;

const MAX_DEPTH: usize = 8;

const EDITION_BITS: usize = 4;

const EDITION: usize = 1;

// Fewer than 8 bits are left, and each is 0.
#[tactic(auto, unfolding(crate::specs::Sheet::filling))]
fn filled(reader: &BitReader<'_>) -> bool
    requires { length reader.now.bytes.now ≤ max_bytes }
    ensures { result ≡ filling reader.now.bytes.now reader.now.at }
{
    let left = reader.left();
    left < BYTE_BITS && field_at(reader.bytes, reader.at, left) == 0
}

// Whether the sheet's rule holds of the image, if it says one.
fn rule_holds(sheet: &[u8], image: &[u8]) -> Option<bool>
    ensures { result ≡ judged sheet.now image.now }
{
    if MAX_BYTES < sheet.len() {
        return None;
    }
    let mut reader = BitReader::new(sheet);
    let edition = reader.take(EDITION_BITS)?;
    if edition != EDITION {
        return None;
    }
    let holds = judge_rule(&mut reader, image, MAX_DEPTH)?;
    filled(&reader).then_some(holds)
}

// Refused where the sheet says no rule, or the image breaks the rule that it says.
pub fn judge(sheet: &[u8], image: &[u8]) -> Result<(), Refusal>
    ensures { answer_number result ≡ sheet_number sheet.now image.now }
{
    match rule_holds(sheet, image) {
        None => Err(Refusal::BadSheet),
        Some(false) => Err(Refusal::BrokenImage),
        Some(true) => Ok(()),
    }
}
