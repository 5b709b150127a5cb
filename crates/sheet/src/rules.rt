// The rules of a sheet, judged on the bits where they lie. Proved: each function answers what reading the rule by `specs/Sheet.antt`
// and then asking whether it holds of the image would. A group is read to its end, whichever member decides. Assumed: nothing.
ghost use Rattle.std.specs.Prelude.{◌≡◌, ◌≤◌, length};
ghost use Rattle.bits.specs.Bits.{taken};
ghost use Rattle.sheet.specs.Sheet.{max_bytes, read_rule, read_members};
ghost use Rattle.sheet.specs.Inner.{kind_of, rule_truth, group_truth};

use crate::entry::{Entry, Kind, take_entry};
use bits::reader::BitReader;

// Whether the rule where the reader stands holds, if it is whole and of at most so many levels.
#[cycle(judge_members_judge_rule)]
pub fn judge_rule(reader: &mut BitReader<'_>, image: &[u8], levels: usize) -> Option<bool>
    requires { length reader.old.bytes.now ≤ max_bytes }
    ensures truth { taken result reader.new.at ≡ rule_truth image.now (read_rule levels reader.old.bytes.now reader.old.at) }
    ensures bytes { reader.new.bytes ≡ reader.old.bytes }
{
    let deeper = levels.checked_sub(1)?;
    match take_entry(reader)? {
        Entry::One(clause) => Some(clause.holds(image)),
        Entry::Many { kind, count } => judge_members(reader, image, deeper, kind, count),
    }
}

// Judges the members of a group, each of at most so many levels. A false member decides an all and a true one an any; the members after it
// are read all the same, since one of them may be malformed.
#[cycle(judge_members_judge_rule)]
#[tactic(auto, using(crate::proofs::Judging::member_malformed))]
fn judge_members(
    reader: &mut BitReader<'_>,
    image: &[u8],
    levels: usize,
    kind: Kind,
    count: usize,
) -> Option<bool>
    requires { length reader.old.bytes.now ≤ max_bytes }
    ensures truth { taken result reader.new.at ≡ group_truth (kind_of kind) image.now (read_members count (read_rule levels) reader.old.bytes.now reader.old.at) }
    ensures bytes { reader.new.bytes ≡ reader.old.bytes }
{
    let mut truth = kind.of_none();
    for _ in 0..count {
        let member = judge_rule(reader, image, levels)?;
        truth = kind.join(truth, member);
    }
    Some(truth)
}
