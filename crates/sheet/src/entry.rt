// The entries of a sheet, read where they lie; no image has a part in it. Proved: what is read is `read_entry` of `specs/Sheet.antt`.
// Assumed: nothing.
ghost use Rattle.std.specs.Prelude.{◌≡◌, ◌≤◌, length, option_map};
ghost use Rattle.bits.specs.Bits.{taken};
ghost use Rattle.sheet.specs.Sheet.{max_bytes, empty_holds, join, read_range, read_same, read_many, read_entry};
ghost use Rattle.sheet.specs.Inner.{kind_of, entry_of};

use crate::clause::Clause;
use bits::BYTE_BITS;
use bits::reader::BitReader;

// Numbers of the format. A tag becomes an entry where it is read, in `take_entry` alone.
const TAG_BITS: usize = 2;

const RANGE_TAG: usize = 0b00;

const SAME_TAG: usize = 0b01;

const ALL_TAG: usize = 0b10;

const ADDRESS_BITS: usize = 16;

const COUNT_BITS: usize = 6;

// A group's kind: all of its members hold, or any does.
#[derive(Clone, Copy)]
pub enum Kind {
    All,
    Any,
}

impl Kind {
    // The truth of a group with no members.
    #[tactic(auto, unfolding(crate::specs::Sheet::empty_holds))]
    pub fn of_none(self) -> bool
        ensures { result ≡ empty_holds (kind_of self) }
    {
        match self {
            Kind::All => true,
            Kind::Any => false,
        }
    }

    // Two truths of a group as one.
    #[tactic(auto, unfolding(crate::specs::Sheet::join))]
    pub fn join(self, truth: bool, other: bool) -> bool
        ensures { result ≡ join (kind_of self) truth other }
    {
        match self {
            Kind::All => truth && other,
            Kind::Any => truth || other,
        }
    }
}

// What stands before a rule's members: a clause, or the head of a group of so many members.
#[derive(Clone, Copy)]
pub enum Entry {
    One(Clause),
    Many { kind: Kind, count: usize },
}

// That the sheet is short is a clause here and of what stands above, since a reader may be over any bytes.
fn take_range(reader: &mut BitReader<'_>) -> Option<Entry>
    requires { length reader.old.bytes.now ≤ max_bytes }
    ensures entry { taken (option_map entry_of result) reader.new.at ≡ read_range reader.old.bytes.now reader.old.at }
    ensures bytes { reader.new.bytes ≡ reader.old.bytes }
{
    let address = reader.take(ADDRESS_BITS)?;
    let low = reader.take(BYTE_BITS)?;
    let high = reader.take(BYTE_BITS)?;
    Some(Entry::One(Clause::Range { address, low, high }))
}

fn take_same(reader: &mut BitReader<'_>) -> Option<Entry>
    requires { length reader.old.bytes.now ≤ max_bytes }
    ensures entry { taken (option_map entry_of result) reader.new.at ≡ read_same reader.old.bytes.now reader.old.at }
    ensures bytes { reader.new.bytes ≡ reader.old.bytes }
{
    let first = reader.take(ADDRESS_BITS)?;
    let second = reader.take(ADDRESS_BITS)?;
    Some(Entry::One(Clause::Same { first, second }))
}

fn take_many(reader: &mut BitReader<'_>, kind: Kind) -> Option<Entry>
    requires { length reader.old.bytes.now ≤ max_bytes }
    ensures entry { taken (option_map entry_of result) reader.new.at ≡ read_many (kind_of kind) reader.old.bytes.now reader.old.at }
    ensures bytes { reader.new.bytes ≡ reader.old.bytes }
{
    let count = reader.take(COUNT_BITS)?;
    Some(Entry::Many { kind, count })
}

// The entry where the reader stands. A tag has two bits, so one that is none of the first three is the last.
pub fn take_entry(reader: &mut BitReader<'_>) -> Option<Entry>
    requires { length reader.old.bytes.now ≤ max_bytes }
    ensures entry { taken (option_map entry_of result) reader.new.at ≡ read_entry reader.old.bytes.now reader.old.at }
    ensures bytes { reader.new.bytes ≡ reader.old.bytes }
{
    match reader.take(TAG_BITS)? {
        RANGE_TAG => take_range(reader),
        SAME_TAG => take_same(reader),
        ALL_TAG => take_many(reader, Kind::All),
        _ => take_many(reader, Kind::Any),
    }
}
