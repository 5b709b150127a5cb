// The log as a lent list of write records: a thin lookup and a thin append over a slice of structs.
ghost use Rattle.std.specs.Prelude.{◌≡◌, ltb, length, get_or, set};
ghost use Rattle.records.specs.Record.{no_record};

use crate::{NO_RECORD, Record};

// The record at index i, or the zero record where the list has none.
pub fn lookup(records: &[Record], i: usize) -> Record
    ensures { result ≡ get_or records.now i no_record }
{
    records.get(i).copied().unwrap_or(NO_RECORD)
}

// Stores r at index `at`, and says whether the list has that index; where it has not, nothing changes.
// By index: of a slice that `get_mut` was asked of, a proof keeps the length alone.
pub fn append(records: &mut [Record], at: usize, r: Record) -> bool
    ensures { (result ≡ ltb at (length records.old)) × (records.new ≡ set records.old at r) }
{
    let there = at < records.len();
    if there {
        records[at] = r;
    }
    there
}
