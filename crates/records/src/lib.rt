// The records of a log's writes, as a list: where a write begins and how many bytes it has. They know
// of no state, so that whatever else a state comes to hold leaves them as they are. Each function is
// proved to give exactly what its contract says. Nothing is assumed.

#![tactic(auto)]

use region::WRITES_LIMIT;

#[derive(Clone, Copy)]
pub struct Record {
    pub addr: usize,
    pub len: usize,
}

// What stands where there is no record.
pub const NO_RECORD: Record = Record { addr: 0, len: 0 };

// The words of a record, and of a log's records.
pub const RECORD_WORDS: usize = 2;

pub const LIST_WORDS: usize = RECORD_WORDS * WRITES_LIMIT;

pub mod record_list;
