// The state: the outstanding writes' records, what it is at the start, and how a call changes it.
// Their bytes lie in the log buffer, packed oldest first, so that where a record's bytes begin is the
// sum of the lengths before it.
ghost use Rattle.std.specs.Prelude.{◌≡◌, ◌+◌, ◌≤◌, leb, length, get_or};
ghost use Rattle.region.specs.Answer.{counted_report};
ghost use Rattle.region.specs.Limits.{writes_limit};
ghost use Rattle.desk.specs.State.{check_report, no_record, log_records, records_offset, with_record, emptied, fresh};

use records::record_list::{append, lookup};
use records::{NO_RECORD, Record};
use region::viewer::within;
use region::{IMAGE_LIMIT, LOG_LIMIT, Refusal, WRITES_LIMIT};

// An array and a count: there is no heap, and so it crosses to C.
#[derive(Clone, Copy)]
pub struct State {
    pub count: usize,
    pub records: [Record; WRITES_LIMIT],
}

impl State {
    // An empty log, its records all zero.
    pub fn fresh() -> State
        ensures { result ≡ fresh }
    {
        State {
            count: 0,
            records: [NO_RECORD; WRITES_LIMIT],
        }
    }

    // The outstanding writes' records, oldest first, where they lie. Old records past the count are nobody's business.
    pub fn outstanding(&self) -> &[Record]
        requires { self.now.count ≤ writes_limit }
        ensures records { result.now ≡ log_records self.now }
        ensures counted { length result.now ≡ self.now.count }
        ensures place { (result.ref_ptr.0 ≡ self.entry.ref_ptr.0) × (result.ref_ptr.1 ≡ self.entry.ref_ptr.1 + records_offset) }
    {
        &self.records[..self.count]
    }

    // Tests what every call is handed: the image's length, the state and the log buffer's length.
    // Answers the outstanding bytes, or document 01's 1.
    pub fn checked(&self, image: usize, log: usize) -> Result<usize, Refusal>
        ensures { (counted_report result ≡ check_report image self.now log) × (length self.now.records ≡ writes_limit) }
    {
        if IMAGE_LIMIT < image || log != LOG_LIMIT || WRITES_LIMIT < self.count {
            return Err(Refusal::BadState);
        }
        let mut used = 0;
        for r in self.outstanding() {
            if !within(r.addr, r.len, image) || LOG_LIMIT - used < r.len {
                return Err(Refusal::BadState);
            }
            used += r.len;
        }
        Ok(used)
    }

    // The record at index i, or the zero record past the last.
    pub fn record_at(&self, i: usize) -> Record
        ensures { result ≡ get_or self.now.records i no_record }
    {
        lookup(&self.records, i)
    }

    // Stores r at index count; the count stays.
    pub fn with_record(&mut self, r: Record)
        ensures { self.new ≡ with_record self.old r }
    {
        let at = self.count;
        append(&mut self.records, at, r);
    }

    // Empties the log; its old records stay.
    pub fn clear(&mut self)
        ensures { self.new ≡ emptied self.old }
    {
        self.count = 0;
    }
}
