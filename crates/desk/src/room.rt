// One write more: whether there is room for it, and its own step.
ghost use Rattle.std.specs.Prelude.{◌≡◌, ◌+◌, ◌≤◌, ◌<◌, length};
ghost use Rattle.region.specs.Answer.{answer_number};
ghost use Rattle.region.specs.Limits.{writes_limit, log_limit};
ghost use Rattle.region.specs.Pmemspec.{update_bytes};
ghost use Rattle.pieces.specs.Handed.{handed};
ghost use Rattle.desk.specs.State.{log_records, together, record_of, room_number, appended};

use crate::state::State;
use pieces::Write;
use pieces::lay::lay;
use records::Record;
use region::viewer::within;
use region::{LOG_LIMIT, Refusal, WRITES_LIMIT};

impl State {
    // Is there room for a write with this record where `used` bytes are outstanding? Document 01's 2, 3
    // and 4. `used` goes beside the state that it was counted of: the state is changed next, so nothing
    // holds both.
    pub fn room(&self, size: usize, used: usize, r: Record) -> Result<(), Refusal>
        requires { (used ≡ together (log_records self.now)) × (used ≤ log_limit) }
        ensures { answer_number result ≡ room_number size self.now r }
    {
        if !within(r.addr, r.len, size) {
            return Err(Refusal::OutOfRange);
        }
        if WRITES_LIMIT <= self.count {
            return Err(Refusal::TooManyWrites);
        }
        if LOG_LIMIT - used < r.len {
            return Err(Refusal::TooManyBytes);
        }
        Ok(())
    }

    // The write's own step: its bytes go behind the `used` outstanding ones, its record to index count.
    pub fn push(&mut self, log: &mut [u8], used: usize, write: Write)
        requires { (self.old.count < writes_limit) × (used + length (handed write).bytes ≤ length log.old) }
        ensures { (self.new ≡ appended self.old (record_of (handed write.entry))) ×
            (log.new ≡ update_bytes log.old used (handed write.entry).bytes) }
    {
        let Write { addr, bytes } = write;
        lay(log, Write { addr: used, bytes });
        self.with_record(Record {
            addr,
            len: bytes.len(),
        });
        self.count += 1;
    }
}
