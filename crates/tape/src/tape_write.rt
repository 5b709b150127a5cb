// The write by tape.
ghost use Rattle.std.specs.Prelude.{◌≡◌, ◌≤◌};
ghost use Rattle.region.specs.Answer.{answer_number};
ghost use Rattle.region.specs.Limits.{image_limit, log_limit, const_persistence_chunk_size};
ghost use Rattle.pieces.specs.Handed.{handed};
ghost use Rattle.desk.specs.State.{log_records, together};
ghost use Rattle.desk.specs.Desk.{desk};
ghost use Rattle.tape.specs.Memory.{by_tape};
ghost use Rattle.tape.specs.Write.{tape_room_number, TapeWrites};

use desk::state::State;
use epochs::epoch::Tape;
use epochs::predict::predict;
use pieces::Write;
use records::Record;
use region::Refusal;

// Is there room for a write with this record, and a right row for it on the tape? Document 01's 2, 3,
// 4, 10 and 9.
#[tactic(auto, unfolding(crate::specs::Write::tape_room_number))]
fn tape_room(state: &State, size: usize, used: usize, tape: Tape, r: Record) -> Result<(), Refusal>
    requires { (used ≡ together (log_records state.now)) × (used ≤ log_limit) × (size ≤ image_limit) }
    ensures { answer_number result ≡ tape_room_number const_persistence_chunk_size size state.now tape.entry.bytes.now tape.entry.start r }
{
    state.room(size, used, r)?;
    tape.epoch(state.count + 1, size)
}

// Records a write, judged by nobody, and predicts the image with it. The epoch's start stays where it
// is.
pub fn tape_write(
    state: &mut State,
    image: &[u8],
    log: &mut [u8],
    tape: Tape,
    predicted: &mut [u8],
    write: Write,
) -> Result<(), Refusal>
    ensures { TapeWrites
        (by_tape (desk image.now state.old log.old) tape.entry.start predicted.old)
        tape.entry.bytes.now (handed write.entry) result
        (by_tape (desk image.now state.new log.new) tape.entry.start predicted.new) }
{
    let used = state.checked(image.len(), log.len())?;
    if predicted.len() != image.len() {
        return Err(Refusal::BadState);
    }
    let r = Record {
        addr: write.addr,
        len: write.bytes.len(),
    };
    tape_room(state, image.len(), used, tape, r)?;
    state.push(log, used, write);
    predict(state, image, log, tape, predicted);
    Ok(())
}
