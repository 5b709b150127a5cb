// The flush by tape.
ghost use Rattle.std.specs.Prelude.{◌≡◌};
ghost use Rattle.desk.specs.Desk.{desk};
ghost use Rattle.tape.specs.Memory.{by_tape};
ghost use Rattle.tape.specs.Flush.{TapeFlushes};

use crate::ending::{ending, settle};
use desk::state::State;
use epochs::epoch::{End, Tape};
use region::Refusal;

// Makes the read image the image, where the tape foretells it, and empties the log.
pub fn tape_flush(
    state: &mut State,
    image: &mut [u8],
    log: &[u8],
    tape: &mut Tape,
    predicted: &mut [u8],
) -> Result<(), Refusal>
    ensures flushes { TapeFlushes
        (by_tape (desk image.old state.old log.now) tape.old.start predicted.old)
        tape.old.bytes.now result
        (by_tape (desk image.new state.new log.now) tape.new.start predicted.new) }
    ensures same_tape { tape.new.bytes ≡ tape.old.bytes }
{
    ending(state, image, log, *tape, predicted, End::Flush)?;
    settle(state, image, log, tape, predicted);
    Ok(())
}
