// The cut by tape.
ghost use Rattle.std.specs.Prelude.{◌≡◌};
ghost use Rattle.desk.specs.Desk.{desk};
ghost use Rattle.tape.specs.Memory.{by_tape};
ghost use Rattle.tape.specs.Cut.{TapeCuts};

use crate::ending::{ending, settle};
use desk::state::State;
use epochs::epoch::{End, Tape};
use region::Refusal;
use walks::kept_count::kept;

// Makes the predicted image the image, where the tape foretells a cut, and empties the log. Answers
// how many pieces it kept.
pub fn tape_cut(
    state: &mut State,
    image: &mut [u8],
    log: &[u8],
    tape: &mut Tape,
    predicted: &mut [u8],
) -> Result<usize, Refusal>
    ensures cuts { TapeCuts
        (by_tape (desk image.old state.old log.now) tape.old.start predicted.old)
        tape.old.bytes.now result
        (by_tape (desk image.new state.new log.now) tape.new.start predicted.new) }
    ensures same_tape { tape.new.bytes ≡ tape.old.bytes }
{
    ending(state, image, log, *tape, predicted, End::Cut)?;
    let rows = tape.start + 1;
    let pieces = kept(state, image.len(), tape.bytes, rows);
    settle(state, image, log, tape, predicted);
    Ok(pieces)
}
