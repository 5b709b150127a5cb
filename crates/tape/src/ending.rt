// The end of an epoch, by a flush or by a cut: the same tests but for the header, and the same step.
ghost use Rattle.std.specs.Prelude.{◌≡◌, length};
ghost use Rattle.region.specs.Answer.{answer_number};
ghost use Rattle.region.specs.Limits.{writes_limit};
ghost use Rattle.desk.specs.Desk.{desk};
ghost use Rattle.epochs.specs.End.{flushing};
ghost use Rattle.epochs.specs.Predictable.{Predictable};
ghost use Rattle.tape.specs.Memory.{by_tape};
ghost use Rattle.tape.specs.Ending.{tape_ending_number, Settles};

use desk::state::State;
use epochs::epoch::{End, Tape};
use epochs::predict::predict;
use pieces::lay::copy;
use pieces::rows::row_bytes;
use region::Refusal;
use region::chunks::size_to_chunks;

// May the epoch end so? Document 01's 1, 10, 9 and 11.
pub(crate) fn ending(
    state: &State,
    image: &[u8],
    log: &[u8],
    tape: Tape,
    predicted: &[u8],
    end: End,
) -> Result<(), Refusal>
    ensures number { answer_number result ≡ tape_ending_number (flushing end)
        (by_tape (desk image.now state.now log.now) tape.entry.start predicted.now)
        tape.entry.bytes.now }
    ensures sized { length state.now.records ≡ writes_limit }
{
    let size = image.len();
    state.checked(size, log.len())?;
    if predicted.len() != size {
        return Err(Refusal::BadState);
    }
    tape.epoch(state.count, size)?;
    if tape.foretold() != Ok(end) {
        return Err(Refusal::NotPredicted);
    }
    Ok(())
}

// The predicted image becomes the image, the log is emptied, and the next epoch starts behind this
// one's rows.
pub(crate) fn settle(
    state: &mut State,
    image: &mut [u8],
    log: &[u8],
    tape: &mut Tape,
    predicted: &mut [u8],
)
    requires { Predictable (desk image.old state.old log.now) tape.old.bytes.now tape.old.start (length predicted.old) }
    ensures settles { Settles
        (by_tape (desk image.old state.old log.now) tape.old.start predicted.old)
        tape.old.bytes.now
        (by_tape (desk image.new state.new log.now) tape.new.start predicted.new) }
    ensures same_tape { tape.new.bytes ≡ tape.old.bytes }
{
    predict(state, image, log, *tape, predicted);
    copy(image, predicted);
    tape.start += 1 + state.count * row_bytes(size_to_chunks(image.len()));
    state.clear();
}
