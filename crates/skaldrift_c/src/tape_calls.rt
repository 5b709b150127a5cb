// The calls by tape.
ghost use Rattle.pieces.specs.AsyncSpec.{write_of};
ghost use Rattle.boundary.specs.Lent.{lent, lent_by_tape};
ghost use Rattle.boundary.specs.Tape.{SkaldriftTapeWrite, SkaldriftTapeFlush, SkaldriftTapeCut};

use skaldrift::tape_calls;

// Records a write of `data` at `addr`, judged by nobody, and predicts the image with it.
#[unsafe(no_mangle)]
pub extern "C" fn skaldrift_tape_write(
    state: &mut [u64],
    image: &[u8],
    log: &mut [u8],
    tape: &[u8],
    start: u64,
    predicted: &mut [u8],
    addr: u64,
    data: &[u8],
) -> u64
    ensures { SkaldriftTapeWrite
        (lent_by_tape (lent image.now state.old log.old) start predicted.old)
        tape.now (write_of addr «data».now) result
        (lent_by_tape (lent image.now state.new log.new) start predicted.new) }
{
    tape_calls::skaldrift_tape_write(state, image, log, tape, start, predicted, addr, data)
}

// Makes the read image the image, where the tape foretells it, and empties the log.
#[unsafe(no_mangle)]
pub extern "C" fn skaldrift_tape_flush(
    state: &mut [u64],
    image: &mut [u8],
    log: &[u8],
    tape: &[u8],
    start: &mut u64,
    predicted: &mut [u8],
) -> u64
    ensures { SkaldriftTapeFlush
        (lent_by_tape (lent image.old state.old log.now) start.old predicted.old)
        tape.now result
        (lent_by_tape (lent image.new state.new log.now) start.new predicted.new) }
{
    tape_calls::skaldrift_tape_flush(state, image, log, tape, start, predicted)
}

// Makes the predicted image the image, where the tape foretells a cut, and empties the log.
#[unsafe(no_mangle)]
pub extern "C" fn skaldrift_tape_cut(
    state: &mut [u64],
    image: &mut [u8],
    log: &[u8],
    tape: &[u8],
    start: &mut u64,
    predicted: &mut [u8],
    report: &mut u64,
) -> u64
    ensures { SkaldriftTapeCut
        (lent_by_tape (lent image.old state.old log.now) start.old predicted.old)
        tape.now report.old result
        (lent_by_tape (lent image.new state.new log.now) start.new predicted.new) report.new }
{
    tape_calls::skaldrift_tape_cut(state, image, log, tape, start, predicted, report)
}
