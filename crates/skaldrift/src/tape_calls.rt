// The calls by tape.
ghost use Rattle.pieces.specs.AsyncSpec.{write_of};
ghost use Rattle.boundary.specs.Lent.{lent, lent_by_tape};
ghost use Rattle.boundary.specs.Tape.{SkaldriftTapeWrite, SkaldriftTapeFlush, SkaldriftTapeCut};

use boundary::reports::cut_number;
use boundary::state_words::{STATE_WORDS, loaded, stored};
use epochs::epoch::Tape;
use pieces::Write;
use region::Refusal;
use region::numbers::answer_number;
use tape::tape_cut::tape_cut;
use tape::tape_flush::tape_flush;
use tape::tape_write::tape_write;

// Records a write of `data` at `addr`, judged by nobody, and predicts the image with it.
pub fn skaldrift_tape_write(
    state: &mut [u64],
    image: &[u8],
    log: &mut [u8],
    tape: &[u8],
    start: u64,
    predicted: &mut [u8],
    addr: u64,
    data: &[u8],
) -> u64
    ensures { SkaldriftTapeWrite
        (lent_by_tape (lent image.now state.old log.old) start predicted.old)
        tape.now (write_of addr «data».now) result
        (lent_by_tape (lent image.now state.new log.new) start predicted.new) }
{
    if state.len() != STATE_WORDS {
        return Refusal::BadState.into();
    }
    let mut written = loaded(state);
    let epoch = Tape {
        bytes: tape,
        start: start as usize,
    };
    let asked = Write {
        addr: addr as usize,
        bytes: data,
    };
    let answer = tape_write(&mut written, image, log, epoch, predicted, asked);
    stored(state, written);
    answer_number(answer)
}

// Makes the read image the image, where the tape foretells it, and empties the log.
pub fn skaldrift_tape_flush(
    state: &mut [u64],
    image: &mut [u8],
    log: &[u8],
    tape: &[u8],
    start: &mut u64,
    predicted: &mut [u8],
) -> u64
    ensures { SkaldriftTapeFlush
        (lent_by_tape (lent image.old state.old log.now) start.old predicted.old)
        tape.now result
        (lent_by_tape (lent image.new state.new log.now) start.new predicted.new) }
{
    if state.len() != STATE_WORDS {
        return Refusal::BadState.into();
    }
    let mut flushed = loaded(state);
    let mut epoch = Tape {
        bytes: tape,
        start: *start as usize,
    };
    let answer = tape_flush(&mut flushed, image, log, &mut epoch, predicted);
    stored(state, flushed);
    *start = epoch.start as u64;
    answer_number(answer)
}

// Makes the predicted image the image, where the tape foretells a cut, and empties the log.
pub fn skaldrift_tape_cut(
    state: &mut [u64],
    image: &mut [u8],
    log: &[u8],
    tape: &[u8],
    start: &mut u64,
    predicted: &mut [u8],
    report: &mut u64,
) -> u64
    ensures { SkaldriftTapeCut
        (lent_by_tape (lent image.old state.old log.now) start.old predicted.old)
        tape.now report.old result
        (lent_by_tape (lent image.new state.new log.now) start.new predicted.new) report.new }
{
    if state.len() != STATE_WORDS {
        return Refusal::BadState.into();
    }
    let mut after = loaded(state);
    let mut next = Tape {
        bytes: tape,
        start: *start as usize,
    };
    let answer = tape_cut(&mut after, image, log, &mut next, predicted);
    stored(state, after);
    *start = next.start as u64;
    cut_number(answer, report)
}
