// The log's calls: write, read, flush and cut.
ghost use Rattle.std.specs.Prelude.{◌≡◌};
ghost use Rattle.pieces.specs.AsyncSpec.{write_of};
ghost use Rattle.boundary.specs.Words.{state_words};
ghost use Rattle.boundary.specs.Lent.{lent};
ghost use Rattle.boundary.specs.Log.{SkaldriftWrite, SkaldriftRead, SkaldriftFlush, SkaldriftCut};

use boundary::reports::cut_number;
use boundary::state_words::{STATE_WORDS, loaded, state_words, stored};
use pieces::Write;
use region::Refusal;
use region::numbers::answer_number;
use writelog::cut::cut;
use writelog::flush::flush;
use writelog::read::read_fill;
use writelog::write::write;

// The words of a state: the length that every other function asks of `state`.
pub fn skaldrift_state_words() -> u64
    ensures { result ≡ state_words }
{
    state_words() as u64
}

// Records a write of `data` at `addr`, judged by nobody.
pub fn skaldrift_write(
    state: &mut [u64],
    image: &[u8],
    log: &mut [u8],
    addr: u64,
    data: &[u8],
) -> u64
    ensures { SkaldriftWrite
        (lent image.now state.old log.old)
        (write_of addr «data».now) result
        (lent image.now state.new log.new) }
{
    if state.len() != STATE_WORDS {
        return Refusal::BadState.into();
    }
    let mut written = loaded(state);
    let asked = Write {
        addr: addr as usize,
        bytes: data,
    };
    let answer = write(&mut written, image, log, asked);
    stored(state, written);
    answer_number(answer)
}

// Fills the working image with the read image. The asked part is the caller's to take: work[addr..addr + len].
pub fn skaldrift_read(
    state: &[u64],
    image: &[u8],
    log: &[u8],
    work: &mut [u8],
    addr: u64,
    len: u64,
) -> u64
    ensures { SkaldriftRead (lent image.now state.now log.now) work.old addr len result work.new }
{
    if state.len() != STATE_WORDS {
        return Refusal::BadState.into();
    }
    let asked = loaded(state);
    let answer = read_fill(&asked, image, log, work, addr as usize, len as usize);
    answer_number(answer)
}

// Makes the read image the image, and empties the log.
pub fn skaldrift_flush(state: &mut [u64], image: &mut [u8], log: &[u8]) -> u64
    ensures { SkaldriftFlush
        (lent image.old state.old log.now) result
        (lent image.new state.new log.now) }
{
    if state.len() != STATE_WORDS {
        return Refusal::BadState.into();
    }
    let mut flushed = loaded(state);
    let answer = flush(&mut flushed, image, log);
    stored(state, flushed);
    answer_number(answer)
}

// Makes the replay with the rows the image, and empties the log.
pub fn skaldrift_cut(
    state: &mut [u64],
    image: &mut [u8],
    log: &[u8],
    rows: &[u8],
    report: &mut u64,
) -> u64
    ensures { SkaldriftCut
        (lent image.old state.old log.now)
        rows.now report.old result
        (lent image.new state.new log.now) report.new }
{
    if state.len() != STATE_WORDS {
        return Refusal::BadState.into();
    }
    let mut after = loaded(state);
    let answer = cut(&mut after, image, log, rows);
    stored(state, after);
    cut_number(answer, report)
}
