// The log's calls: write, read, flush and cut.
ghost use Rattle.std.specs.Prelude.{◌≡◌};
ghost use Rattle.pieces.specs.AsyncSpec.{write_of};
ghost use Rattle.boundary.specs.Words.{state_words};
ghost use Rattle.boundary.specs.Lent.{lent};
ghost use Rattle.boundary.specs.Log.{SkaldriftWrite, SkaldriftRead, SkaldriftFlush, SkaldriftCut};

use skaldrift::log_calls;

// The words of a state: the length that every other function asks of `state`.
#[unsafe(no_mangle)]
pub extern "C" fn skaldrift_state_words() -> u64
    ensures { result ≡ state_words }
{
    log_calls::skaldrift_state_words()
}

// Records a write of `data` at `addr`, judged by nobody.
#[unsafe(no_mangle)]
pub extern "C" fn skaldrift_write(
    state: &mut [u64],
    image: &[u8],
    log: &mut [u8],
    addr: u64,
    data: &[u8],
) -> u64
    ensures { SkaldriftWrite
        (lent image.now state.old log.old)
        (write_of addr «data».now) result
        (lent image.now state.new log.new) }
{
    log_calls::skaldrift_write(state, image, log, addr, data)
}

// Fills the working image with the read image. The asked part is the caller's to take: work[addr..addr + len].
#[unsafe(no_mangle)]
pub extern "C" fn skaldrift_read(
    state: &[u64],
    image: &[u8],
    log: &[u8],
    work: &mut [u8],
    addr: u64,
    len: u64,
) -> u64
    ensures { SkaldriftRead (lent image.now state.now log.now) work.old addr len result work.new }
{
    log_calls::skaldrift_read(state, image, log, work, addr, len)
}

// Makes the read image the image, and empties the log.
#[unsafe(no_mangle)]
pub extern "C" fn skaldrift_flush(state: &mut [u64], image: &mut [u8], log: &[u8]) -> u64
    ensures { SkaldriftFlush
        (lent image.old state.old log.now) result
        (lent image.new state.new log.now) }
{
    log_calls::skaldrift_flush(state, image, log)
}

// Makes the replay with the rows the image, and empties the log.
#[unsafe(no_mangle)]
pub extern "C" fn skaldrift_cut(
    state: &mut [u64],
    image: &mut [u8],
    log: &[u8],
    rows: &[u8],
    report: &mut u64,
) -> u64
    ensures { SkaldriftCut
        (lent image.old state.old log.now)
        rows.now report.old result
        (lent image.new state.new log.now) report.new }
{
    log_calls::skaldrift_cut(state, image, log, rows, report)
}
