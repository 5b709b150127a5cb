// Opening, the judging call and the gate.
ghost use Rattle.pieces.specs.AsyncSpec.{write_of};
ghost use Rattle.boundary.specs.Lent.{lent};
ghost use Rattle.boundary.specs.Gate.{SkaldriftOpen, SkaldriftJudge, SkaldriftGate};

use boundary::reports::verdict_number;
use boundary::state_words::{STATE_WORDS, loaded, stored};
use gate::gate::gate;
use gate::judge::judge;
use gate::open::open;
use pieces::Write;
use region::Refusal;
use region::numbers::answer_number;

// Judges the image and starts an empty log. Of the state only its length is looked at.
pub fn skaldrift_open(state: &mut [u64], image: &[u8], log: &[u8], sheet: &[u8]) -> u64
    ensures { SkaldriftOpen
        (lent image.now state.old log.now)
        sheet.now result
        (lent image.now state.new log.now) }
{
    if state.len() != STATE_WORDS {
        return Refusal::BadState.into();
    }
    let mut opened = loaded(state);
    let answer = open(&mut opened, image, log, sheet);
    stored(state, opened);
    answer_number(answer)
}

// What the gate would answer, and the working image that it would leave. Records nothing.
pub fn skaldrift_judge(
    state: &[u64],
    image: &[u8],
    log: &[u8],
    sheet: &[u8],
    work: &mut [u8],
    addr: u64,
    data: &[u8],
    report: &mut u64,
) -> u64
    ensures { SkaldriftJudge
        (lent image.now state.now log.now)
        sheet.now work.old (write_of addr «data».now) report.old result
        work.new report.new }
{
    if state.len() != STATE_WORDS {
        return Refusal::BadState.into();
    }
    let asked = loaded(state);
    let write = Write {
        addr: addr as usize,
        bytes: data,
    };
    let verdict = judge(&asked, image, log, sheet, work, write);
    verdict_number(verdict, report)
}

// Judges a write of `data` at `addr`, and records it if it is admitted.
pub fn skaldrift_gate(
    state: &mut [u64],
    image: &[u8],
    log: &mut [u8],
    sheet: &[u8],
    work: &mut [u8],
    addr: u64,
    data: &[u8],
    report: &mut u64,
) -> u64
    ensures { SkaldriftGate
        (lent image.now state.old log.old)
        sheet.now work.old (write_of addr «data».now) report.old result
        (lent image.now state.new log.new) work.new report.new }
{
    if state.len() != STATE_WORDS {
        return Refusal::BadState.into();
    }
    let mut gated = loaded(state);
    let asked = Write {
        addr: addr as usize,
        bytes: data,
    };
    let verdict = gate(&mut gated, image, log, sheet, work, asked);
    stored(state, gated);
    verdict_number(verdict, report)
}
