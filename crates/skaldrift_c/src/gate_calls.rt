// Opening, the judging call and the gate.
ghost use Rattle.pieces.specs.AsyncSpec.{write_of};
ghost use Rattle.boundary.specs.Lent.{lent};
ghost use Rattle.boundary.specs.Gate.{SkaldriftOpen, SkaldriftJudge, SkaldriftGate};

use skaldrift::gate_calls;

// Judges the image and starts an empty log. Of the state only its length is looked at.
#[unsafe(no_mangle)]
pub extern "C" fn skaldrift_open(state: &mut [u64], image: &[u8], log: &[u8], sheet: &[u8]) -> u64
    ensures { SkaldriftOpen
        (lent image.now state.old log.now)
        sheet.now result
        (lent image.now state.new log.now) }
{
    gate_calls::skaldrift_open(state, image, log, sheet)
}

// What the gate would answer, and the working image that it would leave. Records nothing.
#[unsafe(no_mangle)]
pub extern "C" fn skaldrift_judge(
    state: &[u64],
    image: &[u8],
    log: &[u8],
    sheet: &[u8],
    work: &mut [u8],
    addr: u64,
    data: &[u8],
    report: &mut u64,
) -> u64
    ensures { SkaldriftJudge
        (lent image.now state.now log.now)
        sheet.now work.old (write_of addr «data».now) report.old result
        work.new report.new }
{
    gate_calls::skaldrift_judge(state, image, log, sheet, work, addr, data, report)
}

// Judges a write of `data` at `addr`, and records it if it is admitted.
#[unsafe(no_mangle)]
pub extern "C" fn skaldrift_gate(
    state: &mut [u64],
    image: &[u8],
    log: &mut [u8],
    sheet: &[u8],
    work: &mut [u8],
    addr: u64,
    data: &[u8],
    report: &mut u64,
) -> u64
    ensures { SkaldriftGate
        (lent image.now state.old log.old)
        sheet.now work.old (write_of addr «data».now) report.old result
        (lent image.now state.new log.new) work.new report.new }
{
    gate_calls::skaldrift_gate(state, image, log, sheet, work, addr, data, report)
}
