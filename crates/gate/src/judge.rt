// The judging call, and the judging that it shares with the gate.
ghost use Rattle.std.specs.Prelude.{◌≡◌, length};
ghost use Rattle.sheet.specs.Sheet.{well_formed};
ghost use Rattle.pieces.specs.Handed.{handed};
ghost use Rattle.desk.specs.Desk.{desk};
ghost use Rattle.gate.specs.Judgement.{Fitting, Checked, Weighs, Judges};

use crate::Verdict;
use desk::state::State;
use engine::count::log_points;
use engine::search::search;
use pieces::Write;
use pieces::points::touched;
use records::Record;
use region::{POINTS_LIMIT, Refusal};

// Is the sheet well-formed? That is so for any image or none.
fn formed(sheet: &[u8], image: &[u8]) -> bool
    ensures { result ≡ well_formed sheet.now }
{
    sheet::judge(sheet, image) != Err(Refusal::BadSheet)
}

// The judging of a write that fits, from 7 on: the engine is asked if the points are few enough.
fn weigh(
    state: &State,
    image: &[u8],
    log: &[u8],
    sheet: &[u8],
    work: &mut [u8],
    write: Write,
) -> Result<Verdict, Refusal>
    requires { Fitting (desk image.now state.now log.now) (length work.old) (handed write) }
    ensures { Weighs (desk image.now state.now log.now) sheet.now
        work.old (handed write.entry) result work.new }
{
    let n = log_points(state) + touched(write.addr, write.bytes.len());
    if POINTS_LIMIT < n {
        return Err(Refusal::TooManyPoints);
    }
    match search(state, image, log, sheet, work, write, n) {
        None => Ok(Verdict::Admitted(n)),
        Some(m) => Ok(Verdict::Denied(m)),
    }
}

// The judging of a sound state with `used` outstanding bytes.
pub(crate) fn decide(
    state: &State,
    used: usize,
    image: &[u8],
    log: &[u8],
    sheet: &[u8],
    work: &mut [u8],
    write: Write,
) -> Result<Verdict, Refusal>
    requires { Checked (desk image.now state.now log.now) used }
    ensures { Judges (desk image.now state.now log.now) sheet.now
        work.old (handed write.entry) result work.new }
{
    if work.len() != image.len() {
        return Err(Refusal::BadState);
    }
    if !formed(sheet, image) {
        return Err(Refusal::BadSheet);
    }
    let r = Record {
        addr: write.addr,
        len: write.bytes.len(),
    };
    state.room(image.len(), used, r)?;
    weigh(state, image, log, sheet, work, write)
}

// What the gate would answer, and the working image that it would leave. Records nothing. Sheet and
// working image stay apart as state, image and log do (`desk`).
pub fn judge(
    state: &State,
    image: &[u8],
    log: &[u8],
    sheet: &[u8],
    work: &mut [u8],
    write: Write,
) -> Result<Verdict, Refusal>
    ensures { Judges (desk image.now state.now log.now) sheet.now
        work.old (handed write.entry) result work.new }
{
    let used = state.checked(image.len(), log.len())?;
    decide(state, used, image, log, sheet, work, write)
}
