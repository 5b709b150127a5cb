// Half a round of the example: a pair of writes through the gate, flushed. A round is val0, val1, and back.
ghost use Rattle.std.specs.Prelude.{◌≡◌, Ok};
ghost use Rattle.desk.specs.Desk.{desk};
ghost use Rattle.gate.specs.Judgement.{verdict_report};
ghost use Rattle.rounds.specs.Answer.{run_answer_number};
ghost use Rattle.rounds.specs.Steps.{Under, Goes};

use crate::RunError;
use desk::state::State;
use gate::Verdict;
use gate::gate::gate;
use pieces::Write;
use writelog::flush::flush;

// The answer of a run that stops at this verdict: its number. A function with a clause, though no denial comes, so
// that one taken for done is refused.
fn stopped(verdict: Verdict) -> Result<(), RunError>
    ensures { run_answer_number result ≡ (verdict_report (Ok verdict)).number }
{
    match verdict {
        Verdict::Admitted(_) => Ok(()),
        Verdict::Denied(_) => Err(RunError::Denied),
    }
}

// Writes `first` and then `second` at `addr` through the gate, and flushes. Stops at the first
// refusal; none comes. Each write takes its verdict apart by itself, as the example asks.
pub fn pair(
    state: &mut State,
    image: &mut [u8],
    log: &mut [u8],
    sheet: &[u8],
    work: &mut [u8],
    addr: usize,
    first: u8,
    second: u8,
) -> Result<(), RunError>
    requires { Under (desk image.old state.old log.old) sheet.now work.old addr first second }
    ensures { Goes (desk image.old state.old log.old) addr first second result
        (desk image.new state.new log.new) work.new }
{
    let once = Write {
        addr,
        bytes: &[first],
    };
    let verdict = gate(state, image, log, sheet, work, once)?;
    let Verdict::Admitted(_) = verdict else {
        return stopped(verdict);
    };
    let twice = Write {
        addr,
        bytes: &[second],
    };
    let verdict = gate(state, image, log, sheet, work, twice)?;
    let Verdict::Admitted(_) = verdict else {
        return stopped(verdict);
    };
    flush(state, image, log)?;
    Ok(())
}
