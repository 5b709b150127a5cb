// The gate.
ghost use Rattle.pieces.specs.Handed.{handed};
ghost use Rattle.desk.specs.Desk.{desk};
ghost use Rattle.gate.specs.Judgement.{Gates};

use crate::Verdict;
use crate::judge::decide;
use desk::state::State;
use pieces::Write;
use region::Refusal;

// Judges a write, and records it if it is admitted.
pub fn gate(
    state: &mut State,
    image: &[u8],
    log: &mut [u8],
    sheet: &[u8],
    work: &mut [u8],
    write: Write,
) -> Result<Verdict, Refusal>
    ensures { Gates (desk image.now state.old log.old) sheet.now
        work.old (handed write.entry) result
        (desk image.now state.new log.new) work.new }
{
    let used = state.checked(image.len(), log.len())?;
    let verdict = decide(state, used, image, log, sheet, work, write)?;
    if let Verdict::Admitted(_) = verdict {
        state.push(log, used, write);
    }
    Ok(verdict)
}
