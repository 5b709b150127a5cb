// Opening.
ghost use Rattle.desk.specs.Desk.{desk};
ghost use Rattle.gate.specs.Opening.{Opens};

use desk::state::State;
use region::{IMAGE_LIMIT, LOG_LIMIT, Refusal};

// Judges the image and starts an empty log. The state that is handed in is not looked at: after a
// power loss it holds anything.
#[tactic(auto, using(crate::proofs::OpeningLaws::opens_stopped))]
pub fn open(state: &mut State, image: &[u8], log: &[u8], sheet: &[u8]) -> Result<(), Refusal>
    ensures { Opens (desk image.now state.old log.now) sheet.now
        result (desk image.now state.new log.now) }
{
    if IMAGE_LIMIT < image.len() || log.len() != LOG_LIMIT {
        return Err(Refusal::BadState);
    }
    sheet::judge(sheet, image)?;
    *state = State::fresh();
    Ok(())
}
