// The flush.
ghost use Rattle.desk.specs.Desk.{desk};
ghost use Rattle.writelog.specs.Flush.{Flushes};

use desk::state::State;
use region::Refusal;
use walks::whole::replay_whole;

// Makes the read image the image, and empties the log.
pub fn flush(state: &mut State, image: &mut [u8], log: &[u8]) -> Result<(), Refusal>
    ensures { Flushes (desk image.old state.old log.now) result (desk image.new state.new log.now) }
{
    state.checked(image.len(), log.len())?;
    replay_whole(state, log, image);
    state.clear();
    Ok(())
}
