// The plain write.
ghost use Rattle.pieces.specs.Handed.{handed};
ghost use Rattle.desk.specs.Desk.{desk};
ghost use Rattle.writelog.specs.Write.{Writes};

use desk::state::State;
use pieces::Write;
use records::Record;
use region::Refusal;

// Records a write, judged by nobody.
pub fn write(state: &mut State, image: &[u8], log: &mut [u8], write: Write) -> Result<(), Refusal>
    ensures { Writes (desk image.now state.old log.old) (handed write.entry) result
        (desk image.now state.new log.new) }
{
    let used = state.checked(image.len(), log.len())?;
    let r = Record {
        addr: write.addr,
        len: write.bytes.len(),
    };
    state.room(image.len(), used, r)?;
    state.push(log, used, write);
    Ok(())
}
