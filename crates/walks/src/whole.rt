// The whole replay: `flush`.
ghost use Rattle.std.specs.Prelude.{◌≡◌, true, length};
ghost use Rattle.pieces.specs.AsyncSpec.{readable};
ghost use Rattle.desk.specs.Desk.{desk, view, sound};
ghost use Rattle.walks.specs.Log.{Remaining, replayed_whole};

use desk::state::State;
use pieces::Write;
use pieces::lay::lay;
use records::Record;

// The writes of these records, whose bytes begin the log, laid whole over `work`. `Remaining` ties records,
// log and image together, so it is a clause here and of the other replays, and no type's invariant.
fn whole_from(records: &[Record], log: &[u8], work: &mut [u8])
    requires { Remaining (length work.old) records.now (length log.now) }
    ensures { work.new ≡ replayed_whole work.old records.now log.now }
{
    let Some((r, later)) = records.split_first() else {
        return;
    };
    let (bytes, behind) = log.split_at(r.len);
    lay(
        work,
        Write {
            addr: r.addr,
            bytes,
        },
    );
    whole_from(later, behind, work);
}

// Makes an image the read image of its log.
pub fn replay_whole(state: &State, log: &[u8], work: &mut [u8])
    requires { sound (desk work.old state.now log.now) ≡ true }
    ensures { work.new ≡ readable (view (desk work.old state.now log.now)) }
{
    whole_from(state.outstanding(), log, work);
}
