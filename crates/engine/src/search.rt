// The search: all choice numbers from 0 on, to the first whose image breaks the sheet.
ghost use Rattle.std.specs.Prelude.{length};
ghost use Rattle.pieces.specs.Handed.{handed};
ghost use Rattle.desk.specs.Desk.{desk};
ghost use Rattle.engine.specs.Search.{Ready, Searches};

use crate::trial::trial;
use desk::state::State;
use pieces::Write;
use sheet::judge;

// Tries all numbers from 0 to 2^points - 1. What it leaves in `work` is its last trial: the first
// bad image, or the read image, which the last number leaves. Answers the first bad number. A sheet
// that is malformed nothing obeys.
pub fn search(
    state: &State,
    image: &[u8],
    log: &[u8],
    sheet: &[u8],
    work: &mut [u8],
    write: Write,
    points: usize,
) -> Option<usize>
    requires { Ready (desk image.now state.now log.now) (length work.old) (handed write) points }
    ensures { Searches (desk image.now state.now log.now)
        (handed write.entry) sheet.now result work.new }
{
    let last = (1 << points) - 1;
    for m in 0..=last {
        trial(state, image, log, work, write, points, m);
        let obeyed = judge(sheet, work).is_ok();
        if !obeyed {
            return Some(m);
        }
    }
    None
}
