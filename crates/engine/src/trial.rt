// One trial: the image that a choice number leaves, with the new write in the log.
ghost use Rattle.std.specs.Prelude.{◌≡◌, ◌≤◌, length};
ghost use Rattle.region.specs.Limits.{const_persistence_chunk_size, image_limit, points_limit};
ghost use Rattle.pieces.specs.Handed.{handed};
ghost use Rattle.desk.specs.Desk.{desk};
ghost use Rattle.walks.specs.Log.{Remaining};
ghost use Rattle.engine.specs.Count.{record_points};
ghost use Rattle.engine.specs.Search.{Ready, trial_image};
ghost use Rattle.engine.specs.Trial.{replayed_by_choice};

use desk::state::State;
use pieces::Write;
use pieces::lay::{copy, lay_chosen};
use pieces::points::touched;
use records::Record;

// The writes of these records, whose bytes begin the log, laid over `work` by the chunks that m keeps,
// oldest write first. A write's points are m's lowest bits. `Remaining` as in `whole_from` of `walks`.
fn chosen_from(records: &[Record], log: &[u8], work: &mut [u8], m: usize)
    requires remaining { Remaining (length work.old) records.now (length log.now) }
    requires short { length work.old ≤ image_limit }
    requires few_points { record_points const_persistence_chunk_size records.now ≤ points_limit }
    ensures { work.new ≡ replayed_by_choice const_persistence_chunk_size work.old records.now log.now m }
{
    let Some((r, later)) = records.split_first() else {
        return;
    };
    let (bytes, behind) = log.split_at(r.len);
    lay_chosen(
        work,
        Write {
            addr: r.addr,
            bytes,
        },
        m,
    );
    let above = m >> touched(r.addr, r.len);
    chosen_from(later, behind, work, above);
}

// The image, the log by m's lowest points, and the new write by those above: `points` in all.
pub fn trial(
    state: &State,
    image: &[u8],
    log: &[u8],
    work: &mut [u8],
    write: Write,
    points: usize,
    m: usize,
)
    requires { Ready (desk image.now state.now log.now) (length work.old) (handed write) points }
    ensures { work.new ≡ trial_image (desk image.now state.now log.now) (handed write.entry) m }
{
    copy(work, image);
    chosen_from(state.outstanding(), log, work, m);
    let older = points - touched(write.addr, write.bytes.len());
    lay_chosen(work, write, m >> older);
}
