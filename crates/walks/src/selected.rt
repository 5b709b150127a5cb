// The replay by the chunks that rows keep: `flush_selective`.
ghost use Rattle.std.specs.Prelude.{◌≡◌, true, ◌+◌, ◌*◌, ◌≤◌, length};
ghost use Rattle.region.specs.Limits.{const_persistence_chunk_size};
ghost use Rattle.pieces.specs.AsyncSpec.{size_to_chunks, flush_selective};
ghost use Rattle.pieces.specs.Rows.{row_bytes, rows_at};
ghost use Rattle.desk.specs.Desk.{desk, view, sound, chunks};
ghost use Rattle.walks.specs.Log.{Remaining, RowsRemaining, replayed_by_rows};

use desk::state::State;
use pieces::Write;
use pieces::lay::lay_selected;
use records::Record;

// The writes of these records, whose bytes begin the log, laid over `work` by the rows from `row` on,
// each of `width` bytes. `Remaining` as in `whole_from`.
fn selected_from(
    records: &[Record],
    log: &[u8],
    rows: &[u8],
    width: usize,
    row: usize,
    work: &mut [u8],
)
    requires remaining { Remaining (length work.old) records.now (length log.now) }
    requires rows_remaining { RowsRemaining const_persistence_chunk_size (length work.old) width (length records.now) (length rows.now) row }
    ensures { work.new ≡ replayed_by_rows const_persistence_chunk_size work.old records.now log.now rows.now row }
{
    let Some((r, later)) = records.split_first() else {
        return;
    };
    let (bytes, behind) = log.split_at(r.len);
    lay_selected(
        work,
        Write {
            addr: r.addr,
            bytes,
        },
        rows,
        row,
    );
    selected_from(later, behind, rows, width, row + width, work);
}

// Makes an image what a cut by the rows from `row` on leaves of it and its log. A row has `width` bytes.
pub fn replay_selected(
    state: &State,
    log: &[u8],
    rows: &[u8],
    width: usize,
    work: &mut [u8],
    row: usize,
)
    requires sound { sound (desk work.old state.now log.now) ≡ true }
    requires row_width { width ≡ row_bytes (size_to_chunks const_persistence_chunk_size (length work.old)) }
    requires rows_there { row + state.now.count * width ≤ length rows.now }
    ensures { work.new ≡ flush_selective const_persistence_chunk_size (view (desk work.old state.now log.now))
        (rows_at (chunks (desk work.old state.now log.now)) state.now.count rows.now row) }
{
    selected_from(state.outstanding(), log, rows, width, row, work);
}
