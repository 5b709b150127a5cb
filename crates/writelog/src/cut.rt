// The cut.
ghost use Rattle.std.specs.Prelude.{◌≡◌, ◌≤◌};
ghost use Rattle.region.specs.Limits.{image_limit, writes_limit, const_persistence_chunk_size};
ghost use Rattle.pieces.specs.AsyncSpec.{size_to_chunks};
ghost use Rattle.pieces.specs.Rows.{rows_right};
ghost use Rattle.desk.specs.Desk.{desk};
ghost use Rattle.writelog.specs.Cut.{Cuts};

use desk::state::State;
use pieces::rows::{row_bytes, rows_filled};
use region::Refusal;
use region::chunks::size_to_chunks;
use walks::kept_count::kept;
use walks::selected::replay_selected;

// A table of the right length, with no filling bit set, for n writes and an image of `size` bytes. The two
// limits are clauses: a type for either number would be taken apart here at once.
fn rows_right(rows: &[u8], n: usize, size: usize) -> bool
    requires { (n ≤ writes_limit) × (size ≤ image_limit) }
    ensures { result ≡ rows_right (size_to_chunks const_persistence_chunk_size size) n rows.now }
{
    let chunks = size_to_chunks(size);
    rows.len() == n * row_bytes(chunks) && rows_filled(rows, 0, n, chunks)
}

// Makes the replay with the rows the image, and empties the log. Answers how many pieces it kept.
pub fn cut(state: &mut State, image: &mut [u8], log: &[u8], rows: &[u8]) -> Result<usize, Refusal>
    ensures { Cuts (desk image.old state.old log.now) rows.now result
        (desk image.new state.new log.now) }
{
    let size = image.len();
    state.checked(size, log.len())?;
    if !rows_right(rows, state.count, size) {
        return Err(Refusal::BadRows);
    }
    let width = row_bytes(size_to_chunks(size));
    replay_selected(state, log, rows, width, image, 0);
    let pieces = kept(state, size, rows, 0);
    state.clear();
    Ok(pieces)
}
