// The pieces that a cut keeps, counted by the records alone.
ghost use Rattle.std.specs.Prelude.{◌≡◌, length};
ghost use Rattle.region.specs.Limits.{const_persistence_chunk_size};
ghost use Rattle.walks.specs.Kept.{KeptFrom, kept_by_table};

use desk::state::State;
use pieces::points::touched;
use pieces::rows::{row_bytes, set_bits};
use region::CHUNK_SIZE;
use region::chunks::size_to_chunks;

// The pieces that the rows from `row` on keep: the set bits among each write's touched chunks, summed.
// The place is counted beside the loop: rows of an empty image have no bytes, and `chunks` has no such step.
pub fn kept(state: &State, size: usize, rows: &[u8], row: usize) -> usize
    requires { KeptFrom const_persistence_chunk_size size state.now (length rows.now) row }
    ensures { result ≡ kept_by_table const_persistence_chunk_size size state.now rows.now row }
{
    let width = row_bytes(size_to_chunks(size));
    let mut sum = 0;
    let mut place = row;
    for r in state.outstanding() {
        sum += set_bits(rows, place, r.addr / CHUNK_SIZE, touched(r.addr, r.len));
        place += width;
    }
    sum
}
