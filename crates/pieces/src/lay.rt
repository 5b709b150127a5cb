// One write laid over an image in place. That the write lies inside it is a clause of each function: it
// ties two lent things together, which no type of one of them can hold.
ghost use Rattle.std.specs.Prelude.{◌≡◌, ◌+◌, ◌≤◌, ◌<◌, ℕ, Bool, length};
ghost use Rattle.region.specs.Limits.{const_persistence_chunk_size, points_limit};
ghost use Rattle.pieces.specs.AsyncSpec.{apply_write, size_to_chunks};
ghost use Rattle.pieces.specs.Handed.{handed};
ghost use Rattle.pieces.specs.Choice.{touched};
ghost use Rattle.pieces.specs.Rows.{row_bytes};
ghost use Rattle.pieces.specs.Laid.{lay, Tells, laid_by_row, laid_by_choice};

use crate::Write;
use crate::rows::row_bit;
use region::CHUNK_SIZE;

// Only the bytes at addresses that `keeps` answers for.
fn lay_where<F: Fn(usize) -> bool>(work: &mut [u8], write: Write, keeps: F)
    requires lies { write.addr + length write.bytes.now ≤ length work.old }
    requires answers { (i : ℕ) → write.addr ≤ i → i < write.addr + length write.bytes.now → F.pre keeps i }
    ensures { (keep : ℕ → Bool) → Tells (F.post keeps) keep (handed write.entry)
        → work.new ≡ lay keep work.old write.entry.addr write.entry.bytes.now }
{
    for (j, &byte) in write.bytes.iter().enumerate() {
        let i = write.addr + j;
        if keeps(i) {
            work[i] = byte;
        }
    }
}

// The whole write: `apply_write`. A loop, and no `copy_from_slice`: that is built as a call of memmove, which the header
// doesn't ask of the C library.
pub fn lay(work: &mut [u8], write: Write)
    requires { write.addr + length write.bytes.now ≤ length work.old }
    ensures { work.new ≡ apply_write work.old (handed write.entry) }
{
    lay_where(work, write, |_| true);
}

// Makes an image another one of its length.
pub fn copy(work: &mut [u8], image: &[u8])
    requires { length work.old ≡ length image.now }
    ensures { work.new ≡ image.now }
{
    lay(
        work,
        Write {
            addr: 0,
            bytes: image,
        },
    );
}

// Only the bytes in chunks that the row at `at` keeps: `apply_write_selective`.
pub fn lay_selected(work: &mut [u8], write: Write, rows: &[u8], at: usize)
    requires lies { write.addr + length write.bytes.now ≤ length work.old }
    requires row_there { at + row_bytes (size_to_chunks const_persistence_chunk_size (length work.old)) ≤ length rows.now }
    ensures { work.new ≡ laid_by_row const_persistence_chunk_size work.old
        (handed write.entry) rows.now at }
{
    lay_where(work, write, |i| row_bit(rows, at, i / CHUNK_SIZE));
}

// Only the bytes in chunks that choice number m keeps, whose bit 0 is for the first chunk that the
// write touches.
pub fn lay_chosen(work: &mut [u8], write: Write, m: usize)
    requires lies { write.addr + length write.bytes.now ≤ length work.old }
    requires few_points { touched const_persistence_chunk_size write.addr (length write.bytes.now) ≤ points_limit }
    ensures { work.new ≡ laid_by_choice const_persistence_chunk_size work.old
        (handed write.entry) m }
{
    let first = write.addr / CHUNK_SIZE;
    lay_where(work, write, |i| (m >> (i / CHUNK_SIZE - first)) % 2 == 1);
}
