// A row of a row table, where it lies: K bits, chunk 0 in the top bit of its first byte. The table and
// the place go together, as in the definitions: a row of its own would want a law of `drop` at each use.
ghost use Rattle.std.specs.Prelude.{◌≡◌, ◌+◌, ◌-◌, ◌*◌, ◌/◌, ◌%◌, ◌^◌, ◌≤◌, ◌<◌, length};
ghost use Rattle.std.specs.Int.Count.{ones};
ghost use Rattle.pieces.specs.Rows.{row_bit, row_bytes, set_bits, row_filled, rows_filled};

use bits::BYTE_BITS;

// The bytes of a row of `chunks` bits.
pub fn row_bytes(chunks: usize) -> usize
    ensures { result ≡ row_bytes chunks }
{
    chunks.div_ceil(BYTE_BITS)
}

// Bit c of the row at `at`.
pub(crate) fn row_bit(rows: &[u8], at: usize, c: usize) -> bool
    requires { at + c / 8 < length rows.now }
    ensures { result ≡ row_bit rows.now at c }
{
    (rows[at + c / BYTE_BITS] >> (BYTE_BITS - 1 - c % BYTE_BITS)) % 2 == 1
}

// How many of the n bits of a byte that come after the first `skipped`, counted from the top, are
// set: the byte is masked to them, and the ones are counted.
fn ones_among(byte: u8, skipped: usize, n: usize) -> usize
    requires { skipped + n ≤ 8 }
    ensures { result ≡ ones (byte / 2 ^ (8 - skipped - n) % 2 ^ n) }
{
    let mask = (1u32 << (BYTE_BITS - skipped)) - (1u32 << (BYTE_BITS - skipped - n));
    (u32::from(byte) & mask).count_ones() as usize
}

// How many of the n bits from bit `from` of the row at `at` are set, a byte at a time. No iterator
// counts the turns: each takes what is left of a byte.
pub fn set_bits(rows: &[u8], at: usize, from: usize, n: usize) -> usize
    requires { (from + n < 2 ^ 64) × (at + row_bytes (from + n) ≤ length rows.now) }
    ensures { result ≡ set_bits (row_bit rows.now at) from n }
{
    let mut sum = 0;
    let mut c = from;
    let mut left = n;
    while 0 < left {
        let room = BYTE_BITS - c % BYTE_BITS;
        let here = left.min(room);
        sum += ones_among(rows[at + c / BYTE_BITS], c % BYTE_BITS, here);
        c += here;
        left -= here;
    }
    sum
}

// No filling bit of the row at `at` is set.
#[tactic(auto, unfolding(crate::specs::Rows::row_filled))]
fn row_filled(rows: &[u8], at: usize, chunks: usize) -> bool
    requires { (row_bytes chunks * 8 < 2 ^ 64) × (at + row_bytes chunks ≤ length rows.now) }
    ensures { result ≡ row_filled chunks rows.now at }
{
    set_bits(rows, at, chunks, row_bytes(chunks) * BYTE_BITS - chunks) == 0
}

// No filling bit of the n rows from `from` on is set.
pub fn rows_filled(rows: &[u8], from: usize, n: usize, chunks: usize) -> bool
    requires { (row_bytes chunks * 8 < 2 ^ 64) × (from + n * row_bytes chunks ≤ length rows.now) }
    ensures { result ≡ rows_filled chunks n rows.now from }
{
    let width = row_bytes(chunks);
    (0..n).all(|i| row_filled(rows, from + i * width, chunks))
}
