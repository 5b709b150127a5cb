// The bits of bytes, most significant first. Proved: what is read is the field that `specs/Bits.antt` defines, and a field that would
// run past the end is told apart. The bytes may be any whose bits can be counted in a usize. Assumed: nothing.

#![tactic(auto)]

pub mod reader;

ghost use Rattle.std.specs.Prelude.{◌≡◌, ◌≤◌, ◌<◌, get_or};
ghost use Rattle.bits.specs.Bits.{max_width, field};

pub const BYTE_BITS: usize = 8;

const BYTE_VALUES: usize = 256;

const WINDOW_BITS: usize = 3 * BYTE_BITS;

// A byte, and 0 past the end.
fn byte_at(bytes: &[u8], i: usize) -> usize
    ensures { (result ≡ get_or bytes.now i 0) × (result < 256) }
{
    bytes.get(i).map_or(0, |&byte| byte as usize)
}

// A field of at most 16 bits lies in three bytes, wherever it starts. Bits past the end are 0.
pub fn field_at(bytes: &[u8], at: usize, width: usize) -> usize
    requires { width ≤ max_width }
    ensures { result ≡ field bytes.now at width }
{
    let i = at / BYTE_BITS;
    let window = (byte_at(bytes, i) * BYTE_VALUES + byte_at(bytes, i + 1)) * BYTE_VALUES
        + byte_at(bytes, i + 2);
    (window >> (WINDOW_BITS - at % BYTE_BITS - width)) % (1 << width)
}
