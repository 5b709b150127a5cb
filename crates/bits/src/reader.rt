// A reader of bits: bytes, and the bit position where it stands. It takes a field where it stands and moves past it.
// Proved: what is taken is the field that `specs/Bits.antt` reads. Assumed: nothing.
ghost use Rattle.std.specs.Prelude.{◌≡◌, ◌≤◌, ◌<◌, ◌^◌, ◌*◌, ◌-◌, IsNone, Option};
ghost use Rattle.bits.specs.Bits.{max_width, bit_count, read_field, taken};

use crate::{BYTE_BITS, field_at};

// It may stand anywhere, past the last bit too, over any bytes. That their bits can be counted is a clause where a
// field is taken: a type would ask it of whoever makes a reader.
#[derive(Drop)]
pub struct BitReader<'a> {
    pub bytes: &'a [u8],
    pub at: usize,
}

// A reader that stands at a bit position.
pub fn standing<'a>(bytes: &'a [u8], at: usize) -> BitReader<'a>
    ensures { (result.bytes ≡ bytes.entry) × (result.at ≡ at) }
{
    BitReader { bytes, at }
}

impl<'a> BitReader<'a> {
    // A reader that stands at the first bit.
    pub fn new(bytes: &'a [u8]) -> BitReader<'a>
        ensures { (result.bytes ≡ bytes.entry) × (result.at ≡ 0) }
    {
        BitReader { bytes, at: 0 }
    }

    fn bits(&self) -> usize
        requires { bit_count self.now.bytes.now < 2 ^ 64 }
        ensures { result ≡ bit_count self.now.bytes.now }
    {
        self.bytes.len() * BYTE_BITS
    }

    // How many bits are left. This and `take` are inlined for time: a verdict judges a sheet up to 65,536
    // times.
    #[inline]
    pub fn left(&self) -> usize
        requires { bit_count self.now.bytes.now < 2 ^ 64 }
        ensures { result ≡ bit_count self.now.bytes.now - self.now.at }
    {
        self.bits().saturating_sub(self.at)
    }

    // The field where the reader stands, if the bytes have it whole; the reader moves past it, and stays where it is if they haven't.
    #[inline]
    pub fn take(&mut self, width: usize) -> Option<usize>
        requires { (bit_count self.old.bytes.now < 2 ^ 64) × (width ≤ max_width) }
        ensures field { taken result self.new.at ≡ read_field width self.old.bytes.now self.old.at }
        ensures bytes { self.new.bytes ≡ self.old.bytes }
        ensures stays { IsNone result → self.new.at ≡ self.old.at }
    {
        if self.bits() < self.at {
            return None;
        }
        if self.left() < width {
            return None;
        }
        let value = field_at(self.bytes, self.at, width);
        self.at += width;
        Some(value)
    }
}
