// The example's rule sheet.
ghost use Rattle.std.specs.Prelude.{◌≡◌, ◌<◌, ◌^◌};
ghost use Rattle.sheet.specs.Sheet.{address_bits};
ghost use Rattle.rounds.specs.Valid.{app_sheet};

// "any of: byte addr is val0; byte addr is val1": edition 1, tag 11, two members, and for each tag 00,
// the address, low and high. The first address begins at bit 14, the second at bit 48.
pub fn app_sheet(addr: usize, val0: u8, val1: u8) -> [u8; 10]
    requires { addr < 2 ^ address_bits }
    ensures { result ≡ app_sheet addr val0 val1 }
{
    let top = val0 / 64;
    let rest = val0 % 64 * 4;
    [
        0x1C,
        0x20 + (addr / 16384) as u8,
        (addr / 64 % 256) as u8,
        (addr % 64 * 4) as u8 + top,
        rest + top,
        rest,
        (addr / 256) as u8,
        (addr % 256) as u8,
        val1,
        val1,
    ]
}
