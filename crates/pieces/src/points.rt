// The choice points of a write.
ghost use Rattle.std.specs.Prelude.{◌≡◌, ◌+◌, ◌^◌, ◌<◌};
ghost use Rattle.region.specs.Limits.{const_persistence_chunk_size};
ghost use Rattle.pieces.specs.Choice.{touched};

use region::CHUNK_SIZE;

// How many chunks a write of `len` bytes at `addr` touches, one choice point each.
pub fn touched(addr: usize, len: usize) -> usize
    requires { addr + len < 2 ^ 64 }
    ensures { result ≡ touched const_persistence_chunk_size addr len }
{
    if len == 0 {
        return 0;
    }
    (addr + len - 1) / CHUNK_SIZE - addr / CHUNK_SIZE + 1
}
