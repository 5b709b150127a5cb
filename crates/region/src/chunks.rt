// Chunks: `persistence_chunk_size` of pmemspec_t.rs and `size_to_chunks_exec` of
// pmem_async_equiv_v.rs. Proved: both give their definitions' numbers for every input, and no sum
// wraps. Assumed: nothing.
ghost use Rattle.std.specs.Prelude.{◌≡◌};
ghost use Rattle.region.specs.Limits.{const_persistence_chunk_size};
ghost use Rattle.region.specs.Pmemspec.{size_to_chunks};

use crate::CHUNK_SIZE;

// `const_persistence_chunk_size`, as the specs have it.
pub fn persistence_chunk_size() -> usize
    ensures { result ≡ const_persistence_chunk_size }
{
    CHUNK_SIZE
}

// Document 01's K. The sum sz + 7 would wrap for the last seven sizes; the rounded quotient makes none.
pub fn size_to_chunks(sz: usize) -> usize
    ensures { result ≡ size_to_chunks const_persistence_chunk_size sz }
{
    sz.div_ceil(CHUNK_SIZE)
}
