// The viewer: the asked part of one of two lent images, and the number of the same question.
// Proved: the part's place, length and bytes for all inputs, and the number. Assumed: nothing.
ghost use Rattle.std.specs.Prelude.{◌≡◌, ◌+◌, leb, length};
ghost use Rattle.region.specs.Answer.{answer_number};
ghost use Rattle.region.specs.Viewer.{chosen, viewer_number, Viewed};

use crate::{IMAGE_LIMIT, Refusal};

// Which of the two lent images is asked: "first or second as asked".
#[derive(Clone, Copy)]
pub enum Which {
    First,
    Second,
}

// The asked image itself: the caller's slice, its place with it.
fn choose<'a>(first: &'a [u8], second: &'a [u8], which: Which) -> &'a [u8]
    ensures { result ≡ chosen which first.entry second.entry }
{
    match which {
        Which::First => first,
        Which::Second => second,
    }
}

// addr + len is at most size, in whole numbers. No sum is made, so none wraps. Address and length go
// together here and in every read, as two numbers, since so C asks with them.
pub fn within(addr: usize, len: usize, size: usize) -> bool
    ensures { result ≡ leb (addr + len) size }
{
    len <= size && addr <= size - len
}

// The answer for an image of l bytes: addr = 2^64-1 with len 2 is 2.
fn view_answer(l: usize, addr: usize, len: usize) -> Result<(), Refusal>
    ensures { answer_number result ≡ viewer_number l addr len }
{
    if IMAGE_LIMIT < l {
        return Err(Refusal::BadState);
    }
    if !within(addr, len, l) {
        return Err(Refusal::OutOfRange);
    }
    Ok(())
}

// The asked part, of the caller's own memory; on any refusal an empty part. The other image's
// length plays no role.
pub fn viewer<'a>(
    first: &'a [u8],
    second: &'a [u8],
    which: Which,
    addr: usize,
    len: usize,
) -> &'a [u8]
    ensures { Viewed (chosen which first.entry second.entry) addr len result }
{
    let image = choose(first, second, which);
    let Ok(()) = view_answer(image.len(), addr, len) else {
        return &image[..0];
    };
    let end = addr + len;
    &image[addr..end]
}

// The number of the same question. It tells a refusal from a good ask for no bytes.
pub fn viewer_number<'a>(
    first: &'a [u8],
    second: &'a [u8],
    which: Which,
    addr: usize,
    len: usize,
) -> Result<(), Refusal>
    ensures { answer_number result ≡ viewer_number (length (chosen which first.entry second.entry).now) addr len }
{
    let image = choose(first, second, which);
    view_answer(image.len(), addr, len)
}
