// The read, and the number of the same question.
ghost use Rattle.std.specs.Prelude.{◌≡◌, length};
ghost use Rattle.region.specs.Answer.{answer_number};
ghost use Rattle.desk.specs.Desk.{desk};
ghost use Rattle.writelog.specs.Read.{asked_number, read_number, Fills, HandsBack};

use desk::state::State;
use pieces::lay::copy;
use region::Refusal;
use region::viewer::within;
use walks::whole::replay_whole;

// The answer for an image, a log buffer and a working image of these lengths.
fn asked(
    state: &State,
    image: usize,
    log: usize,
    work: usize,
    addr: usize,
    len: usize,
) -> Result<(), Refusal>
    ensures { answer_number result ≡ asked_number image state.now log work addr len }
{
    state.checked(image, log)?;
    if work != image {
        return Err(Refusal::BadState);
    }
    if !within(addr, len, image) {
        return Err(Refusal::OutOfRange);
    }
    Ok(())
}

// The number of the question, which tells a refusal from a good ask for no bytes. Nothing is filled.
pub fn read_number(
    state: &State,
    image: &[u8],
    log: &[u8],
    work: &[u8],
    addr: usize,
    len: usize,
) -> Result<(), Refusal>
    ensures { answer_number result ≡ read_number (desk image.now state.now log.now) work.now addr len }
{
    asked(state, image.len(), log.len(), work.len(), addr, len)
}

// Fills the working image with the read image, and says every byte of it.
pub fn read_fill(
    state: &State,
    image: &[u8],
    log: &[u8],
    work: &mut [u8],
    addr: usize,
    len: usize,
) -> Result<(), Refusal>
    ensures { Fills (desk image.now state.now log.now) work.old addr len result work.new }
{
    asked(state, image.len(), log.len(), work.len(), addr, len)?;
    copy(work, image);
    replay_whole(state, log, work);
    Ok(())
}

// Fills the working image and hands back the asked part of it: the caller's own memory.
pub fn read<'a>(
    state: &State,
    image: &[u8],
    log: &[u8],
    work: &'a mut [u8],
    addr: usize,
    len: usize,
) -> &'a mut [u8]
    ensures { HandsBack (desk image.now state.now log.now) work.entry addr len result }
{
    let Ok(()) = read_fill(state, image, log, work, addr, len) else {
        return &mut work[..0];
    };
    let end = addr + len;
    &mut work[addr..end]
}
