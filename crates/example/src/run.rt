// `run` of `ExampleApp`. The source runs for ever; here the rounds are counted.
ghost use Rattle.std.specs.Prelude.{◌≡◌};
ghost use Rattle.region.specs.Answer.{answer_number};
ghost use Rattle.desk.specs.Desk.{desk};
ghost use Rattle.rounds.specs.Steps.{Under};
ghost use Rattle.example.specs.Run.{fits_number, Runs, Repeats};

use crate::ROUNDS_LIMIT;
use desk::state::State;
use gate::open::open;
use region::{IMAGE_LIMIT, LOG_LIMIT, Refusal};
use rounds::RunError;
use rounds::app_sheet::app_sheet;
use rounds::round::pair;

// What is asked before the image is judged: document 01's 1, 2 and 12.
fn fits(image: usize, log: usize, work: usize, addr: usize, rounds: u64) -> Result<(), Refusal>
    ensures { answer_number result ≡ fits_number image log work addr rounds }
{
    if IMAGE_LIMIT < image || log != LOG_LIMIT || work != image {
        return Err(Refusal::BadState);
    }
    if image <= addr {
        return Err(Refusal::OutOfRange);
    }
    if ROUNDS_LIMIT < rounds {
        return Err(Refusal::TooManyRounds);
    }
    Ok(())
}

// The rounds: val0, val1, and back. Stops at the first refusal; none comes.
fn repeat(
    state: &mut State,
    image: &mut [u8],
    log: &mut [u8],
    sheet: &[u8],
    work: &mut [u8],
    addr: usize,
    val0: u8,
    val1: u8,
    rounds: u64,
) -> Result<(), RunError>
    requires { Under (desk image.old state.old log.old) sheet.now work.old addr val0 val1 }
    ensures { Repeats image.old log.old work.old addr val0 val1 rounds
        result image.new log.new work.new }
{
    for _ in 0..rounds {
        pair(state, image, log, sheet, work, addr, val0, val1)?;
        pair(state, image, log, sheet, work, addr, val1, val0)?;
    }
    Ok(())
}

// Opens the image under the example's sheet, and goes the rounds. The address and its two values stay
// apart, as in C's call.
pub fn run(
    image: &mut [u8],
    log: &mut [u8],
    work: &mut [u8],
    addr: usize,
    val0: u8,
    val1: u8,
    rounds: u64,
) -> Result<(), RunError>
    ensures { Runs image.old log.old work.old addr val0 val1 rounds result
        image.new log.new work.new }
{
    fits(image.len(), log.len(), work.len(), addr, rounds)?;
    let sheet = app_sheet(addr, val0, val1);
    let mut state = State::fresh();
    open(&mut state, image, log, &sheet)?;
    repeat(
        &mut state, image, log, &sheet, work, addr, val0, val1, rounds,
    )
}
