// The example application.
ghost use Rattle.boundary.specs.Example.{SkaldriftSetup, SkaldriftRun};

use example::run::run;
use example::setup::setup;
use region::numbers::answer_number;
use rounds::numbers::run_answer_number;

// Makes the byte at `addr` val0, and leaves every other byte.
pub fn skaldrift_setup(image: &mut [u8], addr: u64, val0: u8) -> u64
    ensures { SkaldriftSetup image.old addr val0 result image.new }
{
    let answer = setup(image, addr as usize, val0);
    answer_number(answer)
}

// Opens the image under the example's sheet, and goes the rounds.
pub fn skaldrift_run(
    image: &mut [u8],
    log: &mut [u8],
    work: &mut [u8],
    addr: u64,
    val0: u8,
    val1: u8,
    rounds: u64,
) -> u64
    ensures { SkaldriftRun image.old log.old work.old addr val0 val1 rounds
        result image.new log.new work.new }
{
    let answer = run(image, log, work, addr as usize, val0, val1, rounds);
    run_answer_number(answer)
}
