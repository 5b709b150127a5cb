// The example application.
ghost use Rattle.boundary.specs.Example.{SkaldriftSetup, SkaldriftRun};

use skaldrift::example_calls;

// Makes the byte at `addr` val0, and leaves every other byte.
#[unsafe(no_mangle)]
pub extern "C" fn skaldrift_setup(image: &mut [u8], addr: u64, val0: u8) -> u64
    ensures { SkaldriftSetup image.old addr val0 result image.new }
{
    example_calls::skaldrift_setup(image, addr, val0)
}

// Opens the image under the example's sheet, and goes the rounds.
#[unsafe(no_mangle)]
pub extern "C" fn skaldrift_run(
    image: &mut [u8],
    log: &mut [u8],
    work: &mut [u8],
    addr: u64,
    val0: u8,
    val1: u8,
    rounds: u64,
) -> u64
    ensures { SkaldriftRun image.old log.old work.old addr val0 val1 rounds
        result image.new log.new work.new }
{
    example_calls::skaldrift_run(image, log, work, addr, val0, val1, rounds)
}
