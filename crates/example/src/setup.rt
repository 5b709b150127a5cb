// `setup` of `ExampleApp`. The source loops for ever where the address lies outside; here that is 2.
ghost use Rattle.example.specs.Setup.{SetsUp};

use region::{IMAGE_LIMIT, Refusal};

// Makes the byte at `addr` val0, and leaves every other byte.
pub fn setup(image: &mut [u8], addr: usize, val0: u8) -> Result<(), Refusal>
    ensures { SetsUp image.old addr val0 result image.new }
{
    if IMAGE_LIMIT < image.len() {
        return Err(Refusal::BadState);
    }
    if image.len() <= addr {
        return Err(Refusal::OutOfRange);
    }
    image[addr] = val0;
    Ok(())
}
