// The example application. Made by peer/src/bin/sample.rs.
use crate::fill::filled;
use crate::print::places;
use skaldrift::example_calls::{skaldrift_run, skaldrift_setup};
use std::io;

fn setup(rt: &impl Print, image: &mut [u8], addr: u64, val0: u8) -> io::Result<()> {
    let answer = skaldrift_setup(image, addr, val0);
    print!(rt; "setup {answer}")?;
    places(rt, "image", image)?;
    println!(rt)
}

fn setup_0(rt: &impl Print) -> io::Result<()> {
    setup(rt, &mut [243, 107, 111, 95, 180, 69, 79], 6, 2)
}

fn setup_2(rt: &impl Print) -> io::Result<()> {
    setup(rt, &mut [0, 0], 18446744073709551614, 175)
}

fn run(
    rt: &impl Print,
    image: &mut [u8],
    mut log: [u8; 1024],
    work: &mut [u8],
    addr: u64,
    val0: u8,
    val1: u8,
    rounds: u64,
) -> io::Result<()> {
    let answer = skaldrift_run(image, &mut log, work, addr, val0, val1, rounds);
    print!(rt; "run {answer}")?;
    places(rt, "image", image)?;
    places(rt, "log", &log)?;
    places(rt, "work", work)?;
    println!(rt)
}

fn run_0(rt: &impl Print) -> io::Result<()> {
    run(
        rt,
        &mut [1, 1, 1, 0, 1, 1, 122],
        filled(&[]),
        &mut [0, 1, 0, 1, 1, 1, 1],
        6,
        122,
        50,
        2,
    )
}

fn run_6(rt: &impl Print) -> io::Result<()> {
    run(
        rt,
        &mut [235, 103, 143, 228, 71, 176, 89, 14, 151],
        filled(&[]),
        &mut [3, 0, 0, 3, 3, 2, 1, 0, 2],
        3,
        24,
        162,
        1,
    )
}

pub fn replay(rt: &impl Print) -> io::Result<()> {
    setup_0(rt)?;
    setup_2(rt)?;
    run_0(rt)?;
    run_6(rt)
}
