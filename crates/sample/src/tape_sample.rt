// Write, flush and cut by tape. Made by peer/src/bin/sample.rs.
use crate::fill::filled;
use crate::print::places;
use skaldrift::tape_calls::{skaldrift_tape_cut, skaldrift_tape_flush, skaldrift_tape_write};
use std::io;

fn tape_write(
    rt: &impl Print,
    mut state: [u64; 65],
    image: &[u8],
    mut log: [u8; 1024],
    tape: &[u8],
    start: u64,
    predicted: &mut [u8],
    addr: u64,
    data: &[u8],
) -> io::Result<()> {
    let answer = skaldrift_tape_write(
        &mut state, image, &mut log, tape, start, predicted, addr, data,
    );
    print!(rt; "tape_write {answer}")?;
    places(rt, "state", &state)?;
    places(rt, "log", &log)?;
    places(rt, "predicted", predicted)?;
    println!(rt)
}

fn tape_write_0(rt: &impl Print) -> io::Result<()> {
    tape_write(
        rt,
        filled(&[2, 0, 2, 2]),
        &[0, 0],
        filled(&[]),
        &[0, 0, 0, 0],
        0,
        &mut [3, 2],
        0,
        &[63, 250],
    )
}

fn tape_write_9(rt: &impl Print) -> io::Result<()> {
    tape_write(
        rt,
        filled(&[2]),
        &[0],
        filled(&[]),
        &[0, 0, 1, 1, 1, 1, 1, 0, 1, 0],
        0,
        &mut [0],
        0,
        &[],
    )
}

fn tape_flush(
    rt: &impl Print,
    mut state: [u64; 65],
    image: &mut [u8],
    log: [u8; 1024],
    tape: &[u8],
    mut start: u64,
    predicted: &mut [u8],
) -> io::Result<()> {
    let answer = skaldrift_tape_flush(&mut state, image, &log, tape, &mut start, predicted);
    print!(rt; "tape_flush {answer}")?;
    places(rt, "state", &state)?;
    places(rt, "image", image)?;
    print!(rt; " start {start}")?;
    places(rt, "predicted", predicted)?;
    println!(rt)
}

fn tape_flush_0(rt: &impl Print) -> io::Result<()> {
    tape_flush(
        rt,
        filled(&[3, 4, 3, 6, 1, 7]),
        &mut [189, 148, 251, 194, 103, 225, 167],
        filled(&[2, 0, 1]),
        &[128, 0, 0, 0, 0],
        0,
        &mut [0, 1, 0, 1, 0, 1, 0],
    )
}

fn tape_flush_11(rt: &impl Print) -> io::Result<()> {
    tape_flush(
        rt,
        filled(&[1, 1, 4]),
        &mut [0; 9],
        filled(&[]),
        &[0, 0],
        0,
        &mut [1, 0, 0, 0, 1, 1, 1, 1, 0],
    )
}

fn tape_cut(
    rt: &impl Print,
    mut state: [u64; 65],
    image: &mut [u8],
    log: [u8; 1024],
    tape: &[u8],
    mut start: u64,
    predicted: &mut [u8],
    mut report: u64,
) -> io::Result<()> {
    let answer = skaldrift_tape_cut(
        &mut state,
        image,
        &log,
        tape,
        &mut start,
        predicted,
        &mut report,
    );
    print!(rt; "tape_cut {answer}")?;
    places(rt, "state", &state)?;
    places(rt, "image", image)?;
    print!(rt; " start {start}")?;
    places(rt, "predicted", predicted)?;
    print!(rt; " report {report}")?;
    println!(rt)
}

fn tape_cut_0(rt: &impl Print) -> io::Result<()> {
    tape_cut(
        rt,
        filled(&[2, 1, 0, 0, 1]),
        &mut [0],
        filled(&[]),
        &[1, 0, 0, 128],
        1,
        &mut [1],
        16045481050594344959,
    )
}

fn tape_cut_11(rt: &impl Print) -> io::Result<()> {
    tape_cut(
        rt,
        filled(&[3, 15, 0, 4, 1, 15]),
        &mut [0; 15],
        filled(&[1]),
        &[0, 0, 0, 0, 0, 128, 128, 64, 0],
        5,
        &mut [0; 15],
        16045481050594344959,
    )
}

pub fn replay(rt: &impl Print) -> io::Result<()> {
    tape_write_0(rt)?;
    tape_write_9(rt)?;
    tape_flush_0(rt)?;
    tape_flush_11(rt)?;
    tape_cut_0(rt)?;
    tape_cut_11(rt)
}
