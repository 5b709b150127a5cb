// Plain write, read, flush and cut. Made by peer/src/bin/sample.rs.
use crate::fill::filled;
use crate::print::places;
use skaldrift::log_calls::{skaldrift_cut, skaldrift_flush, skaldrift_read, skaldrift_write};
use std::io;

fn write(
    rt: &impl Print,
    mut state: [u64; 65],
    image: &[u8],
    mut log: [u8; 1024],
    addr: u64,
    data: &[u8],
) -> io::Result<()> {
    let answer = skaldrift_write(&mut state, image, &mut log, addr, data);
    print!(rt; "write {answer}")?;
    places(rt, "state", &state)?;
    places(rt, "log", &log)?;
    println!(rt)
}

fn write_0(rt: &impl Print) -> io::Result<()> {
    write(rt, filled(&[]), &[67, 175], filled(&[]), 0, &[3, 1])
}

fn write_4(rt: &impl Print) -> io::Result<()> {
    write(
        rt,
        filled(&[
            10, 93, 103, 87, 103, 8, 103, 72, 103, 15, 103, 25, 103, 86, 103, 37, 104, 6, 103, 58,
            96,
        ]),
        &[0; 196],
        filled(&[
            192, 21, 74, 51, 98, 65, 194, 198, 28, 128, 118, 77, 45, 223, 31, 31,
        ]),
        6,
        &[0, 3],
    )
}

fn read(
    rt: &impl Print,
    state: [u64; 65],
    image: &[u8],
    log: [u8; 1024],
    work: &mut [u8],
    addr: u64,
    len: u64,
) -> io::Result<()> {
    let answer = skaldrift_read(&state, image, &log, work, addr, len);
    print!(rt; "read {answer}")?;
    places(rt, "work", work)?;
    println!(rt)
}

fn read_0(rt: &impl Print) -> io::Result<()> {
    read(
        rt,
        filled(&[2, 7, 1, 8]),
        &[0, 0, 1, 0, 0, 0, 0, 0],
        filled(&[]),
        &mut [0, 1, 0, 1, 1, 0, 0, 1],
        7,
        1,
    )
}

fn read_2(rt: &impl Print) -> io::Result<()> {
    read(
        rt,
        filled(&[1, 6]),
        &[0, 1, 1, 1, 0, 0, 0, 1],
        filled(&[]),
        &mut [0, 0, 0, 0, 0, 0, 0, 0],
        18446744073709551615,
        0,
    )
}

fn flush(rt: &impl Print, mut state: [u64; 65], image: &mut [u8], log: &[u8]) -> io::Result<()> {
    let answer = skaldrift_flush(&mut state, image, log);
    print!(rt; "flush {answer}")?;
    places(rt, "state", &state)?;
    places(rt, "image", image)?;
    println!(rt)
}

fn flush_0(rt: &impl Print) -> io::Result<()> {
    flush(rt, filled(&[]), &mut [0, 0, 0, 0, 0, 0, 0, 0], &[0; 1024])
}

fn flush_1(rt: &impl Print) -> io::Result<()> {
    flush(
        rt,
        filled(&[3, 11, 3, 8, 4, 4, 3]),
        &mut [
            247, 95, 113, 30, 129, 91, 19, 129, 235, 182, 106, 185, 58, 196, 134, 65,
        ],
        &[],
    )
}

fn cut(
    rt: &impl Print,
    mut state: [u64; 65],
    image: &mut [u8],
    log: [u8; 1024],
    rows: &[u8],
    mut report: u64,
) -> io::Result<()> {
    let answer = skaldrift_cut(&mut state, image, &log, rows, &mut report);
    print!(rt; "cut {answer}")?;
    places(rt, "state", &state)?;
    places(rt, "image", image)?;
    print!(rt; " report {report}")?;
    println!(rt)
}

fn cut_0(rt: &impl Print) -> io::Result<()> {
    cut(
        rt,
        filled(&[3, 15, 3, 24, 2, 55, 4]),
        &mut [0; 63],
        filled(&[0, 0, 1, 155, 219, 1, 0, 2]),
        &[0, 27, 26],
        16045481050594344959,
    )
}

fn cut_9(rt: &impl Print) -> io::Result<()> {
    cut(
        rt,
        filled(&[1]),
        &mut [0, 3, 2, 2, 1, 3, 3],
        filled(&[]),
        &[],
        16747018134532354844,
    )
}

pub fn replay(rt: &impl Print) -> io::Result<()> {
    write_0(rt)?;
    write_4(rt)?;
    read_0(rt)?;
    read_2(rt)?;
    flush_0(rt)?;
    flush_1(rt)?;
    cut_0(rt)?;
    cut_9(rt)
}
