// Opening, the judging call and the gate. Made by peer/src/bin/sample.rs.
use crate::fill::filled;
use crate::print::places;
use skaldrift::gate_calls::{skaldrift_gate, skaldrift_judge, skaldrift_open};
use std::io;

fn open(
    rt: &impl Print,
    mut state: [u64; 65],
    image: &[u8],
    log: [u8; 1024],
    sheet: &[u8],
) -> io::Result<()> {
    let answer = skaldrift_open(&mut state, image, &log, sheet);
    print!(rt; "open {answer}")?;
    places(rt, "state", &state)?;
    println!(rt)
}

fn open_0(rt: &impl Print) -> io::Result<()> {
    open(
        rt,
        filled(&[34]),
        &[1, 0, 0, 1, 1, 1, 0, 1, 0, 0, 0, 0, 0, 0, 1, 1, 1, 1],
        filled(&[]),
        &[20, 0, 20, 0, 20],
    )
}

fn open_6(rt: &impl Print) -> io::Result<()> {
    open(
        rt,
        filled(&[1]),
        &[],
        filled(&[]),
        &[28, 32, 0, 0, 0, 12, 0, 0, 0, 0],
    )
}

fn judge(
    rt: &impl Print,
    state: [u64; 65],
    image: &[u8],
    log: [u8; 1024],
    sheet: &[u8],
    work: &mut [u8],
    addr: u64,
    data: &[u8],
    mut report: u64,
) -> io::Result<()> {
    let answer = skaldrift_judge(&state, image, &log, sheet, work, addr, data, &mut report);
    print!(rt; "judge {answer}")?;
    places(rt, "work", work)?;
    print!(rt; " report {report}")?;
    println!(rt)
}

fn judge_0(rt: &impl Print) -> io::Result<()> {
    judge(
        rt,
        filled(&[]),
        &[0; 18],
        filled(&[]),
        &[24, 0],
        &mut [0, 1, 1, 1, 1, 0, 0, 1, 1, 1, 0, 0, 0, 1, 1, 0, 1, 0],
        14,
        &[1, 0, 0],
        16045481050594344959,
    )
}

fn judge_8(rt: &impl Print) -> io::Result<()> {
    judge(
        rt,
        filled(&[2, 1, 0, 1]),
        &[1],
        filled(&[]),
        &[16, 0, 0, 4, 4],
        &mut [49],
        0,
        &[0],
        16045481050594344959,
    )
}

fn gate(
    rt: &impl Print,
    mut state: [u64; 65],
    image: &[u8],
    mut log: [u8; 1024],
    sheet: &[u8],
    work: &mut [u8],
    addr: u64,
    data: &[u8],
    mut report: u64,
) -> io::Result<()> {
    let answer = skaldrift_gate(
        &mut state,
        image,
        &mut log,
        sheet,
        work,
        addr,
        data,
        &mut report,
    );
    print!(rt; "gate {answer}")?;
    places(rt, "state", &state)?;
    places(rt, "log", &log)?;
    places(rt, "work", work)?;
    print!(rt; " report {report}")?;
    println!(rt)
}

fn gate_0(rt: &impl Print) -> io::Result<()> {
    gate(
        rt,
        filled(&[4, 1, 1, 0, 0, 1, 1, 2]),
        &[158, 114],
        filled(&[1, 1]),
        &[20, 0, 0, 0, 0],
        &mut [0, 1],
        1,
        &[3],
        16045481050594344959,
    )
}

fn gate_8(rt: &impl Print) -> io::Result<()> {
    gate(
        rt,
        filled(&[1, 1, 1]),
        &[1, 0],
        filled(&[1]),
        &[16, 0, 0, 4, 12],
        &mut [1, 0],
        0,
        &[0],
        16045481050594344959,
    )
}

pub fn replay(rt: &impl Print) -> io::Result<()> {
    open_0(rt)?;
    open_6(rt)?;
    judge_0(rt)?;
    judge_8(rt)?;
    gate_0(rt)?;
    gate_8(rt)
}
