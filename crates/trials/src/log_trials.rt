// Plain write, read, flush and cut.
use crate::print::{bytes, seen, show};
use crate::small::{A, B, Desk, at};
use desk::state::State;
use pieces::Write;
use records::Record;
use region::{LOG_LIMIT, WRITES_LIMIT};
use std::io;
use writelog::cut::cut;
use writelog::flush::flush;
use writelog::read::{read, read_number};
use writelog::write::write;

// A desk with both writes outstanding. That both are done shows in what is read or cut of it.
fn two_writes() -> Desk {
    let mut desk = Desk::opened();
    for w in [A, B] {
        let _ = desk.write(w);
    }
    desk
}

fn read_trial(rt: &impl Print) -> io::Result<()> {
    let desk = two_writes();
    let mut work = [0xEE; 16];
    print!(rt; "read")?;
    show(
        rt,
        read_number(&desk.state, &desk.image, &desk.log, &work, 6, 4),
    )?;
    let part = read(&desk.state, &desk.image, &desk.log, &mut work, 6, 4);
    bytes(rt, part)?;
    println!(rt)
}

fn flush_trial(rt: &impl Print) -> io::Result<()> {
    let mut desk = two_writes();
    print!(rt; "flush")?;
    show(rt, flush(&mut desk.state, &mut desk.image, &desk.log))?;
    seen(rt, &desk.image)
}

fn cut_trial(rt: &impl Print, rows: &[u8]) -> io::Result<()> {
    let mut desk = two_writes();
    print!(rt; "cut")?;
    bytes(rt, rows)?;
    print!(rt; " :")?;
    show(rt, cut(&mut desk.state, &mut desk.image, &desk.log, rows))?;
    seen(rt, &desk.image)
}

// One write after the other.
fn in_turn(rt: &impl Print, state: State, image: &[u8], writes: &[Write]) -> io::Result<()> {
    let (mut state, mut log) = (state, [0; LOG_LIMIT]);
    for w in writes {
        show(rt, write(&mut state, image, &mut log, *w))?;
    }
    println!(rt)
}

// Each write alone.
fn alone(rt: &impl Print, image: &[u8], writes: &[Write]) -> io::Result<()> {
    for w in writes {
        let (mut state, mut log) = (State::fresh(), [0; LOG_LIMIT]);
        show(rt, write(&mut state, image, &mut log, *w))?;
    }
    println!(rt)
}

// L = 4096 at its ends, and an address whose sum would wrap.
fn ends_trial(rt: &impl Print) -> io::Result<()> {
    print!(rt; "ends of 4096")?;
    alone(
        rt,
        &[0; 4096],
        &[
            at(4096, &[]),
            at(4097, &[]),
            at(4095, &[1]),
            at(4096, &[1]),
            at(usize::MAX, &[1, 2]),
        ],
    )?;
    print!(rt; "image of 4097")?;
    alone(rt, &[0; 4097], &[at(0, &[1])])?;
    print!(rt; "image of 0")?;
    alone(rt, &[], &[at(0, &[]), at(1, &[]), at(0, &[1])])
}

// With 31 empty writes outstanding there is room for one more, and then for none.
fn thirty_three_trial(rt: &impl Print) -> io::Result<()> {
    let state = State {
        count: 31,
        records: [Record { addr: 16, len: 0 }; WRITES_LIMIT],
    };
    print!(rt; "33rd write")?;
    in_turn(rt, state, &[0; 16], &[at(16, &[]), at(16, &[])])
}

// 1024 bytes fill the log; one byte more is refused, and an empty write is not.
fn bytes_trial(rt: &impl Print) -> io::Result<()> {
    print!(rt; "byte 1025")?;
    in_turn(
        rt,
        State::fresh(),
        &[0; 4096],
        &[at(0, &[7; LOG_LIMIT]), at(0, &[1]), at(0, &[])],
    )
}

// An empty write uses a record and a row, which shows in the cut's answer.
fn empty_write_trial(rt: &impl Print, rows: &[u8]) -> io::Result<()> {
    let mut desk = Desk::opened();
    let _ = desk.write(at(5, &[]));
    print!(rt; "empty write, rows")?;
    bytes(rt, rows)?;
    print!(rt; " :")?;
    show(rt, cut(&mut desk.state, &mut desk.image, &desk.log, rows))?;
    println!(rt)
}

pub fn run(rt: &impl Print) -> io::Result<()> {
    read_trial(rt)?;
    flush_trial(rt)?;
    cut_trial(rt, &[0x80, 0x40])?;
    cut_trial(rt, &[0x40, 0x80])?;
    cut_trial(rt, &[0xC0, 0x00])?;
    cut_trial(rt, &[0xC0, 0xC0])?;
    cut_trial(rt, &[0x00, 0x00])?;
    cut_trial(rt, &[0xA0, 0x40])?;
    cut_trial(rt, &[0x80])?;
    cut_trial(rt, &[0x80, 0x40, 0x00])?;
    ends_trial(rt)?;
    thirty_three_trial(rt)?;
    bytes_trial(rt)?;
    empty_write_trial(rt, &[])?;
    empty_write_trial(rt, &[0xC0])
}
