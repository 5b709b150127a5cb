// Sheets, opening, the judging call and the gate.
use crate::long_sheets::{LONGEST, WIDEST};
use crate::print::{seen, show};
use crate::small::{Desk, at};
use desk::state::State;
use gate::gate::gate;
use gate::judge::judge;
use gate::open::open;
use pieces::Write;
use region::LOG_LIMIT;
use std::io;

const ALWAYS: &[u8] = &[0x18, 0x00];

const NEVER: &[u8] = &[0x1C, 0x00];

const SEVEN_IS_EIGHT: &[u8] = &[0x14, 0x00, 0x1C, 0x00, 0x20];

const EIGHT_IS_NINE: &[u8] = &[0x14, 0x00, 0x20, 0x00, 0x24];

const THREE_IS_11_OR_22: &[u8] = &[0x1C, 0x20, 0x00, 0x0C, 0x44, 0x44, 0x00, 0x03, 0x22, 0x22];

const NOUGHT_OR_EIGHT_IS_0: &[u8] = &[0x1C, 0x20, 0x00, 0x00, 0x00, 0x00, 0x00, 0x08, 0x00, 0x00];

// Byte 4095 is 0 or 7.
const LAST_IS_0_OR_7: &[u8] = &[0x1C, 0x20, 0x3F, 0xFC, 0x00, 0x00, 0x0F, 0xFF, 0x07, 0x07];

// A filling bit is set.
const FILLED: &[u8] = &[0x18, 0x01];

// What opening an image answers for each sheet.
fn openings(rt: &impl Print, image: &[u8], sheets: &[&[u8]]) -> io::Result<()> {
    let log = [0; LOG_LIMIT];
    for sheet in sheets {
        show(rt, open(&mut State::fresh(), image, &log, sheet))?;
    }
    Ok(())
}

// Document 01's four sheets, each on an image that obeys it and on one that does not.
fn sheets_trial(rt: &impl Print) -> io::Result<()> {
    let zeros = [0; 16];
    let mut other = [0; 16];
    other[7] = 0xAA;
    print!(rt; "sheets")?;
    openings(rt, &zeros, &[ALWAYS, NEVER, SEVEN_IS_EIGHT])?;
    openings(rt, &other, &[SEVEN_IS_EIGHT])?;
    openings(rt, &zeros, &[THREE_IS_11_OR_22])?;
    other[3] = 0x22;
    openings(rt, &other, &[THREE_IS_11_OR_22])?;
    println!(rt)
}

// No sheet, a set filling bit, another edition, one cut short, and eight and nine levels.
fn malformed_trial(rt: &impl Print) -> io::Result<()> {
    let image = [0; 16];
    print!(rt; "malformed")?;
    openings(rt, &image, &[&[], FILLED, &[0x28, 0x00], &[0x18, 0x40]])?;
    println!(rt)?;
    print!(rt; "levels 8 9, empty group at 8 9")?;
    openings(
        rt,
        &image,
        &[
            &[
                0x18, 0x18, 0x18, 0x18, 0x18, 0x18, 0x18, 0x10, 0x00, 0x00, 0x03, 0xFC,
            ],
            &[
                0x18, 0x18, 0x18, 0x18, 0x18, 0x18, 0x18, 0x18, 0x10, 0x00, 0x00, 0x03, 0xFC,
            ],
            &[0x18, 0x18, 0x18, 0x18, 0x18, 0x18, 0x18, 0x18, 0x00],
            &[0x18, 0x18, 0x18, 0x18, 0x18, 0x18, 0x18, 0x18, 0x18, 0x00],
        ],
    )?;
    println!(rt)
}

// A group of 63 members, a sheet of 512 bytes, and one byte more.
fn long_sheets_trial(rt: &impl Print) -> io::Result<()> {
    let image = [0; 4096];
    let mut longer = [0; 513];
    longer[0] = 0x18;
    print!(rt; "63 members, 512 bytes, 513 bytes")?;
    openings(rt, &image, &[&WIDEST, &LONGEST, &longer])?;
    println!(rt)?;
    print!(rt; "63 members on 62 bytes, no image, image of 4097")?;
    openings(rt, &image[..62], &[&WIDEST])?;
    openings(rt, &[], &[ALWAYS])?;
    openings(rt, &[0; 4097], &[ALWAYS])?;
    println!(rt)
}

// What the judging call and the gate say of one write over 16 zeros; they must say the same.
fn gate_trial(rt: &impl Print, sheet: &[u8], write: Write) -> io::Result<()> {
    let mut desk = Desk::opened();
    let mut work = [0xEE; 16];
    let judged = judge(&desk.state, &desk.image, &desk.log, sheet, &mut work, write);
    print!(rt; "judge")?;
    show(rt, judged)?;
    seen(rt, &work)?;
    let mut work = [0xEE; 16];
    print!(rt; "gate")?;
    show(rt, desk.gate(sheet, &mut work, write))?;
    let count = desk.state.count;
    print!(rt; " count {count}")?;
    seen(rt, &work)
}

// Each of two writes is good by itself; once one is recorded the other is not.
fn spent_verdict_trial(rt: &impl Print) -> io::Result<()> {
    let mut desk = Desk::opened();
    print!(rt; "one of two")?;
    for addr in [0, 8] {
        let mut work = [0; 16];
        show(
            rt,
            desk.gate(NOUGHT_OR_EIGHT_IS_0, &mut work, at(addr, &[1])),
        )?;
    }
    let count = desk.state.count;
    println!(rt; " {count}")
}

// 128 bytes at 0 have 16 points, at 1 they have 17.
fn points_trial(rt: &impl Print, addr: usize) -> io::Result<()> {
    let (state, log) = (State::fresh(), [0; LOG_LIMIT]);
    let (image, mut work) = ([0; 136], [0; 136]);
    let write = at(addr, &[7; 128]);
    print!(rt; "128 bytes")?;
    show(rt, judge(&state, &image, &log, ALWAYS, &mut work, write))?;
    println!(rt)
}

// Each write by the gate, alone.
fn gated(
    rt: &impl Print,
    image: &[u8],
    work: &mut [u8],
    sheet: &[u8],
    writes: &[Write],
) -> io::Result<()> {
    for write in writes {
        let (mut state, mut log) = (State::fresh(), [0; LOG_LIMIT]);
        show(rt, gate(&mut state, image, &mut log, sheet, work, *write))?;
    }
    Ok(())
}

// Images of no byte and of 4096, with a sheet that always holds and one that speaks of the last byte.
fn ends_trial(rt: &impl Print) -> io::Result<()> {
    print!(rt; "gate over 0 bytes")?;
    gated(rt, &[], &mut [], ALWAYS, &[at(0, &[]), at(1, &[])])?;
    gated(rt, &[], &mut [], LAST_IS_0_OR_7, &[at(0, &[])])?;
    print!(rt; ", over 4096")?;
    gated(
        rt,
        &[0; 4096],
        &mut [0; 4096],
        LAST_IS_0_OR_7,
        &[
            at(4095, &[7]),
            at(4095, &[8]),
            at(4096, &[]),
            at(4096, &[7]),
        ],
    )?;
    println!(rt)
}

pub fn run(rt: &impl Print) -> io::Result<()> {
    sheets_trial(rt)?;
    malformed_trial(rt)?;
    long_sheets_trial(rt)?;
    gate_trial(rt, SEVEN_IS_EIGHT, at(7, &[0xAA, 0xAA]))?;
    gate_trial(rt, EIGHT_IS_NINE, at(8, &[0xAA, 0xAA]))?;
    gate_trial(rt, ALWAYS, at(15, &[1, 2]))?;
    gate_trial(rt, FILLED, at(15, &[1, 2]))?;
    spent_verdict_trial(rt)?;
    points_trial(rt, 0)?;
    points_trial(rt, 1)?;
    ends_trial(rt)
}
