// The viewer and the number of the same question, on two images of which one is too long.
use crate::print::{bytes, show};
use region::viewer::{Which, viewer, viewer_number};
use std::io;

fn asked(
    rt: &impl Print,
    first: &[u8],
    second: &[u8],
    which: Which,
    parts: &[(usize, usize)],
) -> io::Result<()> {
    for &(addr, len) in parts {
        show(rt, viewer_number(first, second, which, addr, len))?;
        bytes(rt, viewer(first, second, which, addr, len))?;
    }
    Ok(())
}

pub fn run(rt: &impl Print) -> io::Result<()> {
    let short = [0x11, 0x22, 0x33];
    let long = [0xEE; 4097];
    print!(rt; "viewer")?;
    asked(
        rt,
        &short,
        &long,
        Which::First,
        &[(1, 2), (3, 0), (2, 2), (usize::MAX, 2)],
    )?;
    asked(rt, &short, &long, Which::Second, &[(0, 1)])?;
    asked(rt, &long, &short, Which::Second, &[(0, 1)])?;
    println!(rt)
}
