// The calls by tape.
use crate::print::{seen, show};
use crate::small::{A, B, Desk, at};
use epochs::epoch::Tape;
use pieces::Write;
use region::{LOG_LIMIT, Refusal};
use std::io;
use tape::tape_cut::tape_cut;
use tape::tape_flush::tape_flush;
use tape::tape_write::tape_write;

// A desk with a tape, and what the tape predicts of its image.
#[derive(Clone, Copy)]
struct Taped<'a> {
    desk: Desk,
    tape: Tape<'a>,
    predicted: [u8; 16],
}

impl<'a> Taped<'a> {
    fn new(bytes: &'a [u8], start: usize) -> Taped<'a> {
        Taped {
            desk: Desk::opened(),
            tape: Tape { bytes, start },
            predicted: [0xEE; 16],
        }
    }

    fn write(&mut self, write: Write) -> Result<(), Refusal> {
        let Desk { state, image, log } = &mut self.desk;
        tape_write(state, image, log, self.tape, &mut self.predicted, write)
    }

    fn flush(&mut self) -> Result<(), Refusal> {
        let Desk { state, image, log } = &mut self.desk;
        tape_flush(state, image, log, &mut self.tape, &mut self.predicted)
    }

    fn cut(&mut self) -> Result<usize, Refusal> {
        let Desk { state, image, log } = &mut self.desk;
        tape_cut(state, image, log, &mut self.tape, &mut self.predicted)
    }

    // Where the tape stands after a call, and the image.
    fn left(&self, rt: &impl Print) -> io::Result<()> {
        let start = self.tape.start;
        print!(rt; " start {start}")?;
        seen(rt, &self.desk.image)
    }
}

// A and B by tape, then a flush, a cut and one write more over zeros, whatever the tape foretells. The
// last finds no epoch more.
fn epoch_trial(rt: &impl Print, tape: &[u8]) -> io::Result<()> {
    let mut taped = Taped::new(tape, 0);
    for write in [A, B] {
        print!(rt; "tape write")?;
        show(rt, taped.write(write))?;
        seen(rt, &taped.predicted)?;
    }
    print!(rt; "tape flush")?;
    show(rt, taped.flush())?;
    taped.left(rt)?;
    print!(rt; "tape cut")?;
    show(rt, taped.cut())?;
    taped.left(rt)?;
    print!(rt; "tape write")?;
    let mut last = Taped {
        desk: Desk {
            state: taped.desk.state,
            image: [0; 16],
            log: [0; LOG_LIMIT],
        },
        tape: taped.tape,
        predicted: [0; 16],
    };
    show(rt, last.write(at(0, &[1])))?;
    println!(rt)
}

// A tape cut under 80 is not what was foretold.
fn cut_under_flush_trial(rt: &impl Print) -> io::Result<()> {
    print!(rt; "cut under 80")?;
    show(rt, Taped::new(&[0x80, 0x80, 0x40], 0).cut())?;
    println!(rt)
}

// A start at the tape's end, past it, and at the last number there is.
fn start_trial(rt: &impl Print, start: usize) -> io::Result<()> {
    print!(rt; "start")?;
    let mut taped = Taped::new(&[0x80], start);
    taped.predicted = [0; 16];
    show(rt, taped.flush())?;
    println!(rt)
}

pub fn run(rt: &impl Print) -> io::Result<()> {
    epoch_trial(rt, &[0x00, 0x80, 0x40])?;
    epoch_trial(rt, &[0x80, 0x80, 0x40])?;
    cut_under_flush_trial(rt)?;
    start_trial(rt, 0)?;
    start_trial(rt, 1)?;
    start_trial(rt, usize::MAX)
}
