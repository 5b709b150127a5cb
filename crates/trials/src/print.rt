// What the trials print: an answer as document 01's number with what it reports, and bytes in hex.
use gate::Verdict;
use region::Refusal;
use region::numbers::answer_number;
use std::{fmt, io};

// An answer's number, and the count or the m that it reports where it reports one.
#[derive(Clone, Copy)]
pub struct Answer {
    number: u64,
    report: Option<usize>,
}

impl Answer {
    fn reporting(number: u64, value: usize) -> Answer {
        Answer {
            number,
            report: Some(value),
        }
    }

    fn refused(why: Refusal) -> Answer {
        Answer {
            number: why.into(),
            report: None,
        }
    }
}

impl From<Result<(), Refusal>> for Answer {
    fn from(answer: Result<(), Refusal>) -> Answer {
        Answer {
            number: answer_number(answer),
            report: None,
        }
    }
}

impl From<Result<usize, Refusal>> for Answer {
    fn from(kept: Result<usize, Refusal>) -> Answer {
        match kept {
            Ok(pieces) => Answer::reporting(0, pieces),
            Err(why) => Answer::refused(why),
        }
    }
}

impl From<Result<Verdict, Refusal>> for Answer {
    fn from(verdict: Result<Verdict, Refusal>) -> Answer {
        match verdict {
            Ok(Verdict::Admitted(n)) => Answer::reporting(0, n),
            Ok(Verdict::Denied(m)) => Answer::reporting(8, m),
            Err(why) => Answer::refused(why),
        }
    }
}

impl fmt::Display for Answer {
    fn fmt<W: fmt::Write>(&self, f: &mut fmt::Formatter<W>) -> fmt::Result {
        let number = self.number;
        write!(f, "{number}")?;
        match self.report {
            Some(value) => write!(f, " {value}"),
            None => Ok(()),
        }
    }
}

pub fn show(rt: &impl Print, answer: impl Into<Answer>) -> io::Result<()> {
    let answer: Answer = answer.into();
    print!(rt; " {answer}")
}

pub fn bytes(rt: &impl Print, s: &[u8]) -> io::Result<()> {
    for byte in s {
        print!(rt; " {byte:02x}")?;
    }
    Ok(())
}

// Bytes 6 to 9 of an image, which end the line.
pub fn seen(rt: &impl Print, image: &[u8; 16]) -> io::Result<()> {
    bytes(rt, &image[6..10])?;
    println!(rt)
}
