// What most trials start from: an empty log over 16 zeros, and document 01's two writes there.
use desk::state::State;
use gate::Verdict;
use gate::gate::gate;
use pieces::Write;
use region::{LOG_LIMIT, Refusal};
use writelog::write::write;

pub const A: Write = Write {
    addr: 6,
    bytes: &[0x11, 0x22, 0x33, 0x44],
};

pub const B: Write = Write {
    addr: 7,
    bytes: &[0xAA, 0xBB],
};

pub fn at(addr: usize, bytes: &[u8]) -> Write<'_> {
    Write { addr, bytes }
}

#[derive(Clone, Copy)]
pub struct Desk {
    pub state: State,
    pub image: [u8; 16],
    pub log: [u8; LOG_LIMIT],
}

impl Desk {
    pub fn opened() -> Desk {
        Desk {
            state: State::fresh(),
            image: [0; 16],
            log: [0; LOG_LIMIT],
        }
    }

    pub fn write(&mut self, w: Write) -> Result<(), Refusal> {
        write(&mut self.state, &self.image, &mut self.log, w)
    }

    pub fn gate(&mut self, sheet: &[u8], work: &mut [u8], w: Write) -> Result<Verdict, Refusal> {
        gate(&mut self.state, &self.image, &mut self.log, sheet, work, w)
    }
}
