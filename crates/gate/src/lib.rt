// Opening, the judging call and the gate, each total on any bytes and proved to answer and leave
// behind exactly what specs/ says (document 01). `proofs/Meaning.antt` says what the gate's answer
// means. Nothing is assumed.

#![tactic(auto)]

// What the judging call and the gate say of a write: n of one that they admit, the least bad m of one
// that they deny. `specs/Judgement.antt` gives each its number.
#[derive(Clone, Copy)]
pub enum Verdict {
    Admitted(usize),
    Denied(usize),
}

pub mod gate;
pub mod judge;
pub mod open;
