// What a round of the example application of power_sound_t.rs is made of: its sheet, and a pair of
// writes through the gate under it, flushed. Proved: what each leaves, and that no call refuses. Assumed:
// nothing.

#![tactic(auto)]

ghost use Rattle.std.specs.Prelude.{◌≡◌};
ghost use Rattle.rounds.specs.declared.RunError.TheVariants as run_error;

use region::Refusal;

// Why a run stopped early: a refusal, or a write that the gate denied, which has a number of its own.
// `specs/Answer.antt` gives each its number.
#[derive(Clone, Copy)]
pub enum RunError {
    Refused(Refusal),
    Denied,
}

impl From<Refusal> for RunError {
    ghost from_gives = { λ why error. error ≡ run_error.Refused why };

    fn from(why: Refusal) -> RunError {
        RunError::Refused(why)
    }
}

pub mod app_sheet;
pub mod numbers;
pub mod round;
