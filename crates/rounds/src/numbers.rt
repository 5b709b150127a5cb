// Document 01's numbers for a run's answer, as code: what crosses to a program in another language.
ghost use Rattle.std.specs.Prelude.{◌≡◌};
ghost use Rattle.rounds.specs.Answer.{run_answer_number, run_error_number};

use crate::RunError;

impl From<RunError> for u64 {
    ghost from_gives = { λ error n. n ≡ run_error_number error };

    fn from(error: RunError) -> u64 {
        match error {
            RunError::Refused(why) => why.into(),
            RunError::Denied => 8,
        }
    }
}

// 0 where the run is done; its own function, since its numbers are its own definition.
pub fn run_answer_number(answer: Result<(), RunError>) -> u64
    ensures { result ≡ run_answer_number answer }
{
    match answer {
        Ok(()) => 0,
        Err(error) => error.into(),
    }
}
