// Answers that report a number, as they cross to C: document 01's number returned, and n, m or kept
// written to `report` only where document 01 reports one.
ghost use Rattle.std.specs.Prelude.{◌≡◌};
ghost use Rattle.region.specs.Answer.{counted_report};
ghost use Rattle.gate.specs.Judgement.{verdict_report};
ghost use Rattle.boundary.specs.Words.{reported};

use gate::Verdict;
use region::Refusal;

// A verdict's number; its n or m goes to `report`.
pub fn verdict_number(verdict: Result<Verdict, Refusal>, report: &mut u64) -> u64
    ensures { (result ≡ (verdict_report verdict).number) × (report.new ≡ reported (verdict_report verdict) report.old) }
{
    match verdict {
        Ok(Verdict::Admitted(n)) => {
            *report = n as u64;
            0
        }
        Ok(Verdict::Denied(m)) => {
            *report = m as u64;
            8
        }
        Err(why) => why.into(),
    }
}

// A cut's number; its kept count goes to `report`.
pub fn cut_number(answer: Result<usize, Refusal>, report: &mut u64) -> u64
    ensures { (result ≡ (counted_report answer).number) × (report.new ≡ reported (counted_report answer) report.old) }
{
    match answer {
        Ok(kept) => {
            *report = kept as u64;
            0
        }
        Err(refusal) => refusal.into(),
    }
}
