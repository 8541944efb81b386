// A call's own checks: the refusal of the first that fails.
ghost use Rattle.std.specs.Prelude.{◌≡◌};
ghost use Rattle.rules.specs.Refusal.{number_in_check};
ghost use Rattle.rules.specs.Format.{inputs};
ghost use Rattle.rules.proofs.CheckLaws.{first_of};
ghost use Rattle.runs.specs.Checks.{start_checks, run_checks, end_checks};

use rules::{LONGEST_BUFFER, LONGEST_FORMAT, LONGEST_ZONE, Refusal, Runs};
use text::fits;

const LONGEST_RUN: usize = 32;

fn check_inputs(total: usize, zone: usize, room: usize) -> Result<(), Refusal>
    ensures { number_in_check result ≡ first_of (inputs total zone room) }
{
    if total > LONGEST_FORMAT || zone > LONGEST_ZONE || room > LONGEST_BUFFER {
        return Err(Refusal::InputTooLong);
    }
    Ok(())
}

pub fn check_start(total: usize, zone: usize, room: usize, store: usize) -> Result<(), Refusal>
    ensures { number_in_check result ≡ first_of (start_checks total zone room store) }
{
    check_inputs(total, zone, room)?;
    if total > store {
        return Err(Refusal::WriteZero);
    }
    Ok(())
}

pub fn check_run(
    s: Runs,
    count: usize,
    zone: usize,
    room: usize,
    store: usize,
) -> Result<(), Refusal>
    ensures { number_in_check result ≡ first_of (run_checks s count zone room store) }
{
    check_inputs(s.total, zone, room)?;
    if count > LONGEST_RUN {
        return Err(Refusal::InputTooLong);
    }
    if !fits(s.kept, count, s.total) {
        return Err(Refusal::LengthMismatch);
    }
    let end = s.kept + count;
    if !fits(s.passed, end, s.total) {
        return Err(Refusal::LengthMismatch);
    }
    if end > store {
        return Err(Refusal::WriteZero);
    }
    if s.written > room {
        return Err(Refusal::WriteZero);
    }
    Ok(())
}

pub fn check_end(s: Runs, zone: usize, room: usize) -> Result<(), Refusal>
    ensures { number_in_check result ≡ first_of (end_checks s zone room) }
{
    check_inputs(s.total, zone, room)?;
    if !fits(s.passed, s.kept, s.total) {
        return Err(Refusal::LengthMismatch);
    }
    if s.passed + s.kept != s.total {
        return Err(Refusal::LengthMismatch);
    }
    if s.written > room {
        return Err(Refusal::WriteZero);
    }
    Ok(())
}
