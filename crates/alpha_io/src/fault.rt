ghost use Rattle.std.specs.Prelude.{◌≡◌, IfOk, Ok};
ghost use Rattle.alpha_io.specs.Faults.{next_count, HasCause};

use crate::Failed;

// One more, or the last value.
pub(crate) fn next_count(count: u64) -> u64
    ensures { result ≡ next_count count }
{
    count.saturating_add(1)
}

// The answer of the system, whose error counts one fault.
pub(crate) fn count_fault<T, E: Drop>(answer: Result<T, E>, faults: &mut u64) -> Result<T, Failed>
    ensures value { IfOk result (λ value. answer ≡ Ok value) }
    ensures cause { HasCause faults.old faults.new result }
{
    match answer {
        Ok(value) => Ok(value),
        Err(_) => {
            *faults = next_count(*faults);
            Err(Failed)
        }
    }
}
