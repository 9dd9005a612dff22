//! Whole numbers as kinds store them: which of them fit, and which are entries.
ghost use Rattle.std.specs.Prelude.{◌≡◌, ◌+ℤ◌, ◌*ℤ◌};
ghost use Rattle.kinds.specs.Numbers.{checked};
ghost use Rattle.kinds.specs.Count.{counts, within};

use crate::fault::{Fault, Refusal};

/// A whole number fits from minus this to this.
const LARGEST_FIT: u64 = 4_000_000_000_000_000_000;

/// Whether a whole number is from minus a limit to the limit.
pub(crate) fn within(limit: u64, z: i64) -> bool
    ensures { result ≡ within limit z }
{
    z.unsigned_abs() <= limit
}

/// Passes a whole number that fits.
pub(crate) fn fitting(z: i64) -> Result<i64, Fault>
    ensures { result ≡ checked counts z }
{
    if within(LARGEST_FIT, z) {
        Ok(z)
    } else {
        Err(Fault::of(Refusal::OutOfRange))
    }
}

// Tried as one function over what `checked_add` and `checked_mul` give: the check did not find the proofs of its callers.

/// The exact sum of two whole numbers, where it fits.
pub(crate) fn sum(a: i64, b: i64) -> Result<i64, Fault>
    ensures { result ≡ checked counts (a +ℤ b) }
{
    let z = a.checked_add(b).ok_or(Fault::of(Refusal::OutOfRange))?;
    fitting(z)
}

/// The exact product of two whole numbers, where it fits.
pub(crate) fn product(a: i64, b: i64) -> Result<i64, Fault>
    ensures { result ≡ checked counts (a *ℤ b) }
{
    let z = a.checked_mul(b).ok_or(Fault::of(Refusal::OutOfRange))?;
    fitting(z)
}
