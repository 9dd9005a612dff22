//! Tests at the places below a number.
ghost use Rattle.std.specs.Prelude.{◌≡◌, ℕ, ◌<◌, Bool, Ok};
ghost use Rattle.sheets.specs.Firsts.{first_place, AnswersAs};

use kinds::fault::Fault;

/// The first place below a number that fails a test, counted from 1.
pub(crate) fn first_failing<F: Fn(usize) -> Result<bool, Fault>>(
    count: usize,
    test: F,
) -> Result<Option<usize>, Fault>
    requires { (p : ℕ) → p < count → F.pre test p }
    ensures { (f : ℕ → Bool) → AnswersAs (F.post test) count f → result ≡ Ok (first_place count f) }
{
    // Places and no elements: what is tested at one is the closure's.
    for place in 0..count {
        if !test(place)? {
            return Ok(Some(place + 1));
        }
    }
    Ok(None)
}
