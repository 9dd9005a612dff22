//! What the numbers of a chain have to be: each 0 to the scale, and each row adding up to it.
ghost use Rattle.std.specs.Prelude.{◌≡◌, ℕ, ◌*◌, ◌<◌, ◌≤◌, pos, length};
ghost use Rattle.kinds.specs.Count.{equal_whole};
ghost use Rattle.chains.specs.Refusals.{largest_scale, in_scale, first_outside, sum_from, first_uneven};

use kinds::count::Count;

/// Whether a number is 0 to the scale.
fn in_scale(scale: usize, x: Count) -> bool
    requires { scale ≤ largest_scale }
    ensures { result ≡ in_scale scale x }
{
    0 <= x.0 && x.0 <= scale as i64
}

/// The place, counted from 1, of the first number that is not 0 to the scale.
pub(crate) fn first_outside(scale: usize, numbers: &[Count]) -> Option<usize>
    requires { scale ≤ largest_scale }
    ensures { result ≡ first_outside scale numbers.now }
{
    numbers
        .iter()
        .position(|x| !in_scale(scale, *x))
        .map(|place| place + 1)
}

/// Whether the numbers of a row add up to the scale. In 128 bits no sum of a run's numbers is too large.
fn adds_up(scale: usize, row: &[Count]) -> bool
    ensures { result ≡ equal_whole (sum_from row.now 0 (length row.now)) (pos scale) }
{
    // A loop: of an iterator's signed sum it is not proved that it fits.
    let mut sum: i128 = 0;
    for x in row {
        sum += x.0 as i128;
    }
    sum == scale as i128
}

/// The place, counted from 1, of the first of the rows of a width that does not add up to the scale.
pub(crate) fn first_uneven(width: usize, scale: usize, numbers: &[Count]) -> Option<usize>
    requires { 0 < width }
    ensures { (rows : ℕ) → length numbers.now ≡ rows * width → result ≡ first_uneven width rows scale numbers.now }
{
    numbers
        .chunks_exact(width)
        .position(|row| !adds_up(scale, row))
        .map(|row| row + 1)
}
