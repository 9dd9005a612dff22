//! Sums of products of entries.
ghost use Rattle.std.specs.Prelude.{◌≡◌, ℕ, ◌<◌, ◌≤◌, List, Ok};
ghost use Rattle.tables.specs.Entries.{AllEntries};
ghost use Rattle.sheets.specs.Layout.{most_width};
ghost use Rattle.sheets.specs.Views.{Gives, dotted};

use kinds::fault::Fault;
use kinds::kind::Kind;

/// The sum of so many products of what two readers give at each place. Of entries it is never refused.
// Beside `dot` of crate tables, which promises where a sum is refused; here it is that none is, of numbers from anywhere.
pub(crate) fn sum_of_products<K: Kind, F: Fn(usize) -> K, G: Fn(usize) -> K>(
    count: usize,
    left: F,
    right: G,
) -> Result<K, Fault>
    requires few { count ≤ most_width }
    requires left { (p : ℕ) → p < count → F.pre left p }
    requires right { (p : ℕ) → p < count → G.pre right p }
    ensures { (xs ys : List K) (at by : ℕ → ℕ) → AllEntries K.Kind.numbers xs → AllEntries K.Kind.numbers ys → Gives K.Kind.numbers (F.post left) count xs at → Gives K.Kind.numbers (G.post right) count ys by → result ≡ Ok (K.Kind.numbers.write (dotted K.Kind.numbers count xs at ys by)) }
{
    K::sums_of_entry_products_fit();
    let mut sum = K::zero();
    // A loop: of an iterator's sum over results it is not proved which it answers.
    for place in 0..count {
        sum = sum.add(left(place).multiply(right(place))?)?;
    }
    Ok(sum)
}
