//! Count: the whole numbers, with the ordinary sum and product.
ghost use Rattle.kinds.specs.Count.{counts};

use crate::fault::Fault;
use crate::kind::Kind;
use crate::whole::{product, sum, within};

/// A whole number is an entry from minus this to this.
const LARGEST_ENTRY: u64 = 100_000;

/// A whole number.
#[derive(Clone, Copy, PartialEq, Eq, Debug)]
pub struct Count(pub i64);

impl Kind for Count {
    ghost numbers = { counts };

    fn zero() -> Count {
        Count(0)
    }

    fn one() -> Count {
        Count(1)
    }

    fn add(self, other: Count) -> Result<Count, Fault> {
        sum(self.0, other.0).map(Count)
    }

    fn multiply(self, other: Count) -> Result<Count, Fault> {
        product(self.0, other.0).map(Count)
    }

    fn equal(self, other: Count) -> bool {
        self == other
    }

    fn is_entry(self) -> bool {
        within(LARGEST_ENTRY, self.0)
    }

    fn cancels(self) -> bool {
        self.0 != 0
    }

    fn sums_of_entry_products_fit() {}
}

#[cfg(test)]
mod tests {
    use super::*;

    // a sum, or the number of its refusal
    fn added(a: i64, b: i64) -> Result<i64, u8> {
        let sum = Count(a).add(Count(b));
        sum.map(|sum| sum.0).map_err(|fault| fault.refusal.number())
    }

    #[test]
    fn the_largest_sum_fits(rt: HostRuntime) {
        assert_eq!(rt;
            added(-3_999_999_999_999_999_999, -1),
            Ok(-4_000_000_000_000_000_000)
        );
    }

    #[test]
    fn one_more_does_not_fit(rt: HostRuntime) {
        assert_eq!(rt; added(4_000_000_000_000_000_000, 1), Err(19));
    }
}
