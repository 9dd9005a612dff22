//! Best: none and the whole numbers, with the smaller as the sum and the ordinary sum as the product.
ghost use Rattle.std.specs.Prelude.{◌≡◌};
ghost use Rattle.kinds.specs.Numbers.{answer};
ghost use Rattle.kinds.specs.Best.{bests};

use crate::fault::Fault;
use crate::kind::Kind;
use crate::whole::{fitting, sum, within};

/// A whole number is an entry from minus this to this.
const LARGEST_ENTRY: u64 = 100_000;

/// None or a whole number.
#[derive(Clone, Copy, PartialEq, Eq, Debug)]
pub struct Best(pub Option<i64>);

impl Best {
    /// The number of a value, or a refusal where that does not fit.
    fn of(value: Option<i64>) -> Result<Best, Fault>
        ensures { result ≡ answer bests value }
    {
        match value {
            Some(z) => Ok(Best(Some(fitting(z)?))),
            None => Ok(Best(None)),
        }
    }
}

impl Kind for Best {
    ghost numbers = { bests };

    fn zero() -> Best {
        Best(None)
    }

    fn one() -> Best {
        Best(Some(0))
    }

    fn add(self, other: Best) -> Result<Best, Fault> {
        match (self.0, other.0) {
            (Some(a), Some(b)) => Best::of(Some(a.min(b))),
            (None, b) => Best::of(b),
            (a, None) => Best::of(a),
        }
    }

    fn multiply(self, other: Best) -> Result<Best, Fault> {
        match (self.0, other.0) {
            (Some(a), Some(b)) => Ok(Best(Some(sum(a, b)?))),
            _ => Ok(Best(None)),
        }
    }

    fn equal(self, other: Best) -> bool {
        self == other
    }

    fn is_entry(self) -> bool {
        self.0.is_none_or(|z| within(LARGEST_ENTRY, z))
    }

    fn cancels(self) -> bool {
        self.0.is_some()
    }

    fn sums_of_entry_products_fit() {}
}

#[cfg(test)]
mod tests {
    use super::*;

    #[test]
    fn none_gives_way_in_a_sum(rt: HostRuntime) {
        assert_eq!(rt; Best(None).add(Best(Some(7))), Ok(Best(Some(7))));
        assert_eq!(rt; Best(Some(-3)).add(Best(Some(7))), Ok(Best(Some(-3))));
    }

    #[test]
    fn none_makes_a_product_none(rt: HostRuntime) {
        assert_eq!(rt; Best(None).multiply(Best(Some(7))), Ok(Best(None)));
        assert_eq!(rt; Best(Some(-3)).multiply(Best(Some(7))), Ok(Best(Some(4))));
    }
}
