//! What any kind of number has to show.
ghost use Rattle.std.specs.Prelude.{◌≡◌, true, Decides};
ghost use Rattle.kinds.specs.Semiring.{Cancels};
ghost use Rattle.kinds.specs.Numbers.{Numbers, SumsOfEntryProductsFit, answer, is_entry, zero_of, one_of};

use crate::fault::Fault;

/// A kind of number: stored numbers that stand for exact values of a semiring.
/// A number of the type may stand for nothing; of such a number only `is_entry` promises something.
pub trait Kind: Copy {
    /// The exact values, which of them fit and are entries, and which number stands for which.
    ghost numbers: { Numbers Self };

    /// The number of the exact zero.
    fn zero() -> Self
        ensures { result ≡ zero_of numbers };

    /// The number of the exact one.
    fn one() -> Self
        ensures { result ≡ one_of numbers };

    /// The number of the exact sum, or a refusal where that does not fit.
    fn add(self, other: Self) -> Result<Self, Fault>
        ensures { numbers.stored self ≡ true → numbers.stored other ≡ true → result ≡ answer numbers (numbers.exact.plus (numbers.read self) (numbers.read other)) };

    /// The number of the exact product, or a refusal where that does not fit.
    fn multiply(self, other: Self) -> Result<Self, Fault>
        ensures { numbers.stored self ≡ true → numbers.stored other ≡ true → result ≡ answer numbers (numbers.exact.times (numbers.read self) (numbers.read other)) };

    /// Whether two numbers stand for the same value.
    fn equal(self, other: Self) -> bool
        ensures { numbers.stored self ≡ true → numbers.stored other ≡ true → result ≡ numbers.same (numbers.read self) (numbers.read other) };

    /// Whether the number stands for an entry; right of every number of the type.
    fn is_entry(self) -> bool
        ensures { result ≡ is_entry numbers self };

    /// Whether the number's value d cancels: d × a = d × b only for a = b.
    fn cancels(self) -> bool
        ensures { numbers.stored self ≡ true → Decides result (Cancels numbers.exact (numbers.read self)) };

    /// Sums of at most sixteen products of at most three entries fit. Code that rests on it calls this, and nothing runs.
    fn sums_of_entry_products_fit()
        ensures { SumsOfEntryProductsFit numbers };
}
