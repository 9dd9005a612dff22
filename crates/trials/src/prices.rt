//! Three tables of prices over one event, and what the tests of them share.
use kinds::best::Best;
use kinds::fault::Fault;

pub(crate) const NONE: Best = Best(None);

pub(crate) const ZERO: Best = Best(Some(0));

const THREE: Best = Best(Some(3));

const FOUR: Best = Best(Some(4));

pub(crate) const FIVE: Best = Best(Some(5));

pub(crate) const SEVEN: Best = Best(Some(7));

// a state whose step costs 5; two states that cost 5 and 7; two that cost 5 and 4, of which the second starts with 3
pub(crate) const FIRST: [Best; 3] = [ZERO, ZERO, FIVE];

pub(crate) const SECOND: [Best; 8] = [ZERO, ZERO, ZERO, ZERO, FIVE, NONE, NONE, SEVEN];

pub(crate) const THIRD: [Best; 8] = [ZERO, THREE, ZERO, ZERO, FIVE, NONE, NONE, FOUR];

// an answer, or the number and the place of what was refused
pub(crate) fn told<A: Drop>(answer: Result<A, Fault>) -> Result<A, (u8, usize)> {
    answer.map_err(|fault| (fault.refusal.number(), fault.place))
}
