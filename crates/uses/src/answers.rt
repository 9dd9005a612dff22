//! What a call on a book answers.

/// A word was kept: the part's number, and what the word weighs in its two tables.
// The weights stand here one by one, and not as `Weights`: the definitions of what `part` answers name these fields.
#[derive(Clone, Copy)]
pub struct Parted<K> {
    pub part: usize,
    pub first: K,
    pub second: K,
}

/// What a word weighs in two tables.
#[derive(Clone, Copy)]
pub struct Weights<K> {
    pub first: K,
    pub second: K,
}
