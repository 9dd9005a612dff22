//! Input that arrives in pieces, cut into lines in bounded memory.
ghost use Rattle.std.specs.Prelude.{◌≡◌, ◌+◌, ◌≤◌, not, [], ◌∷◌, ◌++◌, length, take, IfOk, IfSome, if◌then◌else◌, vec_len, MatchResult, OnOk, ◌==◌};
ghost use Rattle.std.specs.Option.{option_map};
ghost use Rattle.text.specs.Input.{most_bytes, text_of, texts_from, kept, span, EndsAt, KeepingIsEnough, SameTexts};

use std::alloc::{AllocError, Global};

/// A line with its line feed has at most so many bytes.
const MOST_BYTES: usize = 16384;

/// The first bytes of the line that has begun, at most one more than it may have.
#[derive(Drop)]
pub struct LineBuffer {
    bytes: Vec<u8>,
    ghost within: { vec_len bytes ≤ most_bytes + 1 },
}

/// How many bytes of a piece stand up to its first line feed, if it has one.
fn up_to_feed(piece: &[u8]) -> Option<usize>
    ensures value { EndsAt piece.now result }
    ensures within { IfSome result (λ n. n ≤ length piece.now) }
{
    Some(piece.iter().position(|b| *b == b'\n')? + 1)
}

impl LineBuffer {
    /// A buffer in which no line has begun.
    #[tactic(auto, using(crate::proofs::Pieces::keeping_is_enough))]
    pub fn new(heap: Global) -> LineBuffer
        ensures empty { result.bytes.items ≡ [] }
        ensures keeping_is_enough { KeepingIsEnough }
    {
        LineBuffer {
            bytes: Vec::new(heap),
        }
    }

    /// Lets the line go, so that the next can begin.
    pub fn clear(&mut self)
        ensures { self.new.bytes.items ≡ [] }
    {
        self.bytes.clear();
    }

    /// Takes from a piece of the input what belongs to the line: so many bytes, which end it, or all bytes while it goes
    /// on. For want of memory nothing is taken.
    pub fn take(&mut self, piece: &[u8]) -> Result<Option<usize>, AllocError>
        ensures value { IfOk result (EndsAt piece.now) }
        ensures held { MatchResult result (λ _. self.new.bytes.items ≡ kept (self.old.bytes.items ++ take (span piece.now) piece.now)) (λ _. self.new.bytes.items ≡ self.old.bytes.items) }
        ensures same_texts { OnOk result (SameTexts self.old.bytes.items piece.now self.new.bytes.items) }
    {
        let end = up_to_feed(piece);
        let used = end.unwrap_or(piece.len());
        let room = MOST_BYTES + 1 - self.bytes.len();
        self.bytes.extend_from_slice(&piece[..used.min(room)])?;
        Ok(end)
    }

    /// Whether a line has begun. At the end of the input it is the last one, which lacks its line feed.
    pub fn has_begun(&self) -> bool
        ensures value { result ≡ not (length self.now.bytes.items == 0) }
        ensures last_text { texts_from self.now.bytes.items [] ≡ (if result then text_of self.now.bytes.items ∷ [] else []) }
    {
        !self.bytes.is_empty()
    }

    /// The text of the line before its line feed, unless it lacks that or is too long.
    #[tactic(auto, using(crate::proofs::Pieces::text_by_last))]
    pub fn text(&self) -> Option<&[u8]>
        ensures { option_map (λ x. x.now) result ≡ text_of self.now.bytes.items }
    {
        let all = self.bytes.as_slice();
        if all.len() > MOST_BYTES {
            return None;
        }
        let [text @ .., last] = all else {
            return None;
        };
        if *last == b'\n' { Some(text) } else { None }
    }
}
