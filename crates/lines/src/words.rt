//! A word as an answer shows it.
ghost use Rattle.std.specs.Prelude.{◌≡◌, ◌≤◌, [], length, take, Some, IsAscii};
ghost use Rattle.tables.specs.Words.{longest_word};

use std::{fmt, str};
use tables::words::LONGEST_WORD;

/// The letters of a word, which are ASCII: the first `count` of 64 bytes.
// No String: a reply is copied, and must not need memory.
#[derive(Clone, Copy)]
pub struct Word {
    bytes: [u8; LONGEST_WORD],
    count: usize,
    ghost short: { count ≤ longest_word },
    ghost whole: { length bytes ≡ longest_word },
    ghost ascii: { IsAscii bytes },
}

impl Word {
    /// The word whose letters are the first `count` of these bytes; it has none where a byte is not ASCII, or where
    /// more than 64 are to count.
    pub fn new(bytes: [u8; LONGEST_WORD], count: usize) -> Word
        ensures letters { IsAscii bytes → count ≤ longest_word → take result.count result.bytes ≡ take count bytes }
        ensures no_letters { (IsAscii bytes → count ≤ longest_word → ⊥) → take result.count result.bytes ≡ [] }
    {
        if count > LONGEST_WORD || !bytes.is_ascii() {
            return Word {
                bytes: [0; LONGEST_WORD],
                count: 0,
            };
        }
        Word { bytes, count }
    }
}

impl fmt::Display for Word {
    ghost output = { λ w. Some (take w.count w.bytes) };

    fn fmt<W: fmt::Write>(&self, f: &mut fmt::Formatter<W>) -> fmt::Result {
        match str::from_utf8(&self.bytes[..self.count]) {
            Ok(letters) => f.write_str(letters),
            Err(_) => Ok(()),
        }
    }
}
