//! What is answered to a line, and how it is written.
ghost use Rattle.std.specs.Prelude.{◌≡◌, IfOk, Some, string_bytes};
ghost use Rattle.lines.specs.Replies.{weight_text, reply_text, answer_text};

use crate::words::Word;
use kinds::fault::Fault;
use std::alloc::{AllocError, Global};
use std::fmt;

/// What is answered to a line.
#[derive(Clone, Copy)]
pub enum Reply {
    /// A book is open now.
    Open,
    /// A table was entered under this number.
    Table(usize),
    /// Two tables were joined.
    Joined,
    /// A word weighs this, or none.
    Weighs(Option<i64>),
    /// A word was kept as this part, and it weighs this in the two tables, or none.
    Parted(usize, Option<i64>, Option<i64>),
    /// Two tables weigh every word alike.
    Same,
    /// Two tables are told apart by this part, which has this word.
    Different(usize, Word),
    /// It is not known whether two tables weigh every word alike.
    Unknown,
    /// The line is refused.
    Refused(Fault),
}

/// A reply with the number of its line.
#[derive(Clone, Copy)]
pub struct Answer {
    pub line: u64,
    pub reply: Reply,
}

/// A weight, or none.
#[derive(Clone, Copy)]
struct Weight(Option<i64>);

impl fmt::Display for Weight {
    ghost output = { λ w. Some (weight_text w.0) };

    fn fmt<W: fmt::Write>(&self, f: &mut fmt::Formatter<W>) -> fmt::Result {
        match self.0 {
            None => f.write_str("-"),
            Some(weight) => write!(f, "{weight}"),
        }
    }
}

impl fmt::Display for Reply {
    ghost output = { λ r. Some (reply_text r) };

    fn fmt<W: fmt::Write>(&self, f: &mut fmt::Formatter<W>) -> fmt::Result {
        match self {
            Reply::Open => f.write_str("open"),
            Reply::Table(table) => write!(f, "table,{table}"),
            Reply::Joined => f.write_str("joined"),
            Reply::Weighs(weight) => {
                let weight = Weight(*weight);
                write!(f, "weighs,{weight}")
            }
            Reply::Parted(part, first, second) => {
                let first = Weight(*first);
                let second = Weight(*second);
                write!(f, "parted,{part},{first},{second}")
            }
            Reply::Same => f.write_str("same"),
            Reply::Different(part, word) => write!(f, "different,{part},{word}"),
            Reply::Unknown => f.write_str("unknown"),
            Reply::Refused(fault) => {
                let number = fault.refusal.number();
                let place = fault.place;
                write!(f, "refused,{number},{place}")
            }
        }
    }
}

impl fmt::Display for Answer {
    ghost output = { λ a. Some (answer_text a) };

    fn fmt<W: fmt::Write>(&self, f: &mut fmt::Formatter<W>) -> fmt::Result {
        let line = self.line;
        let reply = self.reply;
        write!(f, "{line},{reply}")
    }
}

/// The text of an answer, without a line feed.
pub fn answer_text(heap: Global, answer: Answer) -> Result<String, AllocError>
    ensures { IfOk result (λ t. string_bytes t ≡ answer_text answer) }
{
    answer.to_string(heap)
}
