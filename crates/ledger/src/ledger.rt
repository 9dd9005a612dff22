//! The ledger: the events of a book, a line for each of its tables, and the parts that it keeps.
ghost use Rattle.std.specs.Prelude.{◌≡◌, ◌≤◌, length, take};
ghost use Rattle.ledger.specs.Lines.{Sound, most_tables};
ghost use Rattle.ledger.specs.Parts.{Parted, most_parts};
ghost use Rattle.ledger.specs.Stored.{meanings};

use crate::line::Line;
use crate::lines::{Lines, MOST_TABLES};
use crate::part::Part;
use crate::parts::{MOST_PARTS, Parts};
use tables::shape::{Events, States};

/// The events, how many tables there are, and their lines: classes are named by their smallest table, each table has
/// 1 to 8 states, and each begins on the shelf right behind the one before it. Then how many parts are kept, and their
/// records: each names two different tables, and a word of at most 64 of the events.
// Tables with counts beside them, and no `Vec`: the ledger is `Copy` and takes no memory, so that a call on it never lacks any.
#[derive(Clone, Copy)]
pub struct Ledger {
    pub(crate) events: Events,
    pub(crate) tables: usize,
    pub(crate) lines: Lines,
    pub(crate) kept: usize,
    pub(crate) parts: Parts,
    ghost few: { tables ≤ most_tables },
    ghost full: { length lines.all ≡ most_tables },
    ghost sound: { Sound events.count (take tables lines.all) },
    ghost spare: { kept ≤ most_parts },
    ghost records: { length parts.all ≡ most_parts },
    ghost parted: { Parted events.count tables (meanings kept parts.all) },
}

/// Where a new table stands: its number, and the place of its first number on the shelf; both count from 1.
#[derive(Clone, Copy)]
pub struct Placed {
    pub table: usize,
    pub place: usize,
}

/// Where a table of the book stands: its states, the place of its first number on the shelf, counted from 0, and how many it has.
#[derive(Clone, Copy)]
pub struct Standing {
    pub states: States,
    pub at: usize,
    pub size: usize,
}

/// Where two different tables of the book stand.
#[derive(Clone, Copy)]
pub struct Pair {
    pub first: Standing,
    pub second: Standing,
}

impl Ledger {
    /// A ledger without tables or parts.
    pub fn new(events: Events) -> Ledger
        ensures events { result.events ≡ events }
        ensures tables { result.tables ≡ 0 }
        ensures parts { result.kept ≡ 0 }
    {
        Ledger {
            events,
            tables: 0,
            lines: Lines {
                all: [Line {
                    states: 0,
                    place: 0,
                    class: 0,
                }; MOST_TABLES],
            },
            kept: 0,
            parts: Parts {
                all: [Part::blank(); MOST_PARTS],
            },
        }
    }

    /// The events of the book.
    pub fn events(&self) -> Events
        ensures { result ≡ self.now.events }
    {
        self.events
    }
}
