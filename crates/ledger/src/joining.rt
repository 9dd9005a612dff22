//! Two classes become one.
ghost use Rattle.std.specs.Prelude.{◌≡◌};
ghost use Rattle.ledger.specs.Classes.{merged_if_there};
ghost use Rattle.ledger.specs.View.{view};

use crate::ledger::Ledger;

impl Ledger {
    /// Makes the classes of two tables of the book one, under the smaller name. Where one is not in the book, nothing changes.
    pub fn merge(&mut self, a: usize, b: usize)
        ensures lines { (view self.new).lines ≡ merged_if_there a b (view self.old).lines }
        ensures events { self.new.events ≡ self.old.events }
        ensures parts { (view self.new).parts ≡ (view self.old).parts }
    {
        let (Some(first), Some(second)) = (self.line(a), self.line(b)) else {
            return;
        };
        let (x, y) = (first.class, second.class);
        self.lines.relabel(self.tables, x.max(y), x.min(y));
    }
}
