//! The fields of a line, given out in turn.
ghost use Rattle.std.specs.Prelude.{◌≡◌, [], ◌∷◌, MatchOption, MatchResult, ◌≢◌};
ghost use Rattle.std.specs.Iterator.{YieldsFirstRef, item_count};
ghost use Rattle.kinds.specs.declared.fault.Refusal.TheVariants.{FieldCount};
ghost use Rattle.kinds.specs.Faults.{fault};
ghost use Rattle.text.specs.Split.{split, left, AreFieldsOf};

use kinds::fault::{Fault, Refusal};

/// A cursor over the fields of a line, which commas part: what it has not handed out yet.
#[derive(Clone, Copy)]
pub struct Fields<'a> {
    rest: Option<&'a [u8]>,
}

impl<'a> Fields<'a> {
    /// A cursor at the first field of a line.
    pub fn new(line: &'a [u8]) -> Fields<'a>
        ensures value { left result ≡ split line.now }
        ensures joined_by_commas { AreFieldsOf line.now (left result) }
    {
        Fields { rest: Some(line) }
    }

    /// The next field, until none is left.
    pub fn next_field(&mut self) -> Option<&'a [u8]>
        ensures { MatchOption result ((left self.old ≡ []) × (left self.new ≡ [])) (λ f. left self.old ≡ f.now ∷ left self.new) }
    {
        let line = self.rest?;
        match line.iter().position(|b| *b == b',') {
            Some(n) => {
                self.rest = Some(&line[n + 1..]);
                Some(&line[..n])
            }
            None => {
                self.rest = None;
                Some(line)
            }
        }
    }

    /// The next field, which the line has to have.
    pub fn fixed_field(&mut self) -> Result<&'a [u8], Fault>
        ensures { MatchResult result (λ f. left self.old ≡ f.now ∷ left self.new) (λ e. (left self.old ≡ []) × (e ≡ fault FieldCount)) }
    {
        let Some(field) = self.next_field() else {
            return Err(Fault::of(Refusal::FieldCount));
        };
        Ok(field)
    }

    /// Refuses a line that has more fields.
    pub fn end(mut self) -> Result<(), Fault>
        ensures { MatchResult result (λ _. left self.entry ≡ []) (λ e. (left self.entry ≢ []) × (e ≡ fault FieldCount)) }
    {
        let None = self.next_field() else {
            return Err(Fault::of(Refusal::FieldCount));
        };
        Ok(())
    }
}

impl<'a> Iterator for Fields<'a> {
    type Item = &'a [u8];

    ghost next_gives = { YieldsFirstRef left };

    ghost remaining = { item_count left };

    fn next(&mut self) -> Option<&'a [u8]> {
        self.next_field()
    }
}
