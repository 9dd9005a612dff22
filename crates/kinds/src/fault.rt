//! Why a call or a line is refused, and where.
ghost use Rattle.std.specs.Prelude.{◌≡◌};
ghost use Rattle.kinds.specs.Faults.{number_of, fault, fault_at};

/// Why something is refused: a case for each refusal that can be given. Its number is what a reader of the answers sees.
#[derive(Clone, Copy, PartialEq, Eq, Debug)]
pub enum Refusal {
    /// 1: the events are not 1 to 6.
    EventCount = 1,
    /// 2: the states are not 1 to 8.
    StateCount = 2,
    /// 3: a run has not the count of numbers that it should have.
    NumberCount = 3,
    /// 4: a number of a table is no entry.
    NotAnEntry = 4,
    /// 5: the book has as many tables as it may have.
    TooManyTables = 5,
    /// 6: the shelf has too few numbers left.
    ShelfFull = 6,
    /// 7: a call names a table that the book has not.
    NoSuchTable = 7,
    /// 8: the two tables of a call are one.
    SameTable = 8,
    /// 9: the vectors of a sheet are not 1 to 16.
    VectorCount = 9,
    /// 10: a sheet has not the count of numbers that it should have.
    SheetCount = 10,
    /// 11: a number of a sheet is no entry.
    NotASheetEntry = 11,
    /// 12: the scale of a sheet does not cancel.
    ScaleDoesNotCancel = 12,
    /// 13: a vector of a sheet breaks the start rule.
    StartRuleFails = 13,
    /// 14: an event and a vector of a sheet break the step rule.
    StepRuleFails = 14,
    /// 15: a sheet breaks the end rule.
    EndRuleFails = 15,
    /// 16: the word is longer than 64.
    WordLength = 16,
    /// 17: a byte of a word is no event of the book.
    NotAnEvent = 17,
    /// 18: the strip is not sixteen numbers.
    StripLength = 18,
    /// 19: an exact result does not fit.
    OutOfRange = 19,
    /// 20: a word weighs the same in both tables.
    EqualWeights = 20,
    /// 21: the book keeps as many parts as it may.
    TooManyParts = 21,
    /// 22: a chain's scale is below 1 or above 100,000.
    ScaleRange = 22,
    /// 23: there is not one letter for each state, or a letter is no event of the book.
    Letters = 23,
    /// 24: a number of a chain is not 0 to the scale.
    ProbabilityRange = 24,
    /// 25: the starts or a row of a chain do not add up to the scale.
    RowSum = 25,
    /// 26: an output run has not the count of numbers that is written there.
    OutputLength = 26,
    /// 27: a call names a part that the book has not.
    NoSuchPart = 27,
    /// 28: a run for a word is not 64 bytes.
    WordRunLength = 28,
    /// 29: a line lacks its line feed or is too long.
    LineBounds = 29,
    /// 30: a line's verb is not served here.
    VerbNotServed = 30,
    /// 31: a line has too few or too many fields.
    FieldCount = 31,
    /// 32: a field has another form than it should have.
    FieldForm = 32,
}

impl Refusal {
    /// The refusal's number.
    pub fn number(self) -> u8
        ensures { result ≡ number_of self }
    {
        self as u8
    }
}

/// A refusal and the place that it names, or 0 where it names none.
// No `Option`: the definitions of faults and the answers to lines have the place as a number, and 0 where none is named.
#[derive(Clone, Copy, PartialEq, Eq, Debug)]
pub struct Fault {
    pub refusal: Refusal,
    pub place: usize,
}

impl Fault {
    /// A refusal that names no place.
    pub fn of(refusal: Refusal) -> Fault
        ensures { result ≡ fault refusal }
    {
        Fault { refusal, place: 0 }
    }

    /// A refusal at a place.
    pub fn at(refusal: Refusal, place: usize) -> Fault
        ensures { result ≡ fault_at refusal place }
    {
        Fault { refusal, place }
    }
}
