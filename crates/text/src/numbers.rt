//! Numbers as a line writes them.
ghost use Rattle.std.specs.Prelude.{◌≡◌, ◌<◌, IfSome};
ghost use Rattle.std.specs.Result.{result_ok};
ghost use Rattle.text.specs.Numerals.{mark_of, magnitude_of, reading_of, negative, most_magnitude, plain_at, IsNumeral, IsReading};

use kinds::fault::{Fault, Refusal};

/// What a byte is within a number.
// Four cases of its own, and no `Option` for the last: the cases of the rule on reading numbers.
#[derive(Clone, Copy)]
enum Mark {
    Hyphen,
    Zero,
    Digit(u8),
    Other,
}

/// What a field is as a number: a whole number, or a hyphen alone.
#[derive(Clone, Copy)]
pub enum Reading {
    Number(i64),
    Hyphen,
}

/// The mark that a byte is.
fn mark_of(b: u8) -> Mark
    ensures { result ≡ mark_of b }
{
    match char::from(b) {
        '-' => Mark::Hyphen,
        '0' => Mark::Zero,
        '1'..='9' => Mark::Digit(b - b'0'),
        _ => Mark::Other,
    }
}

/// A number without a sign: one to six digits without leading zeros.
pub fn magnitude(s: &[u8]) -> Option<u32>
    ensures value { result ≡ magnitude_of s.now }
    ensures bound { IfSome result (λ n. n < most_magnitude) }
{
    let [first, ..] = s else {
        return None;
    };
    if s.len() > 6 {
        return None;
    }
    if let Mark::Zero = mark_of(*first) {
        return if s.len() == 1 { Some(0) } else { None };
    }
    let mut n: u32 = 0;
    for b in s {
        match mark_of(*b) {
            Mark::Digit(d) => n = 10 * n + u32::from(d),
            Mark::Zero => n = 10 * n,
            Mark::Hyphen | Mark::Other => return None,
        }
    }
    Some(n)
}

/// The reading of a magnitude behind a minus sign.
fn behind_minus(n: u32) -> Option<Reading>
    ensures { result ≡ negative n }
{
    if n == 0 {
        return None;
    }
    Some(Reading::Number(-i64::from(n)))
}

/// A number with or without a minus sign, or a hyphen alone.
pub fn read_number(field: &[u8]) -> Option<Reading>
    ensures value { result ≡ reading_of field.now }
    ensures decimal_text { IsReading field.now result }
{
    match field {
        [b'-'] => Some(Reading::Hyphen),
        [b'-', rest @ ..] => magnitude(rest).and_then(behind_minus),
        digits => magnitude(digits).map(|n| Reading::Number(i64::from(n))),
    }
}

/// The number without a sign in the field at a place.
#[tactic(auto, using(crate::proofs::Decimals::numeral_is))]
pub fn plain(field: &[u8], place: usize) -> Result<usize, Fault>
    ensures value { result ≡ plain_at field.now place }
    ensures decimal_text { IsNumeral field.now (result_ok result) }
{
    magnitude(field)
        .map(|n| n as usize)
        .ok_or(Fault::at(Refusal::FieldForm, place))
}
