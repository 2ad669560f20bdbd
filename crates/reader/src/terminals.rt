//! Single signs, as what they are judged to be.
ghost use Rattle.std.specs.Prelude.{◌≡◌};
ghost use Rattle.conditions.specs.Meaning.{sign_of};
ghost use Rattle.grammar.specs.Reading.{deeper, on_cell, on_comparing, on_operand, on_word};
ghost use Rattle.phrases.specs.Written.{constant, term};
ghost use Rattle.signs.specs.Spoken.{said};
ghost use Rattle.reader.specs.Judging.{Counted, Judged, one_digit, spelt};
ghost use Rattle.reader.specs.Stepping.{on_table, table};

use cells::{Cause, GREATEST, Refusal, is_text, refused};
use conditions::{Comparison, Operand};
use phrases::Constant;
use signs::{Sign, Token};

// One bracket or not more, of which so many may still be opened.
pub(crate) fn deeper(depth: u8, place: usize) -> Result<u8, Refusal>
    ensures { Judged (deeper place depth) (λ d. d) result }
{
    depth.checked_sub(1).ok_or(refused(Cause::Depth, 0, place))
}

pub(crate) fn word<'a>(token: Token<'a>) -> Result<&'a [u8], Refusal>
    ensures { Judged (on_word token.entry.place (said token.entry.sign)) spelt result }
{
    match token.sign {
        Sign::Word(w) if w.len() <= 12 => Ok(w),
        Sign::Word(_) => Err(token.refuse(Cause::Size)),
        _ => Err(token.refuse(Cause::Grammar)),
    }
}

// The word of a table, with its place.
pub(crate) fn table<'a>(token: Token<'a>) -> Result<(usize, &'a [u8]), Refusal>
    ensures { Judged (on_table token.entry.place (said token.entry.sign)) table result }
{
    Ok((token.place, word(token)?))
}

pub(crate) fn comparing(token: Token<'_>) -> Result<Comparison, Refusal>
    ensures { Judged (on_comparing token.entry.place (said token.entry.sign)) sign_of result }
{
    match token.sign {
        Sign::Comparing(c) => Ok(c),
        _ => Err(token.refuse(Cause::Grammar)),
    }
}

// One more digit, unless the number is above the greatest.
fn one_digit(n: u32, d: u8) -> u32
    ensures { result ≡ one_digit n d }
{
    if n <= GREATEST {
        n * 10 + u32::from(d.saturating_sub(b'0'))
    } else {
        n
    }
}

// The number that the digits write, unless it is above the greatest. No `parse`, which would ask that they are digits.
fn number(digits: &[u8]) -> Option<u32>
    ensures { Counted digits.now result }
{
    let n = digits.iter().fold(0u32, |n, d| one_digit(n, *d));
    (n <= GREATEST).then_some(n)
}

// A number or a text, within the limits of cells.
pub(crate) fn constant<'a>(token: Token<'a>) -> Result<Constant<'a>, Refusal>
    ensures { Judged (on_cell token.entry.place (said token.entry.sign)) constant result }
{
    match token.sign {
        Sign::Number(digits) => {
            let n = number(digits).ok_or(token.refuse(Cause::Size))?;
            Ok(Constant::Number(n))
        }
        Sign::Quoted(bytes) if is_text(bytes) => Ok(Constant::Text(bytes)),
        Sign::Quoted(_) => Err(token.refuse(Cause::Size)),
        Sign::Broken(place) => Err(refused(Cause::Grammar, 0, place)),
        _ => Err(token.refuse(Cause::Grammar)),
    }
}

// A word, a number or a text.
pub(crate) fn operand<'a>(token: Token<'a>) -> Result<Operand<&'a [u8], Constant<'a>>, Refusal>
    ensures { Judged (on_operand token.entry.place (said token.entry.sign)) term result }
{
    match token.sign {
        Sign::Word(_) => Ok(Operand::Column(word(token)?)),
        _ => Ok(Operand::Value(constant(token)?)),
    }
}
