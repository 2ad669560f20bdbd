//! The sign at a place of a text.
ghost use Rattle.std.specs.Prelude.{◌≡◌, ◌+◌, ◌-◌, ◌^◌, ◌<◌, ◌&&◌, length, drop, slice_index};
ghost use Rattle.model.specs.Words.{is_letter};
ghost use Rattle.grammar.specs.Signs.{equals_next, front, is_digit, mark, number, piece, quote_end, quote_piece, quote_sign, sign_at, touches, word_sign};
ghost use Rattle.signs.specs.Reached.{before};
ghost use Rattle.signs.specs.Spoken.{cut, said};

use crate::classes::touches;
use crate::sign::{Keyword, Sign};
use cells::is_text_byte;
use conditions::Comparison;
use runs::split_run;

// A sign, with how many bytes it takes after its first.
#[derive(Clone, Copy)]
pub(crate) struct Piece<'a> {
    pub(crate) sign: Sign<'a>,
    pub(crate) more: usize,
}

impl<'a> Piece<'a> {
    // A sign of one byte.
    fn single(sign: Sign<'a>) -> Piece<'a>
        ensures { cut result ≡ piece (said sign.entry) 0 }
    {
        Piece { sign, more: 0 }
    }
}

fn word_sign(word: &[u8]) -> Sign<'_>
    ensures { said result ≡ word_sign word.now }
{
    // A match, since no proof is made of `map_or` where its function's result may borrow the word.
    match Keyword::spelt(word) {
        Some(k) => Sign::Key(k),
        None => Sign::Word(word),
    }
}

// The word at the front of a text that begins with a letter.
fn first_word(text: &[u8]) -> Piece<'_>
    requires { 0 < length (front is_letter text.now) }
    ensures { cut result ≡ piece (word_sign (front is_letter text.now)) (length (front is_letter text.now) - 1) }
{
    let (word, _) = split_run(text, |b| b.is_ascii_lowercase());
    Piece {
        sign: word_sign(word),
        more: word.len() - 1,
    }
}

// The number at the front of a text that begins with a digit.
fn first_number(text: &[u8]) -> Piece<'_>
    requires { 0 < length (front is_digit text.now) }
    ensures { cut result ≡ piece (number (front is_digit text.now)) (length (front is_digit text.now) - 1) }
{
    let (digits, _) = split_run(text, |b| b.is_ascii_digit());
    Piece {
        sign: Sign::Number(digits),
        more: digits.len() - 1,
    }
}

// A quote at a place, by the bytes of a text that it holds and what comes after these.
fn quote_end<'a>(place: usize, held: &'a [u8], after: &[u8]) -> Piece<'a>
    requires { place + length held.now < 2 ^ 64 - 1 }
    ensures { cut result ≡ quote_piece (quote_end place held.now after.now) }
{
    match after {
        [] => Piece::single(Sign::Broken(place)),
        [b'"', ..] => Piece {
            sign: Sign::Quoted(held),
            more: held.len() + 1,
        },
        _ => Piece::single(Sign::Broken(place + 1 + held.len())),
    }
}

// A quote at a place, by what stands behind it.
fn quote(place: usize, rest: &[u8]) -> Piece<'_>
    requires { place + length rest.now < 2 ^ 64 - 1 }
    ensures { cut result ≡ quote_piece (quote_sign place rest.now) }
{
    let (held, after) = split_run(rest, |b| is_text_byte(*b));
    quote_end(place, held, after)
}

// One of ( ) = != < <= > >=, or a stray sign, by its first byte and whether an = follows.
fn mark(b: u8, equals: bool) -> Piece<'static>
    ensures { cut result ≡ mark b equals }
{
    let (sign, more) = match (b, equals) {
        (b'(', _) => (Sign::Opening, 0),
        (b')', _) => (Sign::Closing, 0),
        (b'=', _) => (Sign::Comparing(Comparison::Equal), 0),
        (b'!', true) => (Sign::Comparing(Comparison::Unequal), 1),
        (b'<', true) => (Sign::Comparing(Comparison::AtMost), 1),
        (b'<', false) => (Sign::Comparing(Comparison::Less), 0),
        (b'>', true) => (Sign::Comparing(Comparison::AtLeast), 1),
        (b'>', false) => (Sign::Comparing(Comparison::Greater), 0),
        _ => (Sign::Stray, 0),
    };
    Piece { sign, more }
}

fn is_equals(text: &[u8]) -> bool
    ensures { result ≡ equals_next text.now }
{
    matches!(text, [b'=', ..])
}

// Whether the byte at a place touches a word or a number before it.
fn is_stray(text: &[u8], place: usize) -> bool
    requires { place < length text.now }
    ensures { result ≡ (touches (slice_index text.now place) && touches (before text.now place)) }
{
    touches(text[place]) && text[..place].last().is_some_and(|b| touches(*b))
}

// The sign at a place.
pub(crate) fn piece_at(text: &[u8], place: usize) -> Piece<'_>
    requires { place < length text.now }
    ensures { cut result ≡ sign_at place (before text.now place) (slice_index text.now place) (drop (place + 1) text.now) }
{
    let first = text[place];
    let rest = &text[place + 1..];
    if is_stray(text, place) {
        Piece::single(Sign::Stray)
    } else if first.is_ascii_lowercase() {
        first_word(&text[place..])
    } else if first.is_ascii_digit() {
        first_number(&text[place..])
    } else if first == b'"' {
        quote(place, rest)
    } else {
        mark(first, is_equals(rest))
    }
}
