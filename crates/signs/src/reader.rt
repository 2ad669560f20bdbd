//! The reader over a text.
ghost use Rattle.std.specs.Prelude.{◌≡◌, ◌-◌, ◌≤◌, Bool, length};
ghost use Rattle.std.specs.Iterator.{at_most};
ghost use Rattle.grammar.specs.Reading.{is_key, is_opening};
ghost use Rattle.grammar.specs.Signs.{Sign as GrammarSign};
ghost use Rattle.signs.specs.Reached.{Tells, Next, Passed, Taken};
ghost use Rattle.signs.specs.Spoken.{keyword};

use crate::cutting::piece_at;
use crate::sign::{Keyword, Token};
use runs::split_run;

// The text, which is not copied, and the place reached in it.
#[derive(Clone, Copy)]
pub struct Reader<'a> {
    text: &'a [u8],
    at: usize,
    ghost inside: { at ≤ length text.now },
}

impl<'a> Reader<'a> {
    pub fn new(text: &'a [u8]) -> Reader<'a>
        ensures text { result.text.now ≡ text.now }
        ensures at { result.at ≡ 0 }
    {
        Reader { text, at: 0 }
    }

    // The length of the text.
    pub fn end(&self) -> usize
        ensures { result ≡ length self.now.text.now }
    {
        self.text.len()
    }

    // The next sign, if there is one.
    fn peek(&self) -> Option<Token<'a>>
        ensures { Next self.now.text.now self.now.at result }
    {
        let text = self.text;
        let (spaces, _) = split_run(&text[self.at..], |b| *b == b' ');
        let place = self.at + spaces.len();
        if place >= text.len() {
            return None;
        }
        let piece = piece_at(text, place);
        Some(Token {
            sign: piece.sign,
            place,
            end: place + 1 + piece.more,
        })
    }

    // Passes the next sign if it passes the test, and gives its place.
    fn take_if<F: FnOnce(&Token<'a>) -> bool>(&mut self, test: F) -> Option<usize>
        requires { F.IsAlwaysCallable test }
        ensures same { self.new.text ≡ self.old.text }
        ensures taken { (kind : GrammarSign → Bool) → Tells kind (F.post test) → Taken kind self.old.text.now self.old.at result self.new.at }
    {
        let token = self.peek().filter(test)?;
        self.at = token.end;
        Some(token.place)
    }

    // Passes the next sign if it is the keyword, and gives its place.
    pub fn take_key(&mut self, wanted: Keyword) -> Option<usize>
        ensures same { self.new.text ≡ self.old.text }
        ensures taken { Taken (is_key (keyword wanted)) self.old.text.now self.old.at result self.new.at }
    {
        self.take_if(|token| token.sign.is_key(wanted))
    }

    // Passes the next sign if it is an opening bracket, and gives its place.
    pub fn take_opening(&mut self) -> Option<usize>
        ensures same { self.new.text ≡ self.old.text }
        ensures taken { Taken is_opening self.old.text.now self.old.at result self.new.at }
    {
        self.take_if(|token| token.sign.is_opening())
    }
}

// The signs of the text from the place reached on, each of which is passed.
impl<'a> Iterator for Reader<'a> {
    type Item = Token<'a>;

    ghost next_gives = { λ r token s. (s.text ≡ r.text) × Passed r.text.now r.at token s.at };

    ghost remaining = { λ r. at_most (length r.text.now - r.at) };

    fn next(&mut self) -> Option<Token<'a>> {
        let token = self.peek()?;
        self.at = token.end;
        Some(token)
    }
}
