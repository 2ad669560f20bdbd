//! The parser of a text, and the next sign as a value.
ghost use Rattle.std.specs.Prelude.{◌≡◌, Bool};
ghost use Rattle.grammar.specs.Signs.{Sign as GrammarSign};
ghost use Rattle.reader.specs.Parsing.{Asked, Begins, Ends, Expects, Onward, Tells, Wanted};

use cells::{Cause, Refusal, refused};
use signs::{Reader, Sign, Token};
use std::alloc::Global;

const LONGEST: usize = 256;

// The reader over the text, and where phrases are made.
#[derive(Drop)]
pub(crate) struct Parser<'a> {
    pub(crate) reader: Reader<'a>,
    pub(crate) heap: Global,
}

impl<'a> Parser<'a> {
    // A parser at the first sign of a text that is not too long.
    pub(crate) fn new(heap: Global, text: &'a [u8]) -> Result<Parser<'a>, Refusal>
        ensures { Begins text.now result }
    {
        if text.len() > LONGEST {
            return Err(refused(Cause::Size, 0, LONGEST));
        }
        let reader = Reader::new(text);
        Ok(Parser { reader, heap })
    }

    // The next sign, where one is wanted.
    fn wanted(&mut self) -> Result<Token<'a>, Refusal>
        ensures onward { Onward self.old self.new }
        ensures wanted { Wanted self.old result self.new }
    {
        let end = self.reader.end();
        self.reader.next().ok_or(refused(Cause::Grammar, 0, end))
    }

    // The next sign, as what it is judged to be.
    pub(crate) fn next<T, F: FnOnce(Token<'a>) -> Result<T, Refusal>>(
        &mut self,
        judge: F,
    ) -> Result<T, Refusal>
        requires { (token : _) → F.pre judge token }
        ensures onward { Onward self.old self.new }
        ensures asked { Asked (F.post judge) self.old result self.new }
    {
        let token = self.wanted()?;
        judge(token)
    }

    // The next sign has to pass a test.
    pub(crate) fn expect<F: FnOnce(Sign<'a>) -> bool>(&mut self, test: F) -> Result<(), Refusal>
        requires { (sign : _) → F.pre test sign }
        ensures onward { Onward self.old self.new }
        ensures next { (kind : GrammarSign → Bool) → Tells kind (F.post test) → Expects kind self.old result self.new }
    {
        let token = self.wanted()?;
        if test(token.sign) {
            Ok(())
        } else {
            Err(token.refuse(Cause::Grammar))
        }
    }

    // No sign may follow.
    pub(crate) fn end(&mut self) -> Result<(), Refusal>
        ensures { Ends self.old result }
    {
        match self.reader.next() {
            Some(token) => Err(token.refuse(Cause::Grammar)),
            None => Ok(()),
        }
    }
}
