//! Signs, keywords and tokens.
ghost use Rattle.std.specs.Prelude.{◌≡◌};
ghost use Rattle.std.specs.Option.{option_map};
ghost use Rattle.model.specs.Values.{find, same_bytes};
ghost use Rattle.grammar.specs.Reading.{is_closing, is_key, is_opening};
ghost use Rattle.grammar.specs.Signs.{all_keywords, spelling};
ghost use Rattle.signs.specs.Spoken.{keyword, said};

use cells::{Cause, Refusal, refused};
use conditions::Comparison;

// The words that the grammar keeps for itself.
#[derive(Clone, Copy, PartialEq, Eq)]
pub enum Keyword {
    And,
    As,
    Default,
    Drop,
    Join,
    Not,
    Or,
    Rename,
    Select,
}

// A sign. A word, a number and a text are parts of what is read; a quote that holds a byte that no text may hold, or is
// never closed, has the place at fault; a stray sign is one that the grammar has nowhere.
#[derive(Clone, Copy)]
pub enum Sign<'a> {
    Word(&'a [u8]),
    Number(&'a [u8]),
    Quoted(&'a [u8]),
    Key(Keyword),
    Comparing(Comparison),
    Opening,
    Closing,
    Stray,
    Broken(usize),
}

// A sign with the place of its first byte and the place behind it.
#[derive(Clone, Copy)]
pub struct Token<'a> {
    pub sign: Sign<'a>,
    pub place: usize,
    pub end: usize,
}

impl Keyword {
    const ALL: [Keyword; 9] = [
        Keyword::And,
        Keyword::As,
        Keyword::Default,
        Keyword::Drop,
        Keyword::Join,
        Keyword::Not,
        Keyword::Or,
        Keyword::Rename,
        Keyword::Select,
    ];

    fn spelling(self) -> &'static str
        ensures { result.now ≡ spelling (keyword self) }
    {
        match self {
            Keyword::And => "and",
            Keyword::As => "as",
            Keyword::Default => "default",
            Keyword::Drop => "drop",
            Keyword::Join => "join",
            Keyword::Not => "not",
            Keyword::Or => "or",
            Keyword::Rename => "rename",
            Keyword::Select => "select",
        }
    }

    fn is_spelt(self, word: &[u8]) -> bool
        ensures { result ≡ same_bytes word.now (spelling (keyword self)) }
    {
        word == self.spelling().as_bytes()
    }

    // The keyword that is spelt so, found among all as the grammar defines it.
    pub(crate) fn spelt(word: &[u8]) -> Option<Keyword>
        ensures { option_map keyword result ≡ find (λ k. same_bytes word.now (spelling k)) all_keywords }
    {
        Keyword::ALL.iter().copied().find(|k| k.is_spelt(word))
    }
}

impl Token<'_> {
    // The refusal of what is at fault at the sign.
    pub fn refuse(self, cause: Cause) -> Refusal
        ensures { result ≡ Refusal.Fault (record { cause = cause; kind = 0; place = self.entry.place }) }
    {
        refused(cause, 0, self.place)
    }
}

impl Sign<'_> {
    pub fn is_key(self, wanted: Keyword) -> bool
        ensures { result ≡ is_key (keyword wanted) (said self.entry) }
    {
        matches!(self, Sign::Key(k) if k == wanted)
    }

    pub fn is_opening(self) -> bool
        ensures { result ≡ is_opening (said self.entry) }
    {
        matches!(self, Sign::Opening)
    }

    pub fn is_closing(self) -> bool
        ensures { result ≡ is_closing (said self.entry) }
    {
        matches!(self, Sign::Closing)
    }
}
