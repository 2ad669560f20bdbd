//! What is a word, and how words are made and read.
ghost use Rattle.std.specs.Prelude.{◌≡◌, IfOk};
ghost use Rattle.model.specs.Values.{any, every, same_bytes};
ghost use Rattle.model.specs.Words.{is_keyword, is_letter, is_name, is_word};
ghost use Rattle.cells.specs.Answering.{Answers};
ghost use Rattle.cells.specs.Worded.{letters, name_fault};

use super::Word;
use crate::faults::{Cause, Refusal};
use std::alloc::{AllocError, Global};

impl Word {
    pub fn new(heap: Global, bytes: &[u8]) -> Result<Word, Refusal>
        ensures { Answers (name_fault bytes.now) (λ w. letters w ≡ bytes.now) result }
    {
        match std::str::from_utf8(bytes) {
            Ok(s) if is_name(bytes) => {
                let text = String::from_str(heap, s)?;
                Ok(Word { text })
            }
            _ => Err(Refusal::of(Cause::Size)),
        }
    }

    pub fn is(&self, bytes: &[u8]) -> bool
        ensures { result ≡ same_bytes (letters self.now) bytes.now }
    {
        self.text.as_bytes() == bytes
    }

    pub fn as_bytes(&self) -> &[u8]
        ensures { result.now ≡ letters self.now }
    {
        self.text.as_bytes()
    }

    pub fn as_str(&self) -> &str
        ensures { result.now ≡ letters self.now }
    {
        self.text.as_str()
    }
}

impl Clone for Word {
    ghost is_clone = { λ w v. letters v ≡ letters w };

    fn clone(&self) -> Result<Word, AllocError> {
        let text = self.text.clone()?;
        Ok(Word { text })
    }
}

// A name is a word that is no keyword.
pub fn is_name(bytes: &[u8]) -> bool
    ensures { result ≡ is_name bytes.now }
{
    is_word(bytes) && !is_keyword(bytes)
}

// A word is 1 to 12 letters a to z.
pub fn is_word(bytes: &[u8]) -> bool
    ensures { result ≡ is_word bytes.now }
{
    (1..=12).contains(&bytes.len()) && are_letters(bytes)
}

fn are_letters(bytes: &[u8]) -> bool
    ensures { result ≡ every is_letter bytes.now }
{
    bytes.iter().all(|b| b.is_ascii_lowercase())
}

// The words that the grammar of definitions keeps for itself, as a list: what a keyword means is the reader's.
const KEYWORDS: [&str; 9] = [
    "and", "as", "default", "drop", "join", "not", "or", "rename", "select",
];

pub fn is_keyword(bytes: &[u8]) -> bool
    ensures { result ≡ is_keyword bytes.now }
{
    is_among(bytes, &KEYWORDS)
}

fn is_among(bytes: &[u8], words: &[&str]) -> bool
    ensures { result ≡ any (λ w. same_bytes bytes.now w.now) words.now }
{
    words.iter().any(|word| bytes == word.as_bytes())
}
