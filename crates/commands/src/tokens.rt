//! A line cut into tokens, which borrow it.
ghost use Rattle.std.specs.Prelude.{◌≡◌, ◌-◌, ◌≤◌, false, [], map, length};
ghost use Rattle.std.specs.Option.{option_map};
ghost use Rattle.commands.specs.Grammar.{Exact};
ghost use Rattle.commands.specs.Lists.{each as each_of};
ghost use Rattle.commands.specs.Lines.{bounded, is_quoted, lexeme, Leads, read, in_quotes, tokens_of, plain_word, texts, words_of};
ghost use Rattle.commands.specs.Lines.{command_word, arguments_of, first_line, later_lines};
ghost use Rattle.commands.specs.Readings.{ReadsAs};

use crate::lists::each;
use crate::unread::Unread;
use runs::split_run;
use std::alloc::Global;

// A text in quotes, by the bytes between them, or any other token.
#[derive(Clone, Copy)]
pub enum Token<'a> {
    Plain(&'a [u8]),
    Quoted(&'a [u8]),
}

impl<'a> Token<'a> {
    // The bytes of a plain token.
    fn plain(self) -> Option<&'a [u8]>
        ensures { option_map (λ w. w.now) result ≡ plain_word (lexeme self.entry) }
    {
        match self {
            Token::Plain(word) => Some(word),
            Token::Quoted(_) => None,
        }
    }
}

// What stands before the first space, and the rest from that space on.
pub fn split_command(line: &[u8]) -> (&[u8], &[u8])
    ensures { (result.0.now ≡ command_word line.now) × (result.1.now ≡ arguments_of line.now) }
{
    split_run(line, |b| *b != b' ')
}

// The first line of a text, and what stands behind its end.
pub fn split_line(text: &[u8]) -> (&[u8], &[u8])
    ensures line { result.0.now ≡ first_line text.now }
    ensures rest { result.1.now ≡ later_lines text.now }
    ensures shorter { length result.1.now ≤ length text.now - 1 }
{
    let (line, rest) = split_run(text, |b| *b != b'\n');
    match rest {
        [_, after @ ..] => (line, after),
        [] => (line, rest),
    }
}

// Whether a token may end before the text.
fn ends_token(text: &[u8]) -> bool
    ensures { result ≡ bounded text.now }
{
    matches!(text, [] | [b' ', ..])
}

// The token that the text begins with, and what stands behind it.
fn first_token(text: &[u8]) -> Option<(Token<'_>, &[u8])>
    requires { bounded text.now ≡ false }
    ensures { Leads (tokens_of text.now) text.now result }
{
    match text {
        [b'"', inner @ ..] => quoted_token(inner),
        _ => plain_token(text),
    }
}

fn quoted_token(inner: &[u8]) -> Option<(Token<'_>, &[u8])>
    ensures { Leads (read (in_quotes []) inner.now) inner.now result }
{
    let (held, after) = split_run(inner, |b| *b != b'"');
    let (_, rest) = after.split_first()?;
    ends_token(rest).then_some((Token::Quoted(held), rest))
}

fn plain_token(text: &[u8]) -> Option<(Token<'_>, &[u8])>
    requires { (is_quoted text.now ≡ false) × (bounded text.now ≡ false) }
    ensures { Leads (tokens_of text.now) text.now result }
{
    let (word, rest) = split_run(text, |b| b.is_ascii_graphic() && *b != b'"');
    (!word.is_empty() && ends_token(rest)).then_some((Token::Plain(word), rest))
}

// The tokens of a text.
pub fn tokens<'a>(heap: Global, text: &'a [u8]) -> Result<Vec<Token<'a>>, Unread>
    ensures { ReadsAs result (λ v. map lexeme v.items) (tokens_of text.now) }
{
    // A loop, since only a token's end shows where the next may begin.
    let mut all = Vec::new(heap);
    let mut rest = text;
    while let Some((first, others)) = rest.split_first() {
        if *first == b' ' {
            rest = others;
        } else {
            let (token, after) = first_token(rest).ok_or(Unread::Malformed)?;
            all.push(token)?;
            rest = after;
        }
    }
    Ok(all)
}

// The tokens of a text, where all are plain.
pub fn words<'a>(heap: Global, text: &'a [u8]) -> Result<Vec<&'a [u8]>, Unread>
    ensures { ReadsAs result (λ v. texts v.items) (words_of text.now) }
{
    let tokens = tokens(heap, text)?;
    plain_words(heap, tokens.as_slice())
}

// The bytes of tokens that are all plain.
fn plain_words<'a>(heap: Global, tokens: &[Token<'a>]) -> Result<Vec<&'a [u8]>, Unread>
    ensures { ReadsAs result (λ v. texts v.items) (each_of plain_word (map lexeme tokens.now)) }
{
    each(heap, tokens, |token| token.plain())
}

// The tokens of a text are those of the grammar: the reader finds them all, and finds no others.
pub fn finds_the_tokens()
    ensures { Exact }
{}
