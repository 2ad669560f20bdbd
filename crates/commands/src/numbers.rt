//! Numbers and hexadecimal pairs.
ghost use Rattle.std.specs.Prelude.{◌≡◌};
ghost use Rattle.std.specs.Str.{all_ascii_digits};
ghost use Rattle.commands.specs.Spelling.{numeral, hex_digit, hex_pair};

fn is_digits(word: &[u8]) -> bool
    ensures { result ≡ all_ascii_digits word.now }
{
    word.iter().all(|b| b.is_ascii_digit())
}

// The number that 1 to 10 digits write, if it is at most `limit`.
pub fn number(word: &[u8], limit: u32) -> Option<u32>
    ensures { result ≡ numeral limit word.now }
{
    if word.len() > 10 || !is_digits(word) {
        return None;
    }
    let n = std::str::from_utf8(word).ok()?.parse::<u32>().ok()?;
    (n <= limit).then_some(n)
}

fn hex_digit(b: u8) -> Option<u8>
    ensures { result ≡ hex_digit b }
{
    char::from(b).to_digit(16).map(|d| d as u8)
}

// The byte that two hexadecimal digits write.
pub fn hex_pair(word: &[u8]) -> Option<u8>
    ensures { result ≡ hex_pair word.now }
{
    let &[high, low] = word else {
        return None;
    };
    let h = hex_digit(high)?;
    let l = hex_digit(low)?;
    Some(h * 16 + l)
}
