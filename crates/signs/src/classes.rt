//! Bytes by their classes.
ghost use Rattle.std.specs.Prelude.{◌≡◌};
ghost use Rattle.grammar.specs.Signs.{touches};

// Whether the byte is a letter or a digit.
pub(crate) fn touches(b: u8) -> bool
    ensures { result ≡ touches b }
{
    b.is_ascii_lowercase() || b.is_ascii_digit()
}
