//! Digits at the front of texts.
use crate::split_run;

#[test]
fn digits(rt: HostRuntime) {
    for (text, front, behind) in [
        ("", "", ""),
        ("a1", "", "a1"),
        ("12a3", "12", "a3"),
        ("123", "123", ""),
    ] {
        let (digits, rest) = split_run(text.as_bytes(), |b| b.is_ascii_digit());
        assert!(rt;
            digits == front.as_bytes() && rest == behind.as_bytes(),
            "{}",
            text
        );
    }
}
