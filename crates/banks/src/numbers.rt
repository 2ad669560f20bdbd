//! Numbers in groups of seven bits, the highest group first.
ghost use Rattle.std.specs.Prelude.{◌≡◌, ◌≤◌, ◌++◌, Some, None, MatchOption, OnOk};
ghost use Rattle.model.specs.Banks.{find_number, groups};
ghost use Rattle.model.specs.Sorts.{greatest};

use std::alloc::AllocError;

// the most groups of a number
const GROUPS: usize = 4;

// The number at the front of the bytes, and the bytes after it.
pub(crate) fn number(bytes: &[u8]) -> Option<(u32, &[u8])>
    ensures { MatchOption result (find_number bytes.now ≡ None) (λ p. find_number bytes.now ≡ Some (p.0, p.1.now)) }
{
    if let [128, ..] = bytes {
        return None;
    }
    let mut n = 0;
    let mut rest = bytes;
    for _ in 0..GROUPS {
        let (group, after) = rest.split_first()?;
        n = n * 128 + u32::from(*group % 128);
        rest = after;
        if *group < 128 {
            return Some((n, rest));
        }
    }
    None
}

// Adds the groups of a number.
pub(crate) fn put_number(out: &mut Vec<u8>, n: u32) -> Result<(), AllocError>
    requires { n ≤ greatest }
    ensures { OnOk result (out.new.items ≡ out.old.items ++ groups n) }
{
    for unit in [128 * 128 * 128, 128 * 128, 128] {
        if n >= unit {
            out.push((128 + n / unit % 128) as u8)?;
        }
    }
    out.push((n % 128) as u8)?;
    Ok(())
}
