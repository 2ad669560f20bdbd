//! Runs: the items at the front of a list that pass a test.
#![tactic(auto)]

ghost use Rattle.std.specs.Prelude.{◌≡◌, ◌++◌, Bool};
ghost use Rattle.model.specs.Values.{front, behind};
ghost use Rattle.runs.specs.Calls.{Computes};

// The longest front whose items all pass a test, and what stands behind it.
pub fn split_run<T, F: Fn(&T) -> bool>(items: &[T], test: F) -> (&[T], &[T])
    requires { F.IsAlwaysCallable test }
    ensures whole { items.now ≡ result.0.now ++ result.1.now }
    ensures front { (p : T → Bool) → Computes F.Fn test p → result.0.now ≡ front p items.now }
    ensures behind { (p : T → Bool) → Computes F.Fn test p → result.1.now ≡ behind p items.now }
{
    let end = items.iter().position(|x| !test(x)).unwrap_or(items.len());
    items.split_at(end)
}

#[cfg(test)]
mod tests;
