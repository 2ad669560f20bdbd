//! What a function gives for each item of a list.
ghost use Rattle.std.specs.Prelude.{IfOk, IsErrOf};
ghost use Rattle.std.specs.Fn.{FnReturnsAt};
ghost use Rattle.std.specs.List.{AllZip, Any};

use crate::unread::Unread;
use std::alloc::Global;

// What a function gives for each item, where it gives something for each.
pub(crate) fn each<T, U: Drop, F: Fn(&T) -> Option<U>>(
    heap: Global,
    items: &[T],
    give: F,
) -> Result<Vec<U>, Unread>
    requires { F.IsAlwaysCallable give }
    ensures all { IfOk result (λ v. AllZip (λ x u. FnReturnsAt F.Fn give x (Some u)) items.now v.items) }
    ensures malformed { IsErrOf result Unread.Malformed → Any (λ x. FnReturnsAt F.Fn give x None) items.now }
{
    // A loop, since of `try_collect` it is not known that it fails only where an item or memory does.
    let mut all = Vec::new(heap);
    for item in items {
        all.push(give(item).ok_or(Unread::Malformed)?)?;
    }
    Ok(all)
}
