//! A stretch of a list is replaced in place, in room that was reserved before.
ghost use Rattle.std.specs.Prelude.{◌≡◌, ◌++◌, ◌+◌, ◌-◌, ◌<◌, ◌≤◌, length, take, drop, vec_len, vec_capacity};

/// Replaces the `gone` items from `first` on by the fresh ones, and moves the replaced ones to the end. It takes no
/// memory, and moves what comes after `first`.
pub(crate) fn replace<T: Drop>(list: &mut Vec<T>, first: usize, gone: usize, fresh: &mut Vec<T>)
    requires within { first + gone ≤ length list.old.items }
    requires room { length list.old.items + length fresh.old.items ≤ vec_capacity list.old }
    ensures items { list.new.items ≡ (take first list.old.items ++ (fresh.old.items ++ drop (first + gone) list.old.items)) ++ take gone (drop first list.old.items) }
    ensures fresh { length fresh.new.items ≡ 0 }
{
    let kept = list.len() - (first + gone);
    if list.append(fresh).is_err() {
        unreachable!()
    }
    turn(list, first + gone, kept);
    turn(list, first, gone);
}

// The items from `from` on, turned left by `by`.
fn turn<T>(list: &mut Vec<T>, from: usize, by: usize)
    requires { from + by ≤ length list.old.items }
    ensures items { list.new.items ≡ take from list.old.items ++ (drop by (drop from list.old.items) ++ take by (drop from list.old.items)) }
{
    list.as_mut_slice()[from..].rotate_left(by);
}
