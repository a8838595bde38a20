//! Lists are shifted in place, without memory; each item is moved at most twice.
ghost use Rattle.std.specs.Prelude.{◌≡◌, ◌+◌, ◌<◌, ◌≤◌, ◌++◌, length, drop, vec_len, vec_capacity, All};
ghost use Rattle.record_text.specs.Shifts.{shifted, put_at, first_after};
ghost use Rattle.run_engine.specs.Inputs.{FitsList};

use record_text::{Places, Shift};

/// The number of the first leaf after a shift, from the number before it.
pub(crate) fn first_of(shift: &Shift, first: u64) -> u64
    ensures { result ≡ first_after shift.now first }
{
    match shift {
        Shift::Slide {
            first,
            gone: _,
            places: _,
            fresh: _,
        } => *first,
        Shift::Splice {
            first: _,
            gone: _,
            fresh: _,
        } => first,
    }
}

/// Shifts a list, for which room was reserved before.
pub(crate) fn shift_items<X: Drop>(items: &mut Vec<X>, shift: &Shift, fresh: Vec<X>)
    requires fits { FitsList shift.now (vec_len items.old) (vec_len fresh) }
    requires room { vec_len items.old + vec_len fresh ≤ vec_capacity items.old }
    ensures { items.new.items ≡ shifted shift.now fresh.items items.old.items }
{
    match shift {
        Shift::Slide {
            first: _,
            gone,
            places,
            fresh: _,
        } => {
            remove_first(items, *gone);
            let fresh = put_each(items, places, fresh);
            append_all(items, fresh);
            return;
        }
        Shift::Splice {
            first,
            gone,
            fresh: _,
        } => {
            let behind = items.len() - (*first + *gone);
            items.rotate_left(*first + *gone);
            items.truncate(behind + *first);
            append_all(items, fresh);
            items.rotate_left(behind);
            return;
        }
    }
}

// Removes the first items.
fn remove_first<X: Drop>(items: &mut Vec<X>, count: usize)
    requires { count ≤ vec_len items.old }
    ensures items { items.new.items ≡ drop count items.old.items }
    ensures room { (vec_len items.new + count ≡ vec_len items.old) × (vec_capacity items.new ≡ vec_capacity items.old) }
{
    let rest = items.len() - count;
    items.rotate_left(count);
    items.truncate(rest);
}

// Puts the first of the fresh items in the places, and returns the others.
fn put_each<X: Drop>(items: &mut Vec<X>, places: &Places, mut fresh: Vec<X>) -> Vec<X>
    requires within { All (λ p. p < vec_len items.old) places.now }
    requires enough { length places.now ≤ vec_len fresh }
    ensures items { items.new.items ≡ put_at places.now fresh.items items.old.items }
    ensures rest { result.items ≡ drop (length places.now) fresh.items }
    ensures room { (vec_len items.new ≡ vec_len items.old) × (vec_capacity items.new ≡ vec_capacity items.old) }
{
    fresh.reverse();
    'places: for i in 0..places.len() {
        match fresh.pop() {
            Some(item) => items[places.get(i)] = item,
            None => unreachable!(),
        }
    }
    fresh.reverse();
    fresh
}

// Adds these items after the others, for which there is room.
fn append_all<X: Drop>(items: &mut Vec<X>, mut more: Vec<X>)
    requires { vec_len items.old + vec_len more ≤ vec_capacity items.old }
    ensures { items.new.items ≡ items.old.items ++ more.items }
{
    match items.append(&mut more) {
        Ok(()) => {}
        Err(_) => unreachable!(),
    }
}
