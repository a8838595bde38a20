//! What each kind of buckets allows, and the steps over a deque of buckets.
ghost use Rattle.std.specs.Prelude.{ℕ, List, ◌≡◌, ◌≤◌, ◌<◌, ◌+◌, length, drop};
ghost use Rattle.definitions.specs.Limits.{most_text};
ghost use Rattle.record_text.specs.declared.command.Command.TheVariants.{Drop, Late};
ghost use Rattle.std.specs.VecDeque.{deque_capacity};
ghost use Rattle.window_manager.specs.Windows.{has_command, is_circle};
ghost use Rattle.window_manager.specs.Buckets.{leaving, text_size};

use record_text::{Bundle, Kind};
use std::collections::VecDeque;

/// Whether a kind drops its oldest leaf for a new one.
pub fn is_circle(kind: Kind) -> bool
    ensures { result ≡ is_circle kind }
{
    match kind {
        Kind::Circle => true,
        Kind::Buckets | Kind::Growing | Kind::Document => false,
    }
}

/// Whether a kind has the command `drop`.
pub fn takes_drop(kind: Kind) -> bool
    ensures { (n : ℕ) → has_command kind (Drop n) ≡ result }
{
    match kind {
        Kind::Buckets => true,
        Kind::Circle | Kind::Growing | Kind::Document => false,
    }
}

/// Whether a kind has the command `late`.
pub fn takes_late(kind: Kind) -> bool
    ensures { (place : ℕ) (more : List (List ℕ)) → has_command kind (Late place more) ≡ result }
{
    match kind {
        Kind::Buckets | Kind::Circle => true,
        Kind::Growing | Kind::Document => false,
    }
}

/// How many leaves go when a new one comes after `count`.
pub fn leaving(kind: Kind, places: u32, count: usize) -> usize
    requires { 1 ≤ places }
    ensures leaves { result ≡ leaving kind places count }
    ensures within { result ≤ count }
    ensures one { result ≤ 1 }
{
    if is_circle(kind) && places as usize <= count {
        return 1;
    }
    0
}

/// How many bytes of text the first leaves have.
pub fn text_of_oldest(leaves: &VecDeque<Bundle>, n: usize) -> u64
    requires within { n ≤ length leaves.now.items }
    requires small { text_size leaves.now.items ≤ most_text }
    ensures { result + text_size (drop n leaves.now.items) ≡ text_size leaves.now.items }
{
    let mut size = 0;
    'leaves: for i in 0..n {
        size += leaves[i].records().text_len();
    }
    size
}

/// Drops the first leaves.
pub fn forget_oldest(leaves: &mut VecDeque<Bundle>, n: usize)
    requires { n ≤ length leaves.old.items }
    ensures items { leaves.new.items ≡ drop n leaves.old.items }
    ensures room { deque_capacity leaves.new ≡ deque_capacity leaves.old }
{
    'leaves: for _ in 0..n {
        match leaves.pop_front() {
            Some(_) => (),
            None => unreachable!(),
        }
    }
}
