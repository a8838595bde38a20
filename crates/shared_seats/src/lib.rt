//! Laws of the seats of an atomic table, whatever the seats know: sums over their views, one seat divided into two, and
//! two joined.
//!
//! For proofs only: the functions do nothing, and no code here runs. `turn_lock` and `worker_claims` each have a rule
//! over the views of their seats; that dividing and joining seats loses and doubles nothing is proved here once, in
//! `proofs/Seats.antt` and `proofs/Lists.antt`. The functions state the main laws.
#![tactic(auto)]

ghost use Rattle.std.specs.Prelude.{◌≡◌, ◌≢◌, ℕ, ◌+◌, ◌≤◌, List};
ghost use mathlib.Core.Option.{some};
ghost use lib.ListN.{get_elem?};
ghost use Rattle.shared_seats.specs.Seats.{total, divided, joined};

/// Dividing a seat changes a sum by what the two new views have beyond the old one, and leaves every other view in its
/// place.
pub fn seats_divide<V>()
    ensures total { (f : V → ℕ) (views : List V) (id : ℕ) (v left right : V) → get_elem? views id ≡ some v → total f (divided views id left right) + f v ≡ total f views + (f left + f right) }
    ensures others { (views : List V) (id k : ℕ) (v left right u : V) → get_elem? views id ≡ some v → k ≢ id → get_elem? views k ≡ some u → get_elem? (divided views id left right) k ≡ some u }
{}

/// Joining two seats changes a sum by what the joined view and the spent one have beyond the two old ones, and leaves
/// every other view in its place.
pub fn seats_join<V>()
    ensures total { (f : V → ℕ) (views : List V) (id other : ℕ) (v w both spent : V) → get_elem? views id ≡ some v → get_elem? views other ≡ some w → other ≢ id → total f (joined views id other both spent) + (f v + f w) ≡ total f views + (f both + f spent) }
    ensures others { (views : List V) (id other k : ℕ) (v w both spent u : V) → get_elem? views id ≡ some v → get_elem? views other ≡ some w → other ≢ id → k ≢ id → k ≢ other → get_elem? views k ≡ some u → get_elem? (joined views id other both spent) k ≡ some u }
{}

/// Two seats have at most what all seats have together.
pub fn two_seats_share<V>()
    ensures { (f : V → ℕ) (views : List V) (i j : ℕ) (v w : V) → get_elem? views i ≡ some v → get_elem? views j ≡ some w → j ≢ i → f v + f w ≤ total f views }
{}
