//! What each step shows the hand that makes it, and what dividing and joining hands does. These types are only for
//! proofs.
ghost use Rattle.worker_claims.specs.Rule.{claimed, gave, without_one, the_one, with, spent};

use crate::knowledge::View;
use atomic_table::{Join, Play, Split};

/// The hand gets the next number, with the task of that number if there is one.
pub struct Claim;

impl<T> Play<Option<T>, View<T>> for Claim {
    ghost then = { claimed };
}

/// The task returns to its place, and is noted as given by the hand.
pub struct Give;

impl<T> Play<Option<T>, View<T>> for Give {
    ghost then = { gave };
}

/// A hand is made.
pub struct Deal;

impl<T> Split<View<T>> for Deal {
    ghost left = { without_one };

    ghost right = { the_one };
}

/// A hand is joined into another.
pub struct Gather;

impl<T> Join<View<T>> for Gather {
    ghost both = { with };

    ghost spent = { spent };
}
