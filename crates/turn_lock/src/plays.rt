//! What each step shows the pass that makes it, and what dividing and joining passes does. These types are only for
//! proofs.
ghost use Rattle.turn_lock.specs.Rule.{checked, drew, looked, passed, without_one, the_one, with, spent};

use crate::knowledge::View;
use crate::state::Turns;
use atomic_table::{Join, Play, Split};
use std::marker::PhantomData;

pub struct Check<T> {
    marker: PhantomData<T>,
}

impl<T: Turns> Play<Option<T>, View<T::Entry>> for Check<T> {
    ghost then = { checked T.history };
}

pub struct Draw<T> {
    marker: PhantomData<T>,
}

impl<T: Turns> Play<Option<T>, View<T::Entry>> for Draw<T> {
    ghost then = { drew T.history };
}

pub struct Look<T> {
    marker: PhantomData<T>,
}

impl<T: Turns> Play<Option<T>, View<T::Entry>> for Look<T> {
    ghost then = { looked T.history T.whose };
}

pub struct PassOn<T> {
    marker: PhantomData<T>,
}

impl<T: Turns> Play<Option<T>, View<T::Entry>> for PassOn<T> {
    ghost then = { passed T.history T.whose };
}

pub struct Deal;

impl<E> Split<View<E>> for Deal {
    ghost left = { without_one };

    ghost right = { the_one };
}

pub struct Gather;

impl<E> Join<View<E>> for Gather {
    ghost both = { with };

    ghost spent = { spent };
}
