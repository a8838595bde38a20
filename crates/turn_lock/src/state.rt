//! The state behind the lock: its operations, and its history, which has an entry of each turn.
ghost use Rattle.std.specs.Prelude.{◌≡◌, ℕ, ◌<◌, ◌^◌, ◌⊎◌, List, [], ◌∷◌, ◌++◌, length, Option, Some, None};
ghost use Rattle.turn_lock.specs.Under.{under};

/// A state that changes by turns and keeps an entry of each.
pub trait Turns {
    /// The operations.
    type Op;

    /// The replies.
    type Reply;

    /// The entries of its history. Only proofs use them.
    type Entry;

    // The entries that the state keeps, the oldest first.
    ghost history: { Self → List Self.Entry };
    // The number under which an entry is, if any.
    ghost whose: { Self.Entry → Option ℕ };
    // An entry says which operation a turn asked for, and its reply.
    ghost answers: { Self.Entry → Self.Op → Self.Reply → Type 0 };
    // The operation is allowed for a pass with these entries under its number.
    ghost may: { List Self.Entry → Self.Op → Type 0 };
    // Holds of every history that a turn leaves.
    ghost legal: { List Self.Entry → Type 0 };

    /// Plays one turn under the number `who`, which adds one entry at the end of the history.
    fn play(&mut self, who: u64, op: Self::Op) -> Self::Reply
        requires room { length (history self.old) < 2 ^ 63 }
        requires may { may (under whose who (history self.old)) op }
        ensures history { (e : Self.Entry) × (history self.new ≡ history self.old ++ e ∷ []) × answers e op result × ((whose e ≡ Some who) ⊎ (whose e ≡ None)) }
        ensures legal { legal (history self.new) };
}
