//! What a caller may rely on from turn to turn. The functions do nothing: a caller gets the law by the call.
ghost use Rattle.pin_table.specs.Lasting.{TurnKeeps, HeldFollows, HeldIsLive, HeldIsFound, AnswersAreExact};

/// After a turn of its own a caller still knows a legal history, with its own events in order.
pub fn turns_keep()
    ensures { TurnKeeps }
{}

/// The number of pins of an id that a caller holds rises with each Hit, Stored and Found of its own, falls with each
/// Release of its own, and does not change otherwise.
pub fn held_follows()
    ensures { HeldFollows }
{}

/// An id that a caller holds is live in all that it has seen, with exactly as many pins of the caller as it holds.
pub fn held_is_live()
    ensures { HeldIsLive }
{}

/// A look for the input of an entry that the caller holds does not return Absent, nor a keep of it Stored.
pub fn held_is_found()
    ensures { HeldIsFound }
{}

/// A look returns Absent, and a keep Stored, exactly if no live entry has the digest in the state before the call;
/// every other answer has the id of the live entry that has it.
pub fn answers_are_exact()
    ensures { AnswersAreExact }
{}
