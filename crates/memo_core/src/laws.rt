//! Laws of every legal history. The functions do nothing: a caller gets the law by the call.
ghost use Rattle.std.specs.Prelude.{◌≡◌, List, Some};
ghost use Rattle.memo_core.specs.declared.event.Event.{Event};
ghost use Rattle.memo_core.specs.declared.state.CoreState.{CoreState};
ghost use Rattle.memo_core.specs.Machine.{replayed};
ghost use Rattle.memo_core.specs.Laws.{PinnedIsLive, GivenBeforeReleased, IdsOnce, SweepExact, AbsentExact, LiveHasSaidDigest};

/// An id that a caller holds is live, with exactly as many pins of that caller as it holds.
pub fn pinned_is_live()
    ensures { (events : List Event) (s : CoreState) → replayed events ≡ Some s → PinnedIsLive events s }
{}

/// A caller releases no more pins of an id than it was given.
pub fn given_before_released()
    ensures { (events : List Event) (s : CoreState) → replayed events ≡ Some s → GivenBeforeReleased events }
{}

/// An id is stored by at most one event and is below the next id, and no two live entries share an id or a digest.
pub fn ids_once()
    ensures { (events : List Event) (s : CoreState) → replayed events ≡ Some s → IdsOnce events s }
{}

/// A sweep takes a live entry away exactly if no caller holds it and each run that stored, hit or found it is below the
/// horizon.
pub fn sweep_exact()
    ensures { (events : List Event) (s : CoreState) → replayed events ≡ Some s → SweepExact events s }
{}

/// A look may answer `Absent` exactly if each id that was stored with the digest was taken away by a sweep.
pub fn absent_exact()
    ensures { (events : List Event) (s : CoreState) → replayed events ≡ Some s → AbsentExact events s }
{}

/// A live entry has the digest that any event said of its id.
pub fn live_digest()
    ensures { (events : List Event) (s : CoreState) → replayed events ≡ Some s → LiveHasSaidDigest events s }
{}
