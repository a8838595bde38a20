//! A shard: live entries by digest, and the history that made them.
ghost use Rattle.std.specs.Prelude.{◌≡◌, ℕ, ◌<◌, ◌-◌, ◌^◌, ◌++◌, ◌∷◌, [], OnOk, OnErr, IfOk, IfErr, Some, None, length, true};
ghost use Rattle.std.specs.List.{list_any};
ghost use Rattle.memo_server.specs.Views.{live_view, entry_view};
ghost use Rattle.memo_server.specs.declared.turn.Turn.TheVariants.{Empty};

use crate::answers::{ShardKeep, ShardLook};
use crate::live::Live;
use crate::live_entries::LiveEntries;
use crate::log::Log;
use crate::met::{Asked, Meeting};
use crate::recipe::Recipe;
use crate::shared_entry::SharedEntry;
use memo_core::{Event, KeepAnswer, LookAnswer, Pins};
use std::alloc::{AllocError, Global};
use std::marker::Model;

/// Live entries by digest, in the order of making, and the history that made them. Each call adds the event that its
/// answer names, and the history replays to the entries. Room for the release of every pin is taken before the pin is
/// given, so a release takes no memory.
#[derive(Drop)]
pub struct Shard<R: Recipe> {
    alloc: Global,
    live: LiveEntries<R>,
    next: u64,
    pins: usize,
    log: Log,
}

impl<R: Recipe> Model for Shard<R> {
    ghost use Rattle.memo_server.specs.Shards.{ShardView, ShardFits};

    ghost Value = { ShardView R.In R.Out };

    ghost view = { λ s. record { live = s.live; next = s.next; history = s.log.history; turns = s.log.turns } };

    ghost invariant = { λ s. ShardFits R.digest_of s.pins s.log.spare (record { live = s.live; next = s.next; history = s.log.history; turns = s.log.turns }) };
}

impl<R: Recipe> Shard<R> {
    ghost use Rattle.std.specs.Prelude.{◌≡◌, ◌<◌, ◌^◌, IfOk, OnErr};
    ghost use Rattle.memo_core.specs.Machine.{replayed, has_pin};
    ghost use Rattle.memo_server.specs.Calls.{AddsOnly, AddsAt, Meets, Stores, LookGives, KeepGives, SweepGives};
    ghost use Rattle.memo_server.specs.Histories.{events};
    ghost use Rattle.memo_server.specs.Views.{LiveView, found, released_view, core_entries, core_state};

    /// A shard without entries and without a history.
    pub fn new(alloc: Global) -> Shard<R>
        ensures { (result.live ≡ []) × (result.next ≡ 0) × (result.history ≡ []) × (result.turns ≡ []) }
    {
        Shard {
            alloc,
            live: LiveEntries::new(alloc),
            next: 0,
            pins: 0,
            log: Log::new(alloc),
        }
    }

    /// The events of its calls, in order.
    pub fn history(&self) -> &[Event]
        ensures is { result.now ≡ self.now.history }
        ensures of { events self.now.turns ≡ self.now.history }
        ensures replays { replayed self.now.history ≡ Some (core_state self.now.live self.now.next) }
    {
        self.log.events()
    }

    /// The id of the next stored entry. `keep` requires that it is below 2^64 - 1.
    pub fn next(&self) -> u64
        ensures { result ≡ self.now.next }
    {
        self.next
    }

    /// Whether the caller has a pin on the entry of the id, which `release` requires. One walk over the entries.
    pub fn has_pin(&self, caller: u64, id: u64) -> bool
        ensures { result ≡ list_any (has_pin caller id) (core_entries self.now.live) }
    {
        self.live.has_pin(caller, id)
    }

    /// Looks for the entry of an input. `Hit` gives the caller one more pin on it and raises its last run to `run`. One
    /// search by digest and one comparison of inputs. It fails only out of memory, and then nothing changes.
    pub fn look(&mut self, caller: u64, run: u64, input: R::In) -> Result<ShardLook<R>, AllocError>
        ensures answer { IfOk result (λ answer. LookGives R.fits R.digest_of self.old caller run input answer self.new) }
        ensures err { OnErr result (self.new ≡ self.old) }
    {
        let digest = R::digest(&input);
        match self.meet(Asked::Look, caller, run, digest, &input) {
            Ok(Meeting::Same(entry)) => Ok(ShardLook::Hit(entry)),
            Ok(Meeting::Other(entry)) => Ok(ShardLook::Clash(entry)),
            Ok(Meeting::Missing) => match self.note_absent(caller, run, digest) {
                Ok(()) => Ok(ShardLook::Absent),
                Err(e) => Err(e),
            },
            Err(e) => Err(e),
        }
    }

    /// Keeps a result for its input, if no live entry has the input's digest. The caller gets a pin on what is `Stored`
    /// or `Found`. One insertion. It fails only out of memory; then nothing changes, and input and result come back.
    pub fn keep(
        &mut self,
        caller: u64,
        run: u64,
        input: R::In,
        out: R::Out,
    ) -> Result<ShardKeep<R>, (AllocError, R::In, R::Out)>
        requires fits { R.fits input out }
        requires next { self.old.next < 2 ^ 64 - 1 }
        ensures answer { IfOk result (λ answer. KeepGives R.fits R.digest_of self.old caller run input out answer self.new) }
        ensures back { IfErr result (λ e. (e.1 ≡ input) × (e.2 ≡ out)) }
        ensures err { OnErr result (self.new ≡ self.old) }
    {
        let digest = R::digest(&input);
        match self.meet(Asked::Keep, caller, run, digest, &input) {
            Ok(Meeting::Same(entry)) => Ok(ShardKeep::Found(entry)),
            Ok(Meeting::Other(entry)) => Ok(ShardKeep::Clash(entry, input, out)),
            Ok(Meeting::Missing) => match self.store(caller, run, digest, input, out) {
                Ok(entry) => Ok(ShardKeep::Stored(entry)),
                Err(back) => Err(back),
            },
            Err(e) => Err((e, input, out)),
        }
    }

    /// Releases one pin of the caller. A binary search by id; it takes no memory.
    pub fn release(&mut self, caller: u64, id: u64)
        requires { list_any (has_pin caller id) (core_entries self.old.live) ≡ true }
        ensures { AddsAt id (released_view caller) (Event.Release caller id) self.old self.new }
    {
        let place = self.live.place_of(id);
        self.live.release(place, caller);
        self.pins -= 1;
        self.log.add(Event::Release { caller, id });
    }

    /// Drops the entries without pins that were last used below the horizon, and returns how many. One walk. It fails
    /// only out of memory, and then nothing changes.
    pub fn sweep(&mut self, caller: u64, horizon: u64) -> Result<u64, AllocError>
        ensures answer { IfOk result (λ dropped. SweepGives caller horizon dropped self.old self.new) }
        ensures err { OnErr result (self.new ≡ self.old) }
    {
        self.log.reserve(self.pins, 1)?;
        let before = self.live.len();
        self.live.sweep(horizon);
        let dropped = (before - self.live.len()) as u64;
        self.log.add(Event::Sweep {
            caller,
            horizon,
            dropped,
        });
        Ok(dropped)
    }

    // A turn that ran out of memory. Takes no memory.
    pub(crate) fn note_empty(&mut self)
        requires { length self.old.turns < 2 ^ 63 }
        ensures turns { self.new.turns ≡ self.old.turns ++ Empty ∷ [] }
        ensures same { (self.new.history ≡ self.old.history) × (self.new.live ≡ self.old.live) × (self.new.next ≡ self.old.next) }
    {
        self.log.note_empty();
    }

    // Meets the entry that has the digest and adds the event of the call; without such an entry it adds none.
    fn meet(
        &mut self,
        asked: Asked,
        caller: u64,
        run: u64,
        digest: [u8; 32],
        input: &R::In,
    ) -> Result<Meeting<R>, AllocError>
        requires { digest ≡ R.digest_of input.now }
        ensures answer { IfOk result (λ met. Meets R.fits R.digest_of self.old asked caller run input.now met self.new) }
        ensures err { OnErr result (self.new ≡ self.old) }
    {
        let Some(place) = self.live.find(&digest) else {
            return Ok(Meeting::Missing);
        };
        self.log.reserve(self.pins, 2)?;
        let entry = self.live.share(place)?;
        let id = entry.id();
        if !R::same(entry.input(), input) {
            self.log.add(asked.other_event(caller, run, digest, id));
            return Ok(Meeting::Other(entry));
        }
        self.live.pin(place, caller, run)?;
        self.pins += 1;
        self.log.add(asked.same_event(caller, run, digest, id));
        Ok(Meeting::Same(entry))
    }

    // The event of a look that found nothing.
    fn note_absent(&mut self, caller: u64, run: u64, digest: [u8; 32]) -> Result<(), AllocError>
        requires { found digest self.old.live ≡ None }
        ensures ok { OnOk result (AddsOnly (Event.Look caller run digest LookAnswer.Absent) self.old self.new) }
        ensures err { OnErr result (self.new ≡ self.old) }
    {
        self.log.reserve(self.pins, 1)?;
        self.log.add(Event::Look {
            caller,
            run,
            digest,
            answer: LookAnswer::Absent,
        });
        Ok(())
    }

    // Stores a new entry. The shard keeps a copy, so that out of memory it can hand the input and the result back.
    fn store(
        &mut self,
        caller: u64,
        run: u64,
        digest: [u8; 32],
        input: R::In,
        out: R::Out,
    ) -> Result<SharedEntry<R>, (AllocError, R::In, R::Out)>
        requires digest { digest ≡ R.digest_of input }
        requires absent { found digest self.old.live ≡ None }
        requires fits { R.fits input out }
        requires next { self.old.next < 2 ^ 64 - 1 }
        ensures ok { IfOk result (λ s. Stores R.fits digest caller run input out s self.old self.new) }
        ensures back { IfErr result (λ e. (e.1 ≡ input) × (e.2 ≡ out)) }
        ensures err { OnErr result (self.new ≡ self.old) }
    {
        if let Err(e) = self.log.reserve(self.pins, 2) {
            return Err((e, input, out));
        }
        let own = match copied(self.alloc, self.next, caller, run, &input, &out) {
            Ok(own) => own,
            Err(e) => return Err((e, input, out)),
        };
        if let Err(e) = self.live.push(digest, own) {
            return Err((e, input, out));
        }
        let id = self.next;
        let entry = match SharedEntry::new(self.alloc, id, input, out) {
            Ok(entry) => entry,
            Err(back) => {
                self.live.pop();
                return Err(back);
            }
        };
        self.next += 1;
        self.pins += 1;
        self.log.add(Event::Keep {
            caller,
            run,
            digest,
            answer: KeepAnswer::Stored(id),
        });
        Ok(entry)
    }
}

// A live entry of copies, held by the caller.
fn copied<R: Recipe>(
    alloc: Global,
    id: u64,
    caller: u64,
    run: u64,
    input: &R::In,
    out: &R::Out,
) -> Result<Live<R>, AllocError>
    requires { R.fits input.now out.now }
    ensures { IfOk result (λ own. (copy : R.Out) × R.fits input.now copy × (own ≡ live_view (entry_view id input.now copy) run (caller ∷ []))) }
{
    let input_copy = R::share_in(alloc, input)?;
    let out_copy = R::share_out(alloc, out)?;
    let pins = Pins::one(alloc, caller)?;
    match SharedEntry::new(alloc, id, input_copy, out_copy) {
        Ok(shared) => Ok(Live::new(shared, run, pins)),
        Err((e, _, _)) => Err(e),
    }
}
