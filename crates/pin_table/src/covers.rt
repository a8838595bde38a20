//! How an object that holds pins of one caller shows that they stay covered. The functions do nothing: a caller gets
//! the law by the call, a proof by the lemma of the same meaning in `proofs/Covering.antt` or `proofs/Answering.antt`.
ghost use Rattle.std.specs.Prelude.{◌≡◌, ℕ, ◌<◌, List, [], ◌∷◌, ◌++◌};
ghost use Rattle.memo_core.specs.declared.event.Event.TheVariants.{Release, Sweep};
ghost use Rattle.pin_table.specs.Views.{CallerView};
ghost use Rattle.pin_table.specs.Known.{CallerFits, Gained, WornOut, AtShard, held_at};
ghost use Rattle.pin_table.specs.Answers.{Faults, Looks, Keeps};
ghost use Rattle.pin_table.specs.Covers.{PinName, count, AreGiven, Covered, Got, Balanced, Backed, looked_pins, kept_pins};
ghost use Rattle.pin_table.specs.declared.answers.Looked.{Looked};
ghost use Rattle.pin_table.specs.declared.answers.Kept.{Kept};
ghost use Rattle.pin_table.specs.declared.answers.MemoFault.{MemoFault};

use memo_server::Recipe;

/// Balances of calls one after another, and in addition to pins that stay, are balances; a balance keeps a cover once
/// the new pins are given.
pub fn balances_add_up()
    ensures follow { (u v w : CallerView) (ps qs rs : List PinName) → Balanced u ps v qs → Balanced v qs w rs → Balanced u ps w rs }
    ensures beside { (v w : CallerView) (os ps qs : List PinName) → Balanced v ps w qs → Balanced v (os ++ ps) w (os ++ qs) }
    ensures keep { (v w : CallerView) (ps qs : List PinName) → Covered v ps → Balanced v ps w qs → AreGiven w qs → Covered w qs }
{}

/// A covered pin may be released; whether it is, or a worn lock refuses, what is held beyond the other pins stays.
pub fn releases_balance()
    ensures held { (v : CallerView) (p : PinName) (ps : List PinName) → Covered v (p ∷ ps) → 0 < held_at p.shard p.id v }
    ensures released { (v w : CallerView) (p : PinName) (ps : List PinName) → CallerFits v → AtShard (Gained v.number (Release v.number p.id)) p.shard v w → Balanced v (p ∷ ps) w ps }
    ensures worn { (ticket : ℕ) (v w : CallerView) (p : PinName) (ps : List PinName) → AtShard (WornOut ticket) p.shard v w → Balanced v (p ∷ ps) w ps }
{}

/// Neither a fault nor a sweep changes what is held.
pub fn faults_balance()
    ensures fault { (f : MemoFault) (s : ℕ) (v w : CallerView) (ps : List PinName) → Faults f s v w → Balanced v ps w ps }
    ensures swept { (s horizon dropped : ℕ) (v w : CallerView) (ps : List PinName) → CallerFits v → AtShard (Gained v.number (Sweep v.number horizon dropped)) s v w → Balanced v ps w ps }
{}

/// The pin of a look or a keep is covered in addition to the pins before it.
pub fn answers_balance<R: Recipe>()
    ensures look { (v w : CallerView) (ps : List PinName) (run : ℕ) (input : R.In) (looked : Looked R R.In R.Out) → CallerFits v → Covered v ps → Looks R.fits R.digest_of run input looked v w → Balanced v ps w (ps ++ looked_pins R.digest_of looked) × Covered w (ps ++ looked_pins R.digest_of looked) }
    ensures keep { (v w : CallerView) (ps : List PinName) (run : ℕ) (input : R.In) (out : R.Out) (kept : Kept R R.In R.Out) → CallerFits v → Covered v ps → Keeps R.fits R.digest_of run input out kept v w → Balanced v ps w (ps ++ kept_pins R.digest_of kept) × Covered w (ps ++ kept_pins R.digest_of kept) }
{}

/// After an answer a caller holds exactly what it held and the pin of the answer, even at a worn lock, and the pin was
/// given.
pub fn answers_hold<R: Recipe>()
    ensures look { (v w : CallerView) (run : ℕ) (input : R.In) (looked : Looked R R.In R.Out) → CallerFits v → Looks R.fits R.digest_of run input looked v w → Got v (looked_pins R.digest_of looked) w × AreGiven w (looked_pins R.digest_of looked) }
    ensures keep { (v w : CallerView) (run : ℕ) (input : R.In) (out : R.Out) (kept : Kept R R.In R.Out) → CallerFits v → Keeps R.fits R.digest_of run input out kept v w → Got v (kept_pins R.digest_of kept) w × AreGiven w (kept_pins R.digest_of kept) }
    ensures fault { (f : MemoFault) (s : ℕ) (v w : CallerView) → Faults f s v w → Got v [] w }
    ensures follow { (u v w : CallerView) (ps qs : List PinName) → Got u ps v → Got v qs w → Got u (ps ++ qs) w }
    ensures beside { (v w : CallerView) (ps qs : List PinName) → Got v qs w → Balanced v ps w (ps ++ qs) }
{}

/// A balance keeps pins backed once the new pins are given; so does their order.
pub fn backed_pins_stay()
    ensures follow { (v w : CallerView) (ps qs : List PinName) → Backed v ps → Balanced v ps w qs → AreGiven w qs → Backed w qs }
    ensures order { (v : CallerView) (ps qs : List PinName) → ((s id : ℕ) → count s id ps ≡ count s id qs) → AreGiven v qs → Backed v ps → Backed v qs }
{}
