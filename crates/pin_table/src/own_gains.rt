//! What a caller's own events gain from call to call. The functions do nothing: a caller gets the law by the call, a
//! proof by the lemma of the same meaning in `proofs/OwnEvents.antt`, which also says what each answer gains.
ghost use Rattle.std.specs.Prelude.{◌≡◌, ℕ, ◌⊎◌, List, ◌++◌};
ghost use Rattle.pin_table.specs.Views.{CallerView};
ghost use Rattle.pin_table.specs.Answers.{Faults, Looks, Keeps};
ghost use Rattle.pin_table.specs.Covers.{IsLater};
ghost use Rattle.pin_table.specs.OwnEvents.{there, gained, MetAt};
ghost use Rattle.pin_table.specs.declared.answers.Looked.TheVariants.{Clash};
ghost use Rattle.pin_table.specs.declared.answers.Kept.TheVariants.{Clash as KeepClash};
ghost use Rattle.pin_table.specs.declared.answers.MemoFault.{MemoFault};
ghost use Rattle.pin_table.specs.declared.answers.MemoFault.TheVariants.{Mem};
ghost use Rattle.memo_server.specs.Views.{EntryView};

use memo_server::Recipe;

/// What is gained by calls one after another adds up.
pub fn gains_add_up()
    ensures { (digest : List ℕ) (u v w : CallerView) → IsLater u v → IsLater v w → gained digest u w ≡ gained digest u v ++ gained digest v w }
{}

/// A clash or a worn lock, once met, stays met, also counted from any earlier time.
pub fn met_goes_on()
    ensures later { (s : ℕ) (u v w : CallerView) → IsLater v w → MetAt s u v → MetAt s u w }
    ensures before { (s : ℕ) (u v w : CallerView) → IsLater u v → IsLater v w → MetAt s v w → MetAt s u w }
{}

/// An answer by an entry of another input is met as a clash, and a fault that is not out of memory as a worn lock.
pub fn clashes_are_met<R: Recipe>()
    ensures look { (v w : CallerView) (run : ℕ) (input : R.In) (e : EntryView R.In R.Out) → Looks {R = R} R.fits R.digest_of run input (Clash e) v w → MetAt (there (R.digest_of input) v) v w }
    ensures keep { (v w : CallerView) (run : ℕ) (input : R.In) (out : R.Out) (e : EntryView R.In R.Out) (i : R.In) (o : R.Out) → Keeps {R = R} R.fits R.digest_of run input out (KeepClash e i o) v w → MetAt (there (R.digest_of input) v) v w }
    ensures fault { (f : MemoFault) (s : ℕ) (v w : CallerView) → Faults f s v w → (f ≡ Mem) ⊎ MetAt s v w }
{}
