//! Which inputs a caller knows by the pins that it holds. The functions do nothing: a caller gets the law by the call,
//! a proof by the lemma of the same meaning in `proofs/Knowing.antt`.
ghost use Rattle.std.specs.Prelude.{◌≡◌, ℕ, ◌<◌, ◌⊎◌, List, ◌∷◌, ◌++◌};
ghost use Rattle.pin_table.specs.Views.{CallerView, PinView};
ghost use Rattle.pin_table.specs.Known.{CallerFits, held_at};
ghost use Rattle.pin_table.specs.Answers.{Looks, Keeps};
ghost use Rattle.pin_table.specs.Covers.{PinName, IsGiven, Covered, Got};
ghost use Rattle.pin_table.specs.OwnEvents.{there, MetAt, IsKnown};
ghost use Rattle.pin_table.specs.declared.answers.Looked.{Looked};
ghost use Rattle.pin_table.specs.declared.answers.Looked.TheVariants.{Hit};
ghost use Rattle.pin_table.specs.declared.answers.Kept.{Kept};
ghost use Rattle.pin_table.specs.declared.answers.Kept.TheVariants.{Stored, Found};

use memo_server::Recipe;

/// A look for an input that the caller knows hits, and a keep of it finds its entry, unless a clash was gained.
pub fn known_is_found<R: Recipe>()
    ensures look { (v w : CallerView) (run : ℕ) (input : R.In) (looked : Looked R R.In R.Out) → CallerFits v → IsKnown (R.digest_of input) v → Looks R.fits R.digest_of run input looked v w → ((p : PinView R.In R.Out) × (looked ≡ Hit p)) ⊎ MetAt (there (R.digest_of input) v) v w }
    ensures keep { (v w : CallerView) (run : ℕ) (input : R.In) (out : R.Out) (kept : Kept R R.In R.Out) → CallerFits v → IsKnown (R.digest_of input) v → Keeps R.fits R.digest_of run input out kept v w → ((p : PinView R.In R.Out) × (kept ≡ Found p)) ⊎ MetAt (there (R.digest_of input) v) v w }
{}

/// What was hit, stored or found is known.
pub fn answers_are_known<R: Recipe>()
    ensures hit { (v w : CallerView) (run : ℕ) (input : R.In) (p : PinView R.In R.Out) → CallerFits v → Looks {R = R} R.fits R.digest_of run input (Hit p) v w → IsKnown (R.digest_of input) w }
    ensures stored { (v w : CallerView) (run : ℕ) (input : R.In) (out : R.Out) (p : PinView R.In R.Out) → CallerFits v → Keeps {R = R} R.fits R.digest_of run input out (Stored p) v w → IsKnown (R.digest_of input) w }
    ensures found { (v w : CallerView) (run : ℕ) (input : R.In) (out : R.Out) (p : PinView R.In R.Out) → CallerFits v → Keeps {R = R} R.fits R.digest_of run input out (Found p) v w → IsKnown (R.digest_of input) w }
{}

/// The input of each covered pin is known, and stays known over calls that give up no pin.
pub fn pins_are_known()
    ensures covered { (v : CallerView) (os ps : List PinName) (p : PinName) → Covered v (os ++ p ∷ ps) → IsKnown p.digest v }
    ensures stay { (digest : List ℕ) (v w : CallerView) (ps : List PinName) → Got v ps w → IsKnown digest v → IsKnown digest w }
{}

/// Pins of one caller in one shard on one id have one digest, while the caller holds the id.
pub fn ids_have_one_digest()
    ensures { (c : CallerView) (p q : PinName) → CallerFits c → IsGiven c p → IsGiven c q → p.shard ≡ q.shard → p.id ≡ q.id → 0 < held_at p.shard p.id c → p.digest ≡ q.digest }
{}
