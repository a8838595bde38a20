//! The trait of jobs: the meaning of a job, its calls, and the laws that it must prove.
ghost use Rattle.std.specs.Prelude.{◌≡◌, ℕ, Bool, List, ◌++◌, IsTrue, ◌↔◌, IfOk, OnOk, OnErr};
ghost use Rattle.definitions.specs.Outside.{GainsPrefix};
ghost use Rattle.definitions.specs.Tables.{HasGoodValues, IsGoodJoin};
ghost use Rattle.job_laws.specs.Counted.{one_map, one_join};
ghost use Rattle.job_laws.specs.Gained.{GainsPairs};

use crate::{Emit, Key, Meter};
use std::alloc::{AllocError, Global};

/// A job. Its meanings take the number that it is set to, except `encoded`, which is the same at each setting.
/// `specs/Meanings.antt` has the meaning at one setting as one value. A job need not be `Send`: code that starts
/// threads has that bound.
pub trait Job: Drop {
    /// The value of a key.
    type Val: Drop;

    type Meter: Meter;

    // The number that a job is set to.
    ghost setting: { Self → ℕ };

    // The records that it accepts.
    ghost accepts: { ℕ → List ℕ → Bool };

    // The pairs of a record, in order.
    ghost emits: { ℕ → List ℕ → List (List ℕ × Self.Val) };

    // Two values of a key joined; the left one came first.
    ghost joined: { ℕ → Self.Val → Self.Val → Self.Val };

    // The values that may be joined and written.
    ghost good: { ℕ → Self.Val → Type 0 };

    // The lines of a key with its value.
    ghost text: { ℕ → List ℕ → Self.Val → List ℕ };

    // The bytes of a value in a digest.
    ghost encoded: { Self.Val → List ℕ };

    /// The number that the job is set to.
    fn setting(&self) -> u32
        ensures { result ≡ setting self.now };

    /// Whether the job accepts the bytes `r` as a record. It takes no memory.
    fn accepts(&self, r: &[u8]) -> bool
        ensures { result ≡ accepts (setting self.now) r.now };

    /// Appends the pairs of the accepted record `r` to `out`, and counts one map; out of memory, a prefix of them.
    fn map(
        &self,
        alloc: Global,
        r: &[u8],
        out: &mut Emit<Self::Val>,
        m: &mut Self::Meter,
    ) -> Result<(), AllocError>
        requires { IsTrue (accepts (setting self.now) r.now) }
        ensures ok { OnOk result (out.new ≡ out.old ++ emits (setting self.now) r.now) }
        ensures err { OnErr result (GainsPairs (emits (setting self.now) r.now) out.old out.new) }

        // Whatever it returns, one record was mapped.
        ensures counted { Self.Meter.counts m.new ≡ one_map (Self.Meter.counts m.old) };

    /// Joins `a` with `b`, of which `a` came first, and counts one join.
    fn combine(
        &self,
        alloc: Global,
        a: &Self::Val,
        b: &Self::Val,
        m: &mut Self::Meter,
    ) -> Result<Self::Val, AllocError>
        requires left { good (setting self.now) a.now }
        requires right { good (setting self.now) b.now }
        ensures ok { IfOk result (λ v. v ≡ joined (setting self.now) a.now b.now) }

        // Whatever it returns, two values were joined.
        ensures counted { Self.Meter.counts m.new ≡ one_join (Self.Meter.counts m.old) };

    /// Appends the lines of the key `k` with its value `v` to `out`; out of memory, a prefix of them.
    fn line(
        &self,
        alloc: Global,
        k: &Key,
        v: &Self::Val,
        out: &mut Vec<u8>,
    ) -> Result<(), AllocError>
        requires { good (setting self.now) v.now }
        ensures ok { OnOk result (out.new.items ≡ out.old.items ++ text (setting self.now) k.now v.now) }
        ensures err { OnErr result (GainsPrefix (text (setting self.now) k.now v.now) out.old.items out.new.items) };

    /// An equal value.
    fn copy(alloc: Global, v: &Self::Val) -> Result<Self::Val, AllocError>
        ensures { IfOk result (λ w. w ≡ v.now) };

    /// Whether two values are equal. It takes no memory.
    fn same(a: &Self::Val, b: &Self::Val) -> bool
        ensures { IsTrue result ↔ (a.now ≡ b.now) };

    /// Appends the encoding of `v` to `out`; out of memory, a prefix of it.
    fn encode(v: &Self::Val, out: &mut Vec<u8>) -> Result<(), AllocError>
        ensures ok { OnOk result (out.new.items ≡ out.old.items ++ encoded v.now) }
        ensures err { OnErr result (GainsPrefix (encoded v.now) out.old.items out.new.items) };

    // Emitted values are good.
    ghost emits_good: { (s : ℕ) (r : List ℕ) → IsTrue (accepts s r) → HasGoodValues (good s) (emits s r) };

    // Joining keeps good values, and is associative on them.
    ghost join_laws: { (s : ℕ) → IsGoodJoin (good s) (joined s) };
}

/// A job whose values may be joined in either order.
pub trait Swaps: Job {
    // Joining is commutative on good values.
    ghost joined_comm: { (s : ℕ) (a b : Self.Val) → Self.good s a → Self.good s b → Self.joined s a b ≡ Self.joined s b a };
}
