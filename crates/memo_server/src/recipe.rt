//! What a memo keeps: results by whole inputs. A recipe has a digest for each input, a comparison, and copies of both.
ghost use Rattle.std.specs.Prelude.{◌≡◌, ℕ, List, IfOk, IsTrue, ◌↔◌};

use std::alloc::{AllocError, Global};

/// Inputs with the results that a memo keeps for them. A recipe has no state.
pub trait Recipe {
    /// The input by which a result is looked up.
    type In: Drop;

    /// The result of an input.
    type Out: Drop;

    /// The result is right for the input.
    ghost fits: { Self.In → Self.Out → Type 0 };

    /// The digest of an input, a function of only the input.
    ghost digest_of: { Self.In → List ℕ };

    /// The digest under which an input is kept. Inputs with equal digests are compared by `same`.
    fn digest(input: &Self::In) -> [u8; 32]
        ensures { result ≡ digest_of input.now };

    /// Whether the inputs are equal.
    fn same(a: &Self::In, b: &Self::In) -> bool
        ensures { IsTrue result ↔ (a.now ≡ b.now) };

    /// An equal input. It fails only out of memory.
    fn share_in(alloc: Global, input: &Self::In) -> Result<Self::In, AllocError>
        ensures { IfOk result (λ copy. copy ≡ input.now) };

    /// A result that fits whatever this one fits. It fails only out of memory.
    fn share_out(alloc: Global, out: &Self::Out) -> Result<Self::Out, AllocError>
        ensures { IfOk result (λ copy. (input : Self.In) → fits input out.now → fits input copy) };
}
