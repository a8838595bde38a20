//! A gate that a thread passes before it does a task. A test can hold tasks back there, to show that two are in
//! progress together; no answer depends on it.
ghost use Rattle.std.specs.Prelude.{ℕ};

/// The thread that does a task passes the gate before it. A gate may hold a task back, and changes no answer.
pub trait Gate: Sync {
    // The gate was passed for the task of this number. For code that is generic in the gate only a call of `pass`
    // ensures it.
    ghost passed: { Self → ℕ → Type 0 };

    /// Passes the gate before the task of this number.
    fn pass(&self, task: u64)
        ensures { passed self.now task };
}

/// The gate that holds nothing back.
#[derive(Drop)]
pub struct NoGate;

impl Gate for NoGate {
    ghost passed = { λ gate task. Unit {0} };

    fn pass(&self, _task: u64) {}
}
