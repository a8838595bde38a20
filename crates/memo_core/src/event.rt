//! The calls of a memo, each with its answer.

/// What a look returned, with the id of the live entry that has the digest.
#[derive(Clone, Copy, PartialEq, Eq, Debug)]
pub enum LookAnswer {
    /// The entry has the input that was looked for, and the caller has one more pin on it.
    Hit(u64),
    /// No live entry has the digest.
    Absent,
    /// The entry has the digest, but another input.
    Clash(u64),
}

/// What a keep returned, with the id of the entry that has the digest now.
#[derive(Clone, Copy, PartialEq, Eq, Debug)]
pub enum KeepAnswer {
    /// A new entry, which the caller has pinned.
    Stored(u64),
    /// There was an entry with this input, and the caller has one more pin on it.
    Found(u64),
    /// There was an entry with the digest and another input.
    Clash(u64),
}

/// One turn of one caller. Callers, runs and horizons are numbers of the caller's choice.
#[derive(Clone, Copy, PartialEq, Eq, Debug)]
pub enum Event {
    /// A search for the entry of an input.
    Look {
        caller: u64,
        run: u64,
        digest: [u8; 32],
        answer: LookAnswer,
    },
    /// An entry that is given to the memo.
    Keep {
        caller: u64,
        run: u64,
        digest: [u8; 32],
        answer: KeepAnswer,
    },
    /// One pin of the caller that is given up.
    Release {
        caller: u64,
        id: u64,
    },
    /// A sweep drops the entries without pins that were last used below `horizon`; `dropped` is their number.
    Sweep {
        caller: u64,
        horizon: u64,
        dropped: u64,
    },
}
