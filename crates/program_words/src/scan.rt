//! Whether the arguments are well formed.
ghost use Rattle.std.specs.Prelude.{◌≡◌, ◌&&◌, List, ℕ, ◌∷◌, IfOk, Some, map, is_some, option_map, string_bytes};
ghost use Rattle.program_words.specs.WellFormed.{is_stray, begins_with_dash, is_option, is_flag, may_stand, is_met, behind_dashes, name_and_value, as_texts, met_option, scan, items_of};

use memchr::memchr;
use std::alloc::{AllocError, Global};

/// Whether an argument is allowed nowhere: it is empty, `-` or `--`, or ends in `=`.
fn is_stray(word: &[u8]) -> bool
    ensures { result ≡ is_stray word.now }
{
    match word.last() {
        Some(b) => *b == b'=' || word == b"-".as_slice() || word == b"--".as_slice(),
        None => true,
    }
}

/// Whether an argument begins with `-`.
fn begins_with_dash(word: &[u8]) -> bool
    ensures { result ≡ begins_with_dash word.now }
{
    match word {
        [b, ..] => *b == b'-',
        [] => false,
    }
}

/// Whether a name is that of an option that takes a value. Names cannot be shortened.
#[tactic(auto, unfolding(crate::specs::WellFormed::is_option))]
fn is_option(name: &[u8]) -> bool
    ensures { result ≡ is_option name.now }
{
    name == b"job".as_slice()
        || name == b"k".as_slice()
        || name == b"tree".as_slice()
        || name == b"buckets".as_slice()
        || name == b"parts".as_slice()
        || name == b"workers".as_slice()
        || name == b"shards".as_slice()
        || name == b"keep".as_slice()
        || name == b"gen".as_slice()
}

/// Whether a name is that of a flag, which takes no value.
#[tactic(auto, unfolding(crate::specs::WellFormed::is_flag))]
fn is_flag(name: &[u8]) -> bool
    ensures { result ≡ is_flag name.now }
{
    name == b"work".as_slice()
}

/// Whether a name is that of a flag, with no value in its argument, or that of an option.
fn may_stand(name: &[u8], value: Option<&[u8]>) -> bool
    ensures { result ≡ may_stand name.now (option_map (λ n. n.now) value.entry) }
{
    if is_flag(name) {
        value.is_none()
    } else {
        is_option(name)
    }
}

/// What comes after the two dashes that an argument begins with.
fn behind_dashes(word: &[u8]) -> Option<&[u8]>
    ensures { option_map (λ text. text.now) result ≡ behind_dashes word.now }
{
    match word {
        [a, b, text @ ..] => {
            if *a == b'-' && *b == b'-' {
                Some(text)
            } else {
                None
            }
        }
        _ => None,
    }
}

/// What comes before the first `=`, and what comes after it if there is one.
fn name_and_value(text: &[u8]) -> (&[u8], Option<&[u8]>)
    ensures { as_texts result ≡ name_and_value text.now }
{
    match memchr(b'=', text) {
        Some(i) => (&text[..i], Some(&text[i + 1..])),
        None => (text, None),
    }
}

/// Whether a name was met before.
fn is_met(names: &[&[u8]], name: &[u8]) -> bool
    ensures { result ≡ is_met (map (λ n. n.now) names.now) name.now }
{
    'names: for met in names {
        if *met == name {
            return true;
        }
    }
    false
}

/// The arguments read so far.
#[derive(Drop)]
struct Scan<'a> {
    /// The names of the options and flags that were met, in their order.
    names: Vec<&'a [u8]>,
    /// The option whose value the next argument is.
    waiting: Option<&'a [u8]>,
}

impl<'a> Scan<'a> {
    /// Notes an option, which waits for its value if it has none, or a flag, and returns whether it is allowed here.
    fn meet(&mut self, name: &'a [u8], value: Option<&'a [u8]>) -> Result<bool, AllocError>
        ensures { IfOk result (λ may. (rest : List (List ℕ)) →
            is_some (met_option (map (λ n. n.now) self.old.names.items) (Some (as_texts (name.entry, value.entry))) (λ met waiting. scan met waiting rest))
            ≡ (may && is_some (scan (map (λ n. n.now) self.new.names.items) (option_map (λ n. n.now) self.new.waiting) rest))) }
    {
        if !may_stand(name, value) || is_met(self.names.as_slice(), name) {
            return Ok(false);
        }
        self.names.push(name)?;
        if value.is_some() || is_flag(name) {
            self.waiting = None;
        } else {
            self.waiting = Some(name);
        }
        Ok(true)
    }

    /// Reads one more argument, and returns whether it is allowed.
    fn read(&mut self, word: &'a [u8]) -> Result<bool, AllocError>
        ensures { IfOk result (λ may. (rest : List (List ℕ)) →
            is_some (scan (map (λ n. n.now) self.old.names.items) (option_map (λ n. n.now) self.old.waiting) (word.entry.now ∷ rest))
            ≡ (may && is_some (scan (map (λ n. n.now) self.new.names.items) (option_map (λ n. n.now) self.new.waiting) rest))) }
    {
        if is_stray(word) {
            return Ok(false);
        }
        if self.waiting.is_some() {
            self.waiting = None;
            return Ok(!begins_with_dash(word));
        }
        match behind_dashes(word) {
            Some(text) => {
                let (name, value) = name_and_value(text);
                self.meet(name, value)
            }
            None => Ok(false),
        }
    }
}

/// Whether the arguments are a sequence of options with their values, `--NAME=VALUE` or `--NAME VALUE`, and of flags,
/// `--NAME`, each at most once.
pub fn are_well_formed(alloc: Global, words: &[String]) -> Result<bool, AllocError>
    ensures { IfOk result (λ are. are ≡ is_some (items_of (map string_bytes words.now))) }
{
    let mut scan = Scan {
        names: Vec::new(alloc),
        waiting: None,
    };
    'words: for word in words {
        if !scan.read(word.as_bytes())? {
            return Ok(false);
        }
    }
    Ok(scan.waiting.is_none())
}
