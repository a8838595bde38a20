//! The words of a text.
ghost use Rattle.std.specs.Prelude.{◌≡◌, ◌≤◌, ◌++◌, ℕ, List, length, take, drop};
ghost use Rattle.definitions.specs.Records.{is_word_byte, word_before, words_behind, words_of};
ghost use Rattle.jobs_basic.specs.Words.{SplitsWord};

/// Whether the byte is part of a word.
fn is_in_word(b: u8) -> bool
    ensures { result ≡ is_word_byte b }
{
    b.is_ascii_alphanumeric()
}

// How many bytes at the start of a text are part of a word.
fn word_length(text: &[u8]) -> usize
    ensures fits { result ≤ length text.now }
    ensures word { (prefix : List ℕ) → words_behind prefix text.now ≡ word_before (prefix ++ take result text.now) (words_of (drop result text.now)) }
{
    'bytes: for i in 0..text.len() {
        if !is_in_word(text[i]) {
            return i;
        }
    }
    text.len()
}

/// The first word of a text and what follows it; `None` if the text has no word. It is one pass up to the word's end.
pub fn next_word(text: &[u8]) -> Option<(&[u8], &[u8])>
    ensures { SplitsWord text.now result }
{
    let mut rest = text;
    'gap: while let [b, more @ ..] = rest {
        if is_in_word(*b) {
            return Some(rest.split_at(1 + word_length(more)));
        }
        rest = more;
    }
    None
}
