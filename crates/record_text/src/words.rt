//! The command words, spelled in this one place.
ghost use Rattle.std.specs.Prelude.{◌≡◌};
ghost use Rattle.record_text.specs.Table.{word_of};

/// A command word.
#[derive(Clone, Copy, Debug, PartialEq, Eq)]
pub enum Word {
    Bucket,
    Drop,
    Late,
    File,
    Remove,
    Edit,
    Load,
    Run,
}

/// The command word that these bytes spell, if any.
pub fn word_of(bytes: &[u8]) -> Option<Word>
    ensures { result ≡ word_of bytes.now }
{
    if bytes == b"bucket".as_slice() {
        return Some(Word::Bucket);
    }
    if bytes == b"drop".as_slice() {
        return Some(Word::Drop);
    }
    if bytes == b"late".as_slice() {
        return Some(Word::Late);
    }
    if bytes == b"file".as_slice() {
        return Some(Word::File);
    }
    if bytes == b"remove".as_slice() {
        return Some(Word::Remove);
    }
    if bytes == b"edit".as_slice() {
        return Some(Word::Edit);
    }
    if bytes == b"load".as_slice() {
        return Some(Word::Load);
    }
    if bytes == b"run".as_slice() {
        return Some(Word::Run);
    }
    None
}
