//! Laws of the definitions. Each function does nothing: its contract is the law, which a caller gets by the call.
ghost use Rattle.std.specs.Prelude.{◌≡◌, ◌≢◌, ℕ, List};
ghost use Rattle.chunk_store.specs.Files.{File, file_at, with_file};

/// After a file is replaced it has the given chunks, and every other file those that it had.
pub fn files_apart()
    ensures itself { (name : List ℕ) (chunks : List (List (List ℕ))) (files : List File) → file_at name (with_file name chunks files) ≡ chunks }
    ensures others { (name other : List ℕ) (chunks : List (List (List ℕ))) (files : List File) → name ≢ other → file_at other (with_file name chunks files) ≡ file_at other files }
{}
