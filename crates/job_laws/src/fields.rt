//! The fields of a record.
ghost use Rattle.std.specs.Prelude.{◌≡◌, ◌≤◌, length};
ghost use Rattle.job_laws.specs.Forms.{split_at_tab};
ghost use Rattle.job_laws.specs.Fields.{fields_at};

/// The place of the first TAB, or the length if there is none. It is one pass, and takes no memory.
pub fn tab_at(r: &[u8]) -> usize
    ensures fits { result ≤ length r.now }
    ensures fields { split_at_tab r.now ≡ fields_at result r.now }
{
    'bytes: for i in 0..r.len() {
        if r[i] == b'\t' {
            return i;
        }
    }
    r.len()
}
