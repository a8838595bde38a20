//! The distinct keys of pairs.
ghost use Rattle.std.specs.Prelude.{◌≡◌, IfOk, OnOk};
ghost use Rattle.definitions.specs.Tables.{keys_of};
ghost use Rattle.plain_program.specs.Plain.{key_among};

use job_laws::{Emit, Key};
use std::alloc::{AllocError, Global};
use std::cmp::Ordering;

/// The distinct keys of pairs in byte order.
pub(crate) fn plain_keys<V: Drop>(alloc: Global, pairs: &Emit<V>) -> Result<Vec<Key>, AllocError>
    ensures { IfOk result (λ keys. keys.items ≡ keys_of pairs.now) }
{
    let mut keys = Vec::new(alloc);
    let mut left = pairs.len();
    'pairs: while left > 0 {
        left -= 1;
        let key = match Key::of(alloc, pairs.pair(left).0) {
            Ok(key) => key,
            Err(e) => return Err(e),
        };
        match add_key(&mut keys, &key) {
            Ok(()) => (),
            Err(e) => return Err(e),
        }
    }
    Ok(keys)
}

/// Inserts a key at its place among others in byte order, unless it is there.
fn add_key(keys: &mut Vec<Key>, key: &Key) -> Result<(), AllocError>
    ensures { OnOk result (keys.new.items ≡ key_among key.now keys.old.items) }
{
    'keys: for i in 0..keys.len() {
        match key.compare(&keys[i]) {
            Ordering::Less => {
                let key = key.share()?;
                keys.insert(i, key)?;
                return Ok(());
            }
            Ordering::Equal => return Ok(()),
            Ordering::Greater => (),
        }
    }
    let key = key.share()?;
    keys.push(key)?;
    Ok(())
}
