//! Values under keys, in the order in which the keys came.
ghost use Rattle.std.specs.Prelude.{◌≡◌, ◌<◌, IfOk, IfSome, OnOk, OnErr, vec_len};
ghost use Rattle.wish_sets.specs.Tables.{put_at, taken_back, with_value};

use std::mem;
use wire_core::NoMemory;

/// Puts a value at the place of its key, or behind all with its key; it answers the value that was there. Where memory
/// is refused all stays as it was.
pub(crate) fn put_at<K: Drop, V: Drop>(
    entries: &mut Vec<(K, V)>,
    at: Option<usize>,
    key: K,
    value: V,
) -> Result<Option<V>, NoMemory>
    requires { IfSome at (λ place. place < vec_len entries.old) }
    ensures ok { OnOk result (entries.new.items ≡ put_at at key value entries.old.items) }
    ensures err { OnErr result (entries.new.items ≡ entries.old.items) }
    ensures back { IfOk result (λ before. taken_back at before entries.new.items ≡ entries.old.items) }
{
    match at {
        Some(at) => Ok(Some(mem::replace(&mut entries[at].1, value))),
        None => {
            entries.push((key, value))?;
            Ok(None)
        }
    }
}

// Puts a value at a place, where there is one.
fn put_value<K: Drop, V: Drop>(entries: &mut [(K, V)], at: usize, value: V)
    ensures { entries.new ≡ with_value at value entries.old }
{
    if at < entries.len() {
        let _ = mem::replace(&mut entries[at].1, value);
    }
}

/// Takes back what was put: the value that was there stands at its place again, or the last entry goes.
pub(crate) fn take_back<K: Drop, V: Drop>(
    entries: &mut Vec<(K, V)>,
    at: Option<usize>,
    before: Option<V>,
)
    ensures { entries.new.items ≡ taken_back at before entries.old.items }
{
    match (at, before) {
        (Some(at), Some(before)) => put_value(entries, at, before),
        _ => {
            let _ = entries.pop();
        }
    }
}
