// The table of keys as plain numbers, three for a key, of any length, for callers that hold it so. `find_key`, `put_key` and `Names` have it as keys.
ghost use Rattle.std.specs.Prelude.{◌≡◌, ◌≤◌, ◌<◌, get_or};
ghost use Rattle.scan.specs.Keys.{same_key};
ghost use Rattle.book.specs.Limits.{max_names};
ghost use Rattle.keys.specs.Keyed.{put_hint};
ghost use Rattle.keys.specs.Numbers.{key_in_numbers, with_key, put_numbers, LookedUpNumbers};

use crate::{hint_at, hint_place};
use scan::Key;

// A key takes three numbers: length, first and second word.
pub const MAX_KEYS: usize = 3 * book::MAX_NAMES;

// The number at place i, or 0 past the end.
fn number_at(keys: &[u64], i: usize) -> u64
    ensures { result ≡ get_or keys.now i 0 }
{
    keys.get(i).copied().unwrap_or(0)
}

// Whether name k has the key.
fn has(keys: &[u64], k: usize, key: Key) -> bool
    requires { k ≤ 255 }
    ensures { result ≡ same_key (key_in_numbers keys.now k) key }
{
    let own = Key {
        length: number_at(keys, 3 * k) as usize,
        first: number_at(keys, 3 * k + 1),
        second: number_at(keys, 3 * k + 2),
    };
    own == key
}

// The number of the first of `count` names that has the key.
#[tactic(auto, using(crate::proofs::Plain::looked_number, crate::proofs::Plain::many_names, crate::proofs::Plain::no_number))]
fn first_with(keys: &[u64], count: usize, key: Key) -> Option<usize>
    ensures { LookedUpNumbers keys.now count key result }
{
    // No file has so many.
    if book::MAX_NAMES < count {
        return None;
    }
    for k in 0..count {
        if has(keys, k, key) {
            return Some(k);
        }
    }
    None
}

// The number of the name with the key among `count` names. Whatever the hints say, the names that they lead to are compared by their keys.
#[tactic(auto, using(crate::proofs::Plain::looked_number))]
pub fn find(keys: &[u64], hints: &[u8], count: usize, key: Key) -> Option<usize>
    ensures { LookedUpNumbers keys.now count key result }
{
    let hint = hint_at(hints, key);
    if hint < count {
        if has(keys, hint, key) {
            return Some(hint);
        }
    }
    first_with(keys, count, key)
}

// Three stores one behind the other; what has no room is left out.
fn put_key(keys: &mut [u64], k: usize, key: Key)
    requires { k < max_names }
    ensures { keys.new ≡ with_key keys.old k key }
{
    store::put64(keys, 3 * k, key.length as u64);
    store::put64(keys, 3 * k + 1, key.first);
    store::put64(keys, 3 * k + 2, key.second);
}

// Name k is declared: it has the key, and is the name to look at first for it.
pub fn put(keys: &mut [u64], hints: &mut [u8], k: usize, key: Key)
    ensures { (keys.new ≡ put_numbers keys.old k key) × (hints.new ≡ put_hint hints.old k key) }
{
    if k < book::MAX_NAMES {
        put_key(keys, k, key);
        // As in `hint_place`, `as` loses nothing.
        store::put8(hints, hint_place(key), k as u8);
    }
}
