// What is added where there is room, so that no memory is taken.
ghost use Rattle.std.specs.Prelude.{◌≡◌, ◌+◌, ◌-◌, ◌<◌, ◌≤◌, ◌∷◌, ◌++◌, [], Some, vec_capacity, vec_len};
ghost use Rattle.std.specs.HashMap.{Updates, spare};

use std::collections::HashMap;
use std::hash::Hash;

// Adds an item for which there is room.
pub(crate) fn push_within<T: Drop>(items: &mut Vec<T>, item: T)
    requires { vec_len items.old < vec_capacity items.old }
    ensures items { items.new.items ≡ items.old.items ++ item ∷ [] }
    ensures room { vec_capacity items.old - vec_len items.old
        ≤ (vec_capacity items.new - vec_len items.new) + 1 }
{
    let _ = items.push(item);
}

// Puts in an entry for which there is room.
pub(crate) fn insert_within<K: Eq + Hash + Drop>(map: &mut HashMap<K, u64>, key: K, number: u64)
    requires { 0 < spare map.old }
    ensures updates { Updates K.eq map.old map.new key (Some number) }
    ensures room { spare map.old ≤ spare map.new + 1 }
{
    let _ = map.insert(key, number);
}
