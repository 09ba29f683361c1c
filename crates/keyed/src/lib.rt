// A look-up for both ends of the line: a list of keys, each with its value beside it. Its proof does not grow with the lists.
#![tactic(auto)]

ghost use Rattle.std.specs.Prelude.{◌≡◌};
ghost use Rattle.keyed.specs.Keyed.{value_beside, value_in};

// The value beside the first of the keys that is the key.
pub fn value_of<K: Copy + Eq, V: Copy>(key: K, pairs: &[(K, V)]) -> Option<V>
    ensures { result ≡ value_beside K.eq key pairs.now }
{
    pairs.iter().find(|p| key == p.0).map(|p| p.1)
}

// The same of two lists of numbers: what stands in the second at the place of the key in the first, and of a key without one the value of none.
pub fn value_in(key: usize, keys: &[usize], values: &[usize], none: usize) -> usize
    ensures { result ≡ value_in key keys.now values.now none }
{
    // A key without a value is not looked at.
    let keys = &keys[..keys.len().min(values.len())];
    match keys.iter().position(|k| key == *k) {
        Some(place) => values[place],
        None => none,
    }
}
