//! Keys of names, and their places.
ghost use Rattle.std.specs.Prelude.{◌≡◌, IfOk, OnOk, map, nat_eq};
ghost use Rattle.std.specs.Char.{to_ascii_uppercase};
ghost use Rattle.std.specs.Cmp.Lexicographic.{pointwise};
ghost use Rattle.std.specs.Map.{lookup};
ghost use Rattle.name_tables.specs.Places.{with_place};

use indexmap::IndexMap;
use s7_base::NoMemory;
use std::alloc::Global;

/// The key of a name: the name in capitals, since names are the same in any case.
pub fn key_of(alloc: Global, name: &[u8]) -> Result<Vec<u8>, NoMemory>
    ensures { IfOk result (λ key. key.items ≡ map to_ascii_uppercase name.now) }
{
    Ok(name.to_ascii_uppercase(alloc)?)
}

/// The place that is kept for a key.
pub fn look_up(places: &IndexMap<Vec<u8>, usize>, key: &[u8]) -> Option<usize>
    ensures { result ≡ lookup (pointwise nat_eq key.now) (map (λ e. (e.0.items, e.1)) places.now.entries) }
{
    places.get(key).copied()
}

/// Keeps the place of a key that has none.
pub fn put_place(
    places: &mut IndexMap<Vec<u8>, usize>,
    key: Vec<u8>,
    place: usize,
) -> Result<(), NoMemory>
    ensures { OnOk result (map (λ e. (e.0.items, e.1)) places.new.entries
        ≡ with_place (pointwise nat_eq) key.items place (map (λ e. (e.0.items, e.1)) places.old.entries)) }
{
    if look_up(places, key.as_slice()).is_some() {
        return Ok(());
    }
    places.insert(key, place)?;
    Ok(())
}
