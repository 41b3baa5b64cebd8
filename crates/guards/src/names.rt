//! Names in the order of their declaration, each with what was declared under it.

ghost use Rattle.std.specs.Prelude.{◌≡◌, ◌+◌, ◌<◌, ◌↔◌, ◌++◌, ◌∷◌, [], ℕ, None, Some, length, Contains, IsTrue, IfSome, OnOk, OnErr, slice_get, string_bytes};
ghost use Rattle.guards.specs.Names.{names_in, values_in, AddsEntry};

use indexmap::IndexMap;
use std::alloc::AllocError;

/// Whether something is declared under this name.
pub(crate) fn has_name<V>(names: &IndexMap<String, V>, name: &str) -> bool
    ensures { IsTrue result ↔ Contains (names_in names.now.entries) name.now }
{
    names.contains_key(name)
}

/// Declares a new name, with its value, behind the others. Want of memory leaves all as it was.
pub(crate) fn add_name<V: Drop>(
    names: &mut IndexMap<String, V>,
    name: &str,
    value: V,
) -> Result<(), AllocError>
    requires { Contains (names_in names.old.entries) name.now → ⊥ }
    ensures ok { OnOk result (AddsEntry names.old.entries names.new.entries name.now value) }
    ensures err { OnErr result (names.new.entries ≡ names.old.entries) }
{
    let alloc = *names.allocator();
    let key = String::from_str(alloc, name)?;
    names.insert(key, value)?;
    Ok(())
}

/// The number of the declaration of this name, counted from 0.
pub(crate) fn number_named<V>(names: &IndexMap<String, V>, name: &str) -> Option<usize>
    ensures found { IfSome result (λ k. slice_get (names_in names.now.entries) k ≡ Some name.now) }
    ensures within { IfSome result (λ k. k < length names.now.entries) }
    ensures own { (k : ℕ) → slice_get (names_in names.now.entries) k ≡ Some name.now → result ≡ Some k }
{
    names.get_index_of(name)
}

/// The name of the declaration of this number.
pub(crate) fn name_at<V>(names: &IndexMap<String, V>, number: usize) -> &str
    requires { number < length names.now.entries }
    ensures { slice_get (names_in names.now.entries) number ≡ Some result.now }
{
    let (name, _) = names.get_index(number).unwrap();
    name.as_str()
}

/// What is declared under this number.
pub(crate) fn value_at<V: Copy>(names: &IndexMap<String, V>, number: usize) -> V
    requires { number < length names.now.entries }
    ensures { slice_get (values_in names.now.entries) number ≡ Some result }
{
    let (_, value) = names.get_index(number).unwrap();
    *value
}
