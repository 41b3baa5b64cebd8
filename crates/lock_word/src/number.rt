//! The release number: how often a monitor has become free since the heap was opened.

ghost use Rattle.std.specs.Prelude.{◌≤◌, ◌↔◌, IsTrue};
ghost use Rattle.heap_model.specs.declared.limits.TheConstants.{LAST_NUMBER};

use heap_model::LAST_NUMBER;

/// Whether a word has room for this release number.
pub fn is_release_number(number: u64) -> bool
    ensures { IsTrue result ↔ (number ≤ LAST_NUMBER) }
{
    number <= LAST_NUMBER
}
