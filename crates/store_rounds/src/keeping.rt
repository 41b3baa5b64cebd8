//! What is known once a cut is acknowledged.
ghost use Rattle.std.specs.Prelude.{◌≡◌, ◌≤◌, ℕ, length};
ghost use Rattle.heap_model.specs.Cuts.{counts_of};
ghost use Rattle.heap_model.specs.Setting.{Setting};
ghost use Rattle.heap_model.specs.Past.{Past};
ghost use Rattle.store_rounds.specs.Steps.{after_round};
ghost use Rattle.store_rounds.specs.Turns.{IsPlan, Tells};

use store_memory::{Applied, LoggedSections, StableSections};
use store_round_memory::RoundMemory;

/// What was applied is logged now, and the stable cut is acknowledged and forgotten.
pub(crate) fn acknowledge(
    applied: &mut Applied,
    sections: &mut LoggedSections,
    rounds: &mut RoundMemory,
    stable: &StableSections,
)
    requires few { length applied.old.lanes ≤ 32 }
    requires plan { IsPlan sections.old rounds.old stable.now.cut stable.now.places }
    requires tells { (t : ℕ) × (s : Setting) × (p : Past) × Tells t s p applied.old sections.old rounds.old }
    ensures tells { (t : ℕ) (s : Setting) (p : Past) → Tells t s p applied.old sections.old rounds.old
        → Tells t s (after_round p (counts_of stable.now.cut)) applied.new sections.new rounds.new }
    ensures capacity { applied.new.capacity ≡ applied.old.capacity }
    ensures sections_lanes { sections.new.lanes ≡ sections.old.lanes }
    ensures sections_capacity { sections.new.capacity ≡ sections.old.capacity }
    ensures rounds_capacity { rounds.new.capacity ≡ rounds.old.capacity }
{
    applied.logged_all();
    applied.start_at(&stable.places);
    sections.forget_to(&stable.cut);
    rounds.keep(&stable.places);
}
