//! The version of an image, by its control.
ghost use Rattle.std.specs.Prelude.{◌≡◌, ℕ, IfErr, false, true};
ghost use Rattle.undo_log.specs.StandsFor.{is_transient_in};
ghost use Rattle.recover_heap.specs.declared.error.RecoverError.TheVariants.{BadControl, OldVersion};
ghost use Rattle.recover.specs.Versions.{TestsMarks, TestsVersion};

use crate::versions::Versions;
use image::{Control, GuardRow, OLD_VERSION};
use recover_heap::RecoverError;

/// Tests that a control of version 1, which is from before there were transient fields, stands with no marked row.
pub fn test_marks(control: &Control, guards: &[GuardRow]) -> Result<(), RecoverError>
    ensures exact { TestsMarks control.now guards.now result }
    ensures only { IfErr result (λ e. e ≡ BadControl) }
{
    if control.version == OLD_VERSION && has_transient(guards) {
        return Err(RecoverError::BadControl);
    }
    Ok(())
}

/// Tests that the control's version is one of these.
pub fn test_version(control: &Control, versions: Versions) -> Result<(), RecoverError>
    ensures exact { TestsVersion control.now versions result }
    ensures only { IfErr result (λ e. e ≡ OldVersion) }
{
    if versions == Versions::Current && control.version == OLD_VERSION {
        return Err(RecoverError::OldVersion);
    }
    Ok(())
}

// Whether a row is marked.
fn has_transient(guards: &[GuardRow]) -> bool
    ensures some { result ≡ true → (f : ℕ) × (is_transient_in guards.now f ≡ true) }
    ensures none { result ≡ false → (f : ℕ) → is_transient_in guards.now f ≡ false }
{
    for row in guards {
        if row.transient {
            return true;
        }
    }
    false
}
