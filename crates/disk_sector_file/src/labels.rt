//! What an image file begins with.
ghost use Rattle.std.specs.Prelude.{◌≡◌, ◌≤◌, ℕ, List, IfOk, IfSome, length, take};
ghost use Rattle.disk_sector_file.specs.FileLabels.{IsSpelledBy, IsToldOf};

use disk_file::BackingFile;
use disk_journal::{LABEL_BYTES as JOURNAL_LABEL_BYTES, has_room, label_areas};
use disk_sectors::Label;
use journal_batches::Areas;
use std::io;

/// What an image file begins with that isn't plain.
#[derive(Clone, Copy)]
pub enum FileLabel {
    /// The label of a disk in two places.
    Places(Label),
    /// That of a journal with these parts.
    Journal(Areas),
}

/// Whether a file that begins with these bytes begins with a label.
pub fn has_label(head: &[u8]) -> bool {
    head.len() >= JOURNAL_LABEL_BYTES && spelled_label(head).is_some()
}

/// The label with which this file begins, where it has all that the label counts.
pub fn label_of<F: BackingFile>(file: &mut F) -> io::Result<Option<FileLabel>>
    // Looking for a label leaves the file as it is.
    ensures same { F.holds file.new ≡ F.holds file.old }
    // A journal's label is found exactly where the file begins with one, and has all that it counts.
    ensures journal { IfOk result (λ label. IfSome (F.holds file.old) (λ h. IsToldOf h.reads label)) }
{
    let len = file.len()?;
    if len < JOURNAL_LABEL_BYTES as u64 {
        return Ok(None);
    }
    let mut head = [0; JOURNAL_LABEL_BYTES];
    file.read_from(0, &mut head)?;
    Ok(whole_label(&head, len))
}

// The label that is here, where so many bytes are all that it counts.
fn whole_label(head: &[u8], len: u64) -> Option<FileLabel>
    requires { 24 ≤ length head.now }
    ensures { (bytes : List ℕ) → take 24 head.now ≡ take 24 bytes → len ≡ length bytes → IsToldOf bytes result }
{
    let label = spelled_label(head)?;
    let is_whole = match label {
        FileLabel::Places(label) => has_all(label, len),
        FileLabel::Journal(areas) => has_room(areas, len),
    };
    if is_whole { Some(label) } else { None }
}

// The label that is here.
fn spelled_label(head: &[u8]) -> Option<FileLabel>
    requires { 24 ≤ length head.now }
    ensures { IsSpelledBy result head.now }
{
    match Label::read(head) {
        Some(label) => Some(FileLabel::Places(label)),
        None => match label_areas(head) {
            Some(areas) => Some(FileLabel::Journal(areas)),
            None => None,
        },
    }
}

// Whether so many bytes are all sectors of this disk.
fn has_all(label: Label, len: u64) -> bool {
    let most = len / label.size.bytes() as u64;
    most >= 2 && (most - 2) / 2 >= label.count
}
