//! Where the table has each word: the published numbers come first; then the fat words, by slot, the slot count, the lock
//! words, by object, the wait masks, by object, and the fields.
//!
//! A cache line has eight words. Threads that write different words of one line hold each other up, so words with
//! neighbouring numbers lie nine words apart, and each published number has a line of its own.

ghost use Rattle.std.specs.Prelude.{◌≡◌, ◌+◌, ◌<◌, ◌≤◌, ◌^◌};
ghost use Rattle.heap_model.specs.declared.limits.TheConstants.{MOST_OBJECTS};
ghost use Rattle.monitor.specs.Words.{LOCKS, objects, fields, place, room, spaced, LockAt, FatAt, CountAt, MaskAt, FieldAt, PostAt};
ghost use Rattle.monitor.specs.Posts.{post_number, IsPost};

use crate::shared::Shared;
use crate::view::Post;
use heap_model::{FieldId, LANES, ObjectId};
use lock_word::FAT_SLOTS;

// How many words a cache line has, at least.
const LINE: usize = 8;

// How many words a region has for gaps.
const GAPS: usize = 256;

// Where the fat words begin: after two published numbers for each lane.
const FATS: usize = LINE * 2 * LANES;

// Where the slot count is.
const COUNT: usize = FATS + FAT_SLOTS as usize + GAPS;

// Where the lock words begin.
const LOCKS: usize = COUNT + LINE;

/// How many words a region of this many numbers takes.
pub fn region(count: usize) -> usize
    requires { count < 2 ^ 60 }
    ensures { result ≡ room count }
{
    count + GAPS
}

/// Where the fields begin, in a heap of so many objects.
pub fn fields_after(objects: usize) -> usize
    requires { objects ≤ MOST_OBJECTS }
    ensures { result ≡ LOCKS + room objects + room objects }
{
    LOCKS + region(objects) + region(objects)
}

/// Where the word with this number lies in its region.
pub fn spaced_place(number: usize) -> usize
    requires { number < 2 ^ 60 }
    ensures { result ≡ spaced number }
{
    number + LINE * (number % 32)
}

impl Shared {
    // The lock word of an object.
    pub(crate) fn lock_place(&self, object: ObjectId) -> usize
        requires { object.0 < objects self.now.plan }
        ensures { result ≡ place self.now.plan (LockAt object.0) }
    {
        LOCKS + spaced_place(object.0 as usize)
    }

    // The word of a fat slot.
    pub(crate) fn fat_place(&self, slot: u32) -> usize
        requires { slot < FAT_SLOTS }
        ensures { result ≡ place self.now.plan (FatAt slot) }
    {
        FATS + spaced_place(slot as usize)
    }

    // The word that counts the claimed slots.
    pub(crate) fn count_place(&self) -> usize
        ensures { result ≡ place self.now.plan CountAt }
    {
        COUNT
    }

    // The wait mask of an object.
    pub(crate) fn mask_place(&self, object: ObjectId) -> usize
        requires { object.0 < objects self.now.plan }
        ensures { result ≡ place self.now.plan (MaskAt object.0) }
    {
        LOCKS + region(self.object_total) + spaced_place(object.0 as usize)
    }

    // The word of a field.
    pub(crate) fn field_place(&self, field: FieldId) -> usize
        requires { field.0 < fields self.now.plan }
        ensures { result ≡ place self.now.plan (FieldAt field.0) }
    {
        self.field_base + spaced_place(field.0 as usize)
    }

    // The word of a published number.
    pub(crate) fn post_place(&self, post: Post) -> usize
        requires { IsPost post }
        ensures { result ≡ place self.now.plan (PostAt (post_number post)) }
    {
        match post {
            Post::Stable { lane } => LINE * lane.0 as usize,
            Post::Trimmed { lane } => LINE * (LANES + lane.0 as usize),
        }
    }
}
