//! What the system has said of a call that failed.

use std::io;
use std::io::ErrorKind;
use std::sync::atomic::{AtomicU64, Ordering};

/// What a call that failed was about.
#[derive(Clone, Copy, Debug, PartialEq, Eq)]
pub enum Place {
    /// The image file.
    Image,
    /// The schema file.
    Schema,
    /// The file beside the image file in which a new image is made, or the folder of both.
    Beside,
    /// The path at which a replaced image is kept.
    Kept,
    /// The path at which it passes, on its way there.
    Passing,
    /// What is written.
    Output,
}

/// The first call that failed of those that a word makes, for who tells of it: errors of the layers below don't keep the system's
/// cause. It decides nothing.
#[derive(Drop)]
pub struct Trouble {
    // 0: none. Else the system's number for the error, and above it the place's number.
    noted: AtomicU64,
}

impl Trouble {
    /// No call has failed yet.
    pub fn none() -> Trouble {
        Trouble {
            noted: AtomicU64::new(0),
        }
    }

    /// A call has failed with this error; only the first is kept. One that was interrupted is made again.
    pub fn note(&self, place: Place, error: &io::Error) {
        if error.kind() != ErrorKind::Interrupted && self.noted.load(Ordering::SeqCst) == 0 {
            let code = error.raw_os_error().unwrap_or(0);
            self.noted.store(noted(place, code), Ordering::SeqCst);
        }
    }

    /// What the first call that failed was about, and the error, where the system has a number for it.
    pub fn cause(&self) -> Option<(Place, Option<io::Error>)> {
        let noted = self.noted.load(Ordering::SeqCst);
        let place = place_of(noted >> 32)?;
        let code = i32::try_from(noted & 0xffff_ffff).unwrap_or(0);
        let error = if code > 0 {
            Some(io::Error::from_raw_os_error(code))
        } else {
            None
        };
        Some((place, error))
    }
}

fn noted(place: Place, code: i32) -> u64 {
    let number: u64 = match place {
        Place::Image => 1,
        Place::Schema => 2,
        Place::Beside => 3,
        Place::Output => 4,
        Place::Kept => 5,
        Place::Passing => 6,
    };
    number << 32 | u64::from(code.unsigned_abs())
}

fn place_of(number: u64) -> Option<Place> {
    match number {
        1 => Some(Place::Image),
        2 => Some(Place::Schema),
        3 => Some(Place::Beside),
        4 => Some(Place::Output),
        5 => Some(Place::Kept),
        6 => Some(Place::Passing),
        _ => None,
    }
}
