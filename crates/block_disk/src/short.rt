//! A few bytes that are kept in place.
ghost use Rattle.std.specs.Prelude.{◌≡◌, ◌↔◌, ◌≤◌, length, IsSome, IfSome};

use std::marker::Model;

// A record of an undo log has as many.
const MOST: usize = 16;

/// At most sixteen bytes, for which no memory is asked.
#[derive(Drop)]
pub struct ShortBytes {
    bytes: [u8; MOST],
    len: u8,
}

impl Model for ShortBytes {
    ghost use Rattle.std.specs.Prelude.{ℕ, List, take, ◌≤◌};

    ghost Value = { List ℕ };

    ghost view = { λ short. take short.len short.bytes };

    ghost invariant = { λ short. short.len ≤ 16 };
}

impl ShortBytes {
    /// These bytes, where they are few enough.
    pub fn of(bytes: &[u8]) -> Option<ShortBytes>
        ensures there { IsSome result ↔ (length bytes.now ≤ 16) }
        ensures same { IfSome result (λ short. short ≡ bytes.now) }
    {
        if bytes.len() > MOST {
            return None;
        }
        let mut kept = [0; MOST];
        kept[..bytes.len()].copy_from_slice(bytes);
        Some(ShortBytes {
            bytes: kept,
            len: bytes.len() as u8,
        })
    }

    /// The bytes.
    pub fn as_slice(&self) -> &[u8]
        ensures { result.now ≡ self.now }
    {
        &self.bytes[..usize::from(self.len)]
    }
}
