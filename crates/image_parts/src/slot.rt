//! The two slots of the control (`docs/FORMAT.md`, "Control").
ghost use Rattle.std.specs.Prelude.{◌≡◌};
ghost use Rattle.image_parts.specs.Slots.{body_at, other, slot_at};

/// The bytes of a slot: its gate, seven bytes that nobody reads, and the body.
pub const SLOT_BYTES: usize = 1048;

// Where a slot's body begins, from the slot's start.
const BODY_AT: u64 = 8;

/// One of the two places of the control. One of them counts while the other is rewritten.
#[derive(Clone, Copy, Debug, PartialEq, Eq)]
pub enum Slot {
    /// The slot behind the header, in which a control stands when an image is made.
    A,
    /// The slot behind it.
    B,
}

impl Slot {
    /// The slot that is rewritten while this one counts.
    pub fn other(self) -> Slot
        ensures { result ≡ other self }
    {
        match self {
            Slot::A => Slot::B,
            Slot::B => Slot::A,
        }
    }

    /// Where the slot begins, with its gate.
    pub fn start(self) -> u64
        ensures { result ≡ slot_at self }
    {
        match self {
            Slot::A => 64,
            Slot::B => 1112,
        }
    }

    /// Where the slot's body begins.
    pub fn body(self) -> u64
        ensures { result ≡ body_at self }
    {
        self.start() + BODY_AT
    }
}
