// The slots of a store, and where their bytes begin.
ghost use Rattle.std.specs.Prelude.{◌≡◌, ◌+◌, ◌*◌, ◌<◌};

use crate::bytes::FRAMED;

// How many sheets are kept at most.
pub(crate) const MOST: u16 = 512;

// Sheet, take, and the pose with its frames.
pub(crate) const SLOT: usize = 2 + 2 + FRAMED;

// Where the slots begin, after two bytes for each sheet number.
const SLOTS: usize = 65_536 * 2;

// Where the number of slots in use is stored.
pub(crate) const TAIL: usize = SLOTS + 512 * SLOT;

#[derive(Clone, Copy)]
pub(crate) struct Slot {
    pub(crate) number: u16,
    ghost below: { number < 512 },
}

impl Slot {
    // Where the slot's bytes begin.
    pub(crate) fn start(self) -> usize
        ensures { result ≡ 131072 + 72 * self.number }
    {
        SLOTS + SLOT * self.number as usize
    }
}
