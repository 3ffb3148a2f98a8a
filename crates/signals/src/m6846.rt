// An event of the MC6846.
ghost use Rattle.std.specs.Prelude.{◌≡◌};
ghost use Rattle.signals.specs.Words6846.{levels_of, access_of, bad_event};

use crate::{Signals, is_bad_event};
use timer::bit;

// Before the first event all levels are high.
pub const ALL_HIGH: u32 = 8191;

// The levels recognised in a cycle: P, CP1, CP2, CTG, CTC, RESET.
#[derive(Clone, Copy)]
pub struct Levels {
    pub pins: u8,
    pub cp1: bool,
    pub cp2: bool,
    pub gate: bool,
    pub clock: bool,
    pub reset: bool,
}

// What the bus asks in a cycle; the code is CS0 + 2 x CS1, the address A0-A10.
// One struct for both: a read has no data, and an event whose read has some is bad.
#[derive(Clone, Copy)]
pub struct Access {
    pub read: bool,
    pub code: u8,
    pub address: u16,
    pub byte: u8,
}

impl From<u32> for Levels {
    ghost from_gives = { λ word levels. levels ≡ levels_of word };

    #[tactic(auto, unfolding(crate::specs::Words6846::levels_of))]
    fn from(word: u32) -> Levels {
        Levels {
            pins: (word % 256) as u8,
            cp1: bit::<8>(word),
            cp2: bit::<9>(word),
            gate: bit::<10>(word),
            clock: bit::<11>(word),
            reset: bit::<12>(word),
        }
    }
}

// No From, as Option is not of this crate.
#[tactic(auto, unfolding(crate::specs::Words6846::access_of))]
pub fn access_of(word: u32) -> Option<Access>
    ensures { result ≡ access_of word }
{
    if !bit::<0>(word) {
        return None;
    }
    Some(Access {
        read: bit::<1>(word),
        code: (word / 4 % 4) as u8,
        address: (word / 16 % 2048) as u16,
        byte: (word / 65536 % 256) as u8,
    })
}

impl Signals for Levels {
    ghost bad = { bad_event };

    #[tactic(auto, unfolding(crate::specs::Words6846::bad_event))]
    fn is_bad(levels: u32, access: u32) -> bool {
        is_bad_event::<13, 15>(levels, access)
    }
}
