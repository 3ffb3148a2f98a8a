// An event of the MC6840.
ghost use Rattle.std.specs.Prelude.{◌≡◌};
ghost use Rattle.signals.specs.Words6840.{levels_of, access_of, bad_event, wired_of};

use crate::{Signals, is_bad_event};
use timer::bit;

// Before the first event all levels are high.
pub const ALL_HIGH: u32 = 127;

// The levels of the input pins.
#[derive(Clone, Copy)]
pub struct Levels {
    pub c1: bool,
    pub c2: bool,
    pub c3: bool,
    pub g1: bool,
    pub g2: bool,
    pub g3: bool,
    pub reset: bool,
}

// What the bus asks: the register is RS0 + 2 RS1 + 4 RS2.
// One struct for both: a read has no data, and an event whose read has some is bad.
#[derive(Clone, Copy)]
pub struct Access {
    pub read: bool,
    pub register: u8,
    pub byte: u8,
}

impl From<u32> for Levels {
    ghost from_gives = { λ word levels. levels ≡ levels_of word };

    #[tactic(auto, unfolding(crate::specs::Words6840::levels_of))]
    fn from(word: u32) -> Levels {
        Levels {
            c1: bit::<0>(word),
            c2: bit::<1>(word),
            c3: bit::<2>(word),
            g1: bit::<3>(word),
            g2: bit::<4>(word),
            g3: bit::<5>(word),
            reset: bit::<6>(word),
        }
    }
}

// No From, as Option is not of this crate.
#[tactic(auto, unfolding(crate::specs::Words6840::access_of))]
pub fn access_of(word: u32) -> Option<Access>
    ensures { result ≡ access_of word }
{
    if !bit::<0>(word) {
        return None;
    }
    Some(Access {
        read: bit::<1>(word),
        register: (word / 4 % 8) as u8,
        byte: (word / 65536 % 256) as u8,
    })
}

impl Signals for Levels {
    ghost bad = { bad_event };

    #[tactic(auto, unfolding(crate::specs::Words6840::bad_event))]
    fn is_bad(levels: u32, access: u32) -> bool {
        is_bad_event::<7, 5>(levels, access)
    }
}

impl Levels {
    // The wire's level on the input that it goes to, by its number: the record that C holds may have any byte, and no enum.
    #[tactic(auto, unfolding(crate::specs::Words6840::wired_of))]
    pub fn wired(mut self, wire: u8, level: bool) -> Levels
        ensures { result ≡ wired_of wire level self }
    {
        match wire {
            1 => {
                self.c1 = level;
                self
            }
            2 => {
                self.c2 = level;
                self
            }
            3 => {
                self.c3 = level;
                self
            }
            _ => self,
        }
    }
}
