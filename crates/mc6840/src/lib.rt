// The MC6840: three timers side by side behind eight registers.
#![tactic(auto)]

ghost use Rattle.std.specs.Prelude.{◌≡◌, ◌<◌};
ghost use Rattle.timer.specs.Fields.{bit};
ghost use Rattle.timer.specs.Rules as timer;
ghost use Rattle.mc6840.specs.Fields.{place_in, timer_at, with_msb};
ghost use Rattle.mc6840.specs.Rules.{setting_at, reset_of, start_of, clocked, composite_of, status_byte, status_of, armed_all, msb_read_at, driven, after_read, control_at, latch_at, control_zero, stored, settled_all, accessed, under_reset, cycle_of, outputs_of, in_range};

use signals::Done;
use signals::m6840::{ALL_HIGH, Access, Levels};
use timer::{Setting, Timer, bit};

// The three timers, whose control bytes are CR1 to CR3, the one MSB buffer and the one LSB buffer.
#[repr(C)]
#[derive(Clone, Copy)]
pub struct Ptm {
    pub timers: [Timer; 3],
    pub msb: u8,
    pub lsb: u8,
}

// The levels of the output pins.
#[derive(Clone, Copy)]
pub struct Outputs {
    pub o1: bool,
    pub o2: bool,
    pub o3: bool,
}

// One of the three timers.
#[derive(Clone, Copy, PartialEq, Eq)]
enum Nth {
    First,
    Second,
    Third,
}

impl Nth {
    fn place(self) -> usize
        ensures value { result ≡ place_in self }
        ensures bound { result < 3 }
    {
        match self {
            Nth::First => 0,
            Nth::Second => 1,
            Nth::Third => 2,
        }
    }
}

#[tactic(auto, unfolding(crate::specs::Rules::status_byte))]
fn status_byte(first: bool, second: bool, third: bool, any: bool) -> u8
    ensures { result ≡ status_byte first second third any }
{
    u8::from(first) + 2 * u8::from(second) + 4 * u8::from(third) + 128 * u8::from(any)
}

// Divided by 8 a timer never goes the quick way. This second caller also keeps full_cycle a call of its own, so that cycle stays
// small enough to be inlined; it works on copies, so that what is quick stays in registers.
fn cycle_third(t: Timer, s: Setting, gate: bool, clock: bool) -> Timer
    ensures { result ≡ timer.cycle_of s gate clock t }
{
    if s.divided {
        let slow = t;
        let setting = s;
        let next = slow.full_cycle(setting, gate, clock);
        return next;
    }
    t.cycle(s, gate, clock)
}

impl Ptm {
    fn control_bit<const K: u32>(self, which: Nth) -> bool
        ensures { result ≡ bit K (timer_at (place_in which) self).control }
    {
        bit::<K>(u32::from(self.timers[which.place()].control))
    }

    // What the chip says of a timer.
    #[tactic(auto, unfolding(crate::specs::Rules::setting_at))]
    fn setting(self, which: Nth) -> Setting
        ensures { result ≡ setting_at (place_in which) self }
    {
        Setting {
            held: self.control_bit::<0>(Nth::First),
            divided: (which == Nth::Third) & self.control_bit::<0>(Nth::Third),
            dual: self.control_bit::<2>(which),
            cascades: false,
        }
    }

    #[tactic(auto, unfolding(crate::specs::Rules::reset_of))]
    fn reset(levels: Levels) -> Ptm
        ensures { result ≡ reset_of levels }
    {
        let first = Timer::reset(1, levels.g1, levels.c1);
        let second = Timer::reset(0, levels.g2, levels.c2);
        let third = Timer::reset(0, levels.g3, levels.c3);
        Ptm {
            timers: [first, second, third],
            msb: 0,
            lsb: 0,
        }
    }

    #[tactic(auto, unfolding(crate::specs::Rules::start_of))]
    pub fn start() -> Ptm
        ensures { result ≡ start_of }
    {
        Ptm::reset(Levels::from(ALL_HIGH))
    }

    // Gate edges and clocks of the three timers; each is written out, as the third goes its own way.
    #[tactic(auto, unfolding(crate::specs::Rules::clocked))]
    fn clock(self, levels: Levels) -> Ptm
        ensures { result ≡ clocked levels self }
    {
        let [t1, t2, t3] = self.timers;
        let first = t1.cycle(self.setting(Nth::First), levels.g1, levels.c1);
        let second = t2.cycle(self.setting(Nth::Second), levels.g2, levels.c2);
        let third = cycle_third(t3, self.setting(Nth::Third), levels.g3, levels.c3);
        Ptm {
            timers: [first, second, third],
            ..self
        }
    }

    // Any enabled flag is set.
    #[tactic(auto, unfolding(crate::specs::Rules::composite_of))]
    pub fn composite(self) -> bool
        ensures { result ≡ composite_of self }
    {
        self.timers.iter().any(|t| t.interrupts())
    }

    #[tactic(auto, unfolding(crate::specs::Rules::status_of))]
    fn status(self) -> u8
        ensures { result ≡ status_of self }
    {
        let [t1, t2, t3] = self.timers;
        status_byte(t1.flag, t2.flag, t3.flag, self.composite())
    }

    #[tactic(auto, unfolding(crate::specs::Rules::armed_all))]
    fn arm(self) -> Ptm
        ensures { result ≡ armed_all self }
    {
        Ptm {
            timers: self.timers.map(|t| t.arm()),
            ..self
        }
    }

    #[tactic(auto, unfolding(crate::specs::Rules::msb_read_at))]
    fn read_msb(mut self, which: Nth) -> Ptm
        ensures { result ≡ msb_read_at (place_in which) self }
    {
        let i = which.place();
        self.lsb = self.timers[i].counter_lsb();
        self.timers[i] = self.timers[i].read_msb();
        self
    }

    // What a read of a register drives. Registers go by their numbers, as the chip's table has them: an enum would be a second table.
    #[tactic(auto, unfolding(crate::specs::Rules::driven))]
    fn drive(self, register: u8) -> Option<u8>
        ensures { result ≡ driven register self }
    {
        let [t1, t2, t3] = self.timers;
        match register {
            1 => Some(self.status()),
            2 => Some(t1.counter_msb()),
            4 => Some(t2.counter_msb()),
            6 => Some(t3.counter_msb()),
            3 | 5 | 7 => Some(self.lsb),
            _ => None,
        }
    }

    #[tactic(auto, unfolding(crate::specs::Rules::after_read))]
    fn after_read(self, register: u8) -> Ptm
        ensures { result ≡ after_read register self }
    {
        match register {
            1 => self.arm(),
            2 => self.read_msb(Nth::First),
            4 => self.read_msb(Nth::Second),
            6 => self.read_msb(Nth::Third),
            _ => self,
        }
    }

    #[tactic(auto, unfolding(crate::specs::Rules::control_at))]
    fn write_control(mut self, which: Nth, value: u8) -> Ptm
        ensures { result ≡ control_at (place_in which) value self }
    {
        let i = which.place();
        self.timers[i] = self.timers[i].write_control(value);
        self
    }

    // W, with the MSB buffer.
    #[tactic(auto, unfolding(crate::specs::Rules::latch_at))]
    fn write_latch(mut self, which: Nth, value: u8) -> Ptm
        ensures { result ≡ latch_at (place_in which) value self }
    {
        let i = which.place();
        let latch = u16::from_be_bytes([self.msb, value]);
        self.timers[i] = self.timers[i].write_latch(self.setting(which), latch);
        self
    }

    fn write_msb(mut self, value: u8) -> Ptm
        ensures { result ≡ with_msb value self }
    {
        self.msb = value;
        self
    }

    // CR20 says which control register stands at 0.
    #[tactic(auto, unfolding(crate::specs::Rules::control_zero))]
    fn write_zero(self, value: u8) -> Ptm
        ensures { result ≡ control_zero value self }
    {
        if self.control_bit::<0>(Nth::Second) {
            return self.write_control(Nth::First, value);
        }
        self.write_control(Nth::Third, value)
    }

    #[tactic(auto, unfolding(crate::specs::Rules::stored))]
    fn store(self, register: u8, value: u8) -> Ptm
        ensures { result ≡ stored register value self }
    {
        match register {
            0 => self.write_zero(value),
            1 => self.write_control(Nth::Second, value),
            2 | 4 | 6 => self.write_msb(value),
            3 => self.write_latch(Nth::First, value),
            5 => self.write_latch(Nth::Second, value),
            7 => self.write_latch(Nth::Third, value),
            _ => self,
        }
    }

    #[tactic(auto, unfolding(crate::specs::Rules::settled_all))]
    fn settle(self) -> Ptm
        ensures { result ≡ settled_all self }
    {
        let each = [Nth::First, Nth::Second, Nth::Third];
        Ptm {
            timers: each.map(|which| self.timers[which.place()].settle(self.setting(which))),
            ..self
        }
    }

    // A read or a write.
    #[tactic(auto, unfolding(crate::specs::Rules::accessed))]
    fn transfer(self, asked: Access) -> Done<Ptm>
        ensures { result ≡ accessed (Some asked) self }
    {
        if asked.read {
            return Done {
                chip: self.after_read(asked.register),
                answer: self.drive(asked.register),
            };
        }
        Done {
            chip: self.store(asked.register, asked.byte).settle(),
            answer: None,
        }
    }

    // RESET low: a read answers and leaves all alone, a write does nothing.
    #[tactic(auto, unfolding(crate::specs::Rules::under_reset))]
    fn stay(self, access: Option<Access>) -> Done<Ptm>
        ensures { result ≡ under_reset access self }
    {
        let read = access.filter(|asked| asked.read);
        Done {
            chip: self,
            answer: read.and_then(|asked| self.drive(asked.register)),
        }
    }

    // One cycle: RESET, or gate edges and clocks and then the bus access, on copies, so that what is quiet stays in registers.
    #[tactic(auto, unfolding(crate::specs::Rules::cycle_of, crate::specs::Rules::accessed))]
    pub fn cycle(self, levels: Levels, access: Option<Access>) -> Done<Ptm>
        ensures { result ≡ cycle_of levels access self }
    {
        if !levels.reset {
            let low = Ptm::reset(levels);
            let given = access;
            return low.stay(given);
        }
        let after = self.clock(levels);
        let Some(asked) = access else {
            return Done {
                chip: after,
                answer: None,
            };
        };
        let chip = after;
        chip.transfer(asked)
    }

    // The pins O1 to O3.
    #[tactic(auto, unfolding(crate::specs::Rules::outputs_of))]
    pub fn outputs(self) -> Outputs
        ensures { result ≡ outputs_of self }
    {
        let [t1, t2, t3] = self.timers;
        Outputs {
            o1: t1.pin(self.setting(Nth::First)),
            o2: t2.pin(self.setting(Nth::Second)),
            o3: t3.pin(self.setting(Nth::Third)),
        }
    }

    // Each prescaler stands at 0 to 7.
    #[tactic(auto, unfolding(crate::specs::Rules::in_range))]
    pub fn in_range(self) -> bool
        ensures { result ≡ in_range self }
    {
        self.timers.iter().all(|t| t.in_range())
    }
}
