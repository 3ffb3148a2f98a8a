// One programmable timer, as the MC6846 has one and the MC6840 three.
#![tactic(auto)]

ghost use Rattle.std.specs.Prelude.{◌≡◌, ◌&&◌, not, true, false};
ghost use Rattle.timer.specs.Fields.{bit, msb, lsb, with_divider, with_flag, with_level, with_running, with_marks, with_inputs};
ghost use Rattle.timer.specs.Quick.{plain, plain_clock, plain_cycle};
ghost use Rattle.timer.specs.Rules.{mode_of, ticks, divider_after, passes, held, settled, initialised, started, caught, early, written, latch_written, fell, loads, rose, gated, enabled, fallen, shaped, last_row, level_after, timed_out, counted_down, edged, reaches, free_cycle, cycle_of, pin_of, control_written, armed_by, msb_read, asks, reset_state, fits};

// Bit K of a word; a narrower one is widened by From. Past the word no bit is set, so that every K has an answer.
pub fn bit<const K: u32>(word: u32) -> bool
    ensures { result ≡ bit K word }
{
    let Some(rest) = word.checked_shr(K) else {
        return false;
    };
    rest % 2 == 1
}

// What a timer keeps from cycle to cycle.
#[repr(C)]
#[derive(Clone, Copy)]
pub struct Timer {
    pub latch: u16,
    pub counter: u16,
    pub control: u8,
    pub divider: u8,
    pub flag: bool,
    pub level: bool,
    // the marks "counted" and "timed out"
    pub counted: bool,
    pub lapsed: bool,
    pub armed: bool,
    pub running: bool,
    // the gate's and the clock's level in the cycle before
    pub gate: bool,
    pub clock: bool,
}

// The levels of a timer's gate and clock in a cycle.
#[derive(Clone, Copy)]
struct Inputs {
    gate: bool,
    clock: bool,
}

// What the chip says of a timer: held by internal reset, divided by 8, dual 8-bit, mode 001 cascades.
#[derive(Clone, Copy)]
pub struct Setting {
    pub held: bool,
    pub divided: bool,
    pub dual: bool,
    pub cascades: bool,
}

// The family of modes that bits 3-5 choose.
#[derive(Clone, Copy)]
pub enum Mode {
    Continuous,
    SingleShot,
    Cascaded,
    Interval { pulse: bool, greater: bool },
}

#[tactic(auto, unfolding(crate::specs::Rules::mode_of))]
fn mode_of(s: Setting, control: u8) -> Mode
    ensures { result ≡ mode_of s control }
{
    let control = u32::from(control);
    let pulse = bit::<4>(control);
    let greater = bit::<5>(control);
    if bit::<3>(control) {
        return Mode::Interval { pulse, greater };
    }
    if !greater {
        return Mode::Continuous;
    }
    if s.cascades & !pulse {
        return Mode::Cascaded;
    }
    Mode::SingleShot
}

#[tactic(auto, unfolding(crate::specs::Rules::divider_after))]
fn divider_after(s: Setting, tick: bool, divider: u8) -> u8
    ensures { result ≡ divider_after s tick divider }
{
    if !s.divided {
        return 0;
    }
    if !tick {
        return divider;
    }
    (divider % 8 + 1) % 8
}

fn passes_divider(s: Setting, tick: bool, divider: u8) -> bool
    ensures { result ≡ passes s tick divider }
{
    tick & (!s.divided | (divider % 8 == 7))
}

#[tactic(auto, unfolding(crate::specs::Rules::fallen))]
fn fall(dual: bool, latch: u16, counter: u16) -> u16
    ensures { result ≡ fallen dual latch counter }
{
    if counter == 0 {
        return latch;
    }
    if dual & (counter % 256 == 0) {
        return counter - 256 + latch % 256;
    }
    counter - 1
}

impl Timer {
    fn control_bit<const K: u32>(self) -> bool
        ensures { result ≡ bit K self.control }
    {
        bit::<K>(u32::from(self.control))
    }

    fn sampled(mut self, inputs: Inputs) -> Timer
        ensures { result ≡ with_inputs inputs.gate inputs.clock self }
    {
        self.gate = inputs.gate;
        self.clock = inputs.clock;
        self
    }

    fn ticked(self, clock: bool) -> bool
        ensures { result ≡ ticks clock self }
    {
        self.control_bit::<1>() | (self.clock & !clock)
    }

    #[tactic(auto, unfolding(crate::specs::Rules::initialised))]
    fn initialise(mut self) -> Timer
        ensures { result ≡ initialised self }
    {
        self.counter = self.latch;
        self.flag = false;
        self.armed = false;
        self.level = false;
        self.counted = false;
        self.lapsed = false;
        self
    }

    #[tactic(auto, unfolding(crate::specs::Rules::held))]
    fn hold(self) -> Timer
        ensures { result ≡ held self }
    {
        let mut t = self.initialise();
        t.divider = 0;
        t.running = false;
        t
    }

    // What a write leaves: held by internal reset, and the divider at 0 where it is off.
    #[tactic(auto, unfolding(crate::specs::Rules::settled))]
    pub fn settle(mut self, s: Setting) -> Timer
        ensures { result ≡ settled s self }
    {
        if s.held {
            return self.hold();
        }
        if s.divided {
            return self;
        }
        self.divider = 0;
        self
    }

    #[tactic(auto, unfolding(crate::specs::Rules::started))]
    fn start(self) -> Timer
        ensures { result ≡ started self }
    {
        let mut t = self.initialise();
        t.running = true;
        t
    }

    #[tactic(auto, unfolding(crate::specs::Rules::caught))]
    fn catch(mut self) -> Timer
        ensures { result ≡ caught self }
    {
        self.flag = true;
        self.running = false;
        self
    }

    fn early(self, pulse: bool, greater: bool) -> bool
        ensures { result ≡ early pulse greater self }
    {
        !pulse & !greater & self.running & !self.lapsed
    }

    #[tactic(auto, unfolding(crate::specs::Rules::fell))]
    fn fall_interval(self, pulse: bool, greater: bool) -> Timer
        ensures { result ≡ fell (Mode.Interval pulse greater) self }
    {
        if self.flag {
            return self;
        }
        if self.early(pulse, greater) {
            return self.catch();
        }
        self.start()
    }

    #[tactic(auto, unfolding(crate::specs::Rules::fell))]
    fn gate_fall(self, mode: Mode) -> Timer
        ensures { result ≡ fell mode self }
    {
        match mode {
            Mode::Continuous | Mode::SingleShot => self.initialise(),
            Mode::Cascaded => {
                let mut t = self.initialise();
                t.level = self.level;
                t
            }
            Mode::Interval { pulse, greater } => self.fall_interval(pulse, greater),
        }
    }

    #[tactic(auto, unfolding(crate::specs::Rules::loads))]
    fn loaded(self, mode: Mode) -> bool
        ensures { result ≡ loads mode self }
    {
        match mode {
            Mode::Continuous | Mode::SingleShot | Mode::Cascaded => true,
            Mode::Interval { pulse, greater } => !(self.flag | self.early(pulse, greater)),
        }
    }

    #[tactic(auto, unfolding(crate::specs::Rules::rose))]
    fn rise_pulse(mut self, greater: bool) -> Timer
        ensures { result ≡ rose (Mode.Interval true greater) self }
    {
        if !greater & self.running & !self.lapsed {
            return self.catch();
        }
        self.running = false;
        self
    }

    #[tactic(auto, unfolding(crate::specs::Rules::rose))]
    fn gate_rise(self, mode: Mode) -> Timer
        ensures { result ≡ rose mode self }
    {
        match mode {
            Mode::Interval {
                pulse: true,
                greater,
            } => self.rise_pulse(greater),
            _ => self,
        }
    }

    #[tactic(auto, unfolding(crate::specs::Rules::gated))]
    fn gate_edge(self, mode: Mode, gate: bool) -> Timer
        ensures { result ≡ gated mode gate self }
    {
        if self.gate & !gate {
            return self.gate_fall(mode);
        }
        if !self.gate & gate {
            return self.gate_rise(mode);
        }
        self
    }

    #[tactic(auto, unfolding(crate::specs::Rules::enabled))]
    fn counts(self, mode: Mode, gate: bool) -> bool
        ensures { result ≡ enabled mode gate self }
    {
        match mode {
            Mode::Continuous => !gate,
            Mode::SingleShot | Mode::Cascaded => true,
            Mode::Interval { .. } => self.running,
        }
    }

    fn dual_output(self, s: Setting) -> bool
        ensures { result ≡ shaped s self }
    {
        s.dual & (self.latch % 256 != 0)
    }

    fn in_last_row(self) -> bool
        ensures { result ≡ last_row self }
    {
        (self.counter / 256 == 0) & (self.counter % 256 != 0)
    }

    #[tactic(auto, unfolding(crate::specs::Rules::level_after))]
    fn continuous_level(self, s: Setting) -> bool
        ensures { result ≡ level_after Mode.Continuous s self }
    {
        let out = self.counter == 0;
        if self.dual_output(s) {
            return !out & (self.level | self.in_last_row());
        }
        if out {
            return !self.level;
        }
        self.level
    }

    #[tactic(auto, unfolding(crate::specs::Rules::level_after))]
    fn single_shot_level(self, s: Setting) -> bool
        ensures { result ≡ level_after Mode.SingleShot s self }
    {
        let out = self.counter == 0;
        if self.dual_output(s) {
            return !out & (self.level | (self.in_last_row() & !self.lapsed));
        }
        !out & (self.level | !self.counted)
    }

    #[tactic(auto, unfolding(crate::specs::Rules::level_after))]
    fn next_level(self, mode: Mode, s: Setting) -> bool
        ensures { result ≡ level_after mode s self }
    {
        match mode {
            Mode::Continuous => self.continuous_level(s),
            Mode::SingleShot => self.single_shot_level(s),
            Mode::Cascaded => {
                if self.counter == 0 {
                    return self.control_bit::<7>();
                }
                self.level
            }
            Mode::Interval { .. } => false,
        }
    }

    #[tactic(auto, unfolding(crate::specs::Rules::timed_out))]
    fn flag_time_out(mut self) -> Timer
        ensures { result ≡ timed_out Mode.Continuous self }
    {
        self.flag = true;
        self.lapsed = true;
        self
    }

    #[tactic(auto, unfolding(crate::specs::Rules::timed_out))]
    fn time_out(mut self, mode: Mode) -> Timer
        ensures { result ≡ timed_out mode self }
    {
        match mode {
            Mode::Interval { greater: true, .. } => self.catch(),
            Mode::Interval { .. } => {
                self.lapsed = true;
                self
            }
            _ => self.flag_time_out(),
        }
    }

    #[tactic(auto, unfolding(crate::specs::Rules::counted_down))]
    fn count_down(self, s: Setting, mode: Mode) -> Timer
        ensures { result ≡ counted_down s mode self }
    {
        let mut t = self;
        t.level = self.next_level(mode, s);
        t.counter = fall(s.dual, self.latch, self.counter);
        t.counted = true;
        if self.counter == 0 {
            return t.time_out(mode);
        }
        t
    }

    fn with_divider(mut self, divider: u8) -> Timer
        ensures { result ≡ with_divider divider self }
    {
        self.divider = divider;
        self
    }

    // Setting, mode and inputs stay apart, here and in the next two: a struct of them would be taken apart again in each.
    #[tactic(auto, unfolding(crate::specs::Rules::edged))]
    fn edge_first(self, s: Setting, mode: Mode, inputs: Inputs) -> Timer
        ensures { result ≡ edged s mode inputs.gate inputs.clock self }
    {
        let divider = divider_after(s, self.ticked(inputs.clock), self.divider);
        self.gate_edge(mode, inputs.gate)
            .with_divider(divider)
            .sampled(inputs)
    }

    #[tactic(auto, unfolding(crate::specs::Rules::reaches))]
    fn clock_reaches(self, s: Setting, mode: Mode, inputs: Inputs) -> bool
        ensures { result ≡ reaches s mode inputs.gate inputs.clock self }
    {
        let passed = passes_divider(s, self.ticked(inputs.clock), self.divider);
        passed & !(self.gate & !inputs.gate & self.loaded(mode))
    }

    #[tactic(auto, unfolding(crate::specs::Rules::free_cycle))]
    fn free_cycle(self, s: Setting, mode: Mode, inputs: Inputs) -> Timer
        ensures { result ≡ free_cycle s mode inputs.gate inputs.clock self }
    {
        let t = self.edge_first(s, mode, inputs);
        if self.clock_reaches(s, mode, inputs) & t.counts(mode, inputs.gate) {
            return t.count_down(s, mode);
        }
        t
    }

    // One cycle as document 01 has it: gate edges, then clocks; held by internal reset, neither.
    #[tactic(auto, unfolding(crate::specs::Rules::cycle_of))]
    pub fn full_cycle(self, s: Setting, gate: bool, clock: bool) -> Timer
        ensures { result ≡ cycle_of s gate clock self }
    {
        let inputs = Inputs { gate, clock };
        if s.held {
            return self.hold().sampled(inputs);
        }
        self.free_cycle(s, mode_of(s, self.control), inputs)
    }

    // Continuous, 16-bit and undivided, not in internal reset, with no gate edge.
    #[tactic(auto, unfolding(crate::specs::Quick::plain))]
    fn plain(self, s: Setting, gate: bool) -> bool
        ensures { result ≡ plain s gate self }
    {
        !s.held
            & !s.divided
            & !s.dual
            & !self.control_bit::<3>()
            & !self.control_bit::<5>()
            & (self.gate == gate)
    }

    #[tactic(auto, unfolding(crate::specs::Quick::plain_clock))]
    fn plain_clock(mut self) -> Timer
        ensures { result ≡ plain_clock self }
    {
        self.counted = true;
        if self.counter == 0 {
            self.counter = self.latch;
            self.level = !self.level;
            self.flag = true;
            self.lapsed = true;
            return self;
        }
        self.counter -= 1;
        self
    }

    #[tactic(auto, unfolding(crate::specs::Quick::plain_cycle))]
    fn plain_cycle(mut self, gate: bool, clock: bool) -> Timer
        ensures { result ≡ plain_cycle gate clock self }
    {
        let counts = self.ticked(clock) & !gate;
        self.divider = 0;
        self.clock = clock;
        if counts {
            return self.plain_clock();
        }
        self
    }

    // One cycle, the quick way where it is plain. The rest works on copies, so that what is plain stays in registers. Gate and clock are
    // no struct here: that would go by a pointer, and the cycle would not be inlined, which takes the chips half as long again or twice.
    pub fn cycle(self, s: Setting, gate: bool, clock: bool) -> Timer
        ensures { result ≡ cycle_of s gate clock self }
    {
        if self.plain(s, gate) {
            return self.plain_cycle(gate, clock);
        }
        let t = self;
        let setting = s;
        let next = t.full_cycle(setting, gate, clock);
        next
    }

    // 000, and 001 on the 6840, begin anew with the latch; 010 and 011 do not.
    #[tactic(auto, unfolding(crate::specs::Rules::written))]
    fn load_by_write(self) -> Timer
        ensures { result ≡ written Mode.Continuous self }
    {
        if self.control_bit::<4>() {
            return self;
        }
        self.initialise()
    }

    fn cancel(mut self) -> Timer
        ensures { result ≡ with_running false (with_flag false false self) }
    {
        self.flag = false;
        self.armed = false;
        self.running = false;
        self
    }

    #[tactic(auto, unfolding(crate::specs::Rules::written))]
    fn take_latch(self, mode: Mode) -> Timer
        ensures { result ≡ written mode self }
    {
        match mode {
            Mode::Continuous | Mode::SingleShot => self.load_by_write(),
            Mode::Cascaded => self,
            Mode::Interval { .. } => self.cancel(),
        }
    }

    // W, a latch write.
    #[tactic(auto, unfolding(crate::specs::Rules::latch_written))]
    pub fn write_latch(mut self, s: Setting, value: u16) -> Timer
        ensures { result ≡ latch_written s value self }
    {
        self.latch = value;
        self.take_latch(mode_of(s, self.control))
    }

    // Another mode begins anew.
    fn forget(mut self) -> Timer
        ensures { result ≡ with_running false (with_level false (with_marks false false self)) }
    {
        self.running = false;
        self.level = false;
        self.counted = false;
        self.lapsed = false;
        self
    }

    #[tactic(auto, unfolding(crate::specs::Rules::control_written))]
    pub fn write_control(mut self, value: u8) -> Timer
        ensures { result ≡ control_written value self }
    {
        let stays = value / 8 % 8 == self.control / 8 % 8;
        self.control = value;
        if stays {
            return self;
        }
        self.forget()
    }

    // A status read arms a set flag.
    pub fn arm(mut self) -> Timer
        ensures { result ≡ armed_by self }
    {
        self.armed |= self.flag;
        self
    }

    pub fn counter_msb(self) -> u8
        ensures { result ≡ msb self.counter }
    {
        let [msb, _] = self.counter.to_be_bytes();
        msb
    }

    // What an MSB read copies to the LSB buffer.
    pub fn counter_lsb(self) -> u8
        ensures { result ≡ lsb self.counter }
    {
        let [_, lsb] = self.counter.to_be_bytes();
        lsb
    }

    // An MSB read clears an armed flag.
    #[tactic(auto, unfolding(crate::specs::Rules::msb_read))]
    pub fn read_msb(mut self) -> Timer
        ensures { result ≡ msb_read self }
    {
        if self.armed {
            self.flag = false;
            self.armed = false;
            return self;
        }
        self
    }

    // The reset state, with the levels sampled in that cycle.
    pub fn reset(control: u8, gate: bool, clock: bool) -> Timer
        ensures { result ≡ reset_state control gate clock }
    {
        Timer {
            latch: 65535,
            counter: 65535,
            control,
            divider: 0,
            flag: false,
            level: false,
            counted: false,
            lapsed: false,
            armed: false,
            running: false,
            gate,
            clock,
        }
    }

    // The timer's flag is set and enabled.
    pub fn interrupts(self) -> bool
        ensures { result ≡ asks self }
    {
        self.flag & self.control_bit::<6>()
    }

    // The divider stands where it can: 0 to 7.
    pub fn in_range(self) -> bool
        ensures { result ≡ fits self }
    {
        self.divider <= 7
    }

    #[tactic(auto, unfolding(crate::specs::Rules::pin_in))]
    pub fn pin(self, s: Setting) -> bool
        ensures { result ≡ pin_of s self }
    {
        let enabled = self.level & self.control_bit::<7>();
        match mode_of(s, self.control) {
            Mode::Cascaded => self.level,
            _ => enabled,
        }
    }
}
