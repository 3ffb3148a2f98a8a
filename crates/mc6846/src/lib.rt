// The MC6846: ROM, port and timer, a cycle at a time.
#![tactic(auto)]

ghost use Rattle.std.specs.Prelude.{◌≡◌, get_or};
ghost use Rattle.timer.specs.Fields.{bit};
ghost use Rattle.mc6846.specs.Fields.{with_msb, with_ddr, done};
ghost use Rattle.mc6846.specs.Port.{mixed, active_edge, cp1_edge, cp2_edge, capturing, flagged, marked, pdr_byte, released, touched_by, pdr_written, port_cleared, port_settled, cp2_out, cp2_of, port_of};
ghost use Rattle.mc6846.specs.Registers.{setting_of, a6_fits, extra_fits, io_chosen, composite_of, status_of, register_byte, status_read, counter_read, after_read, pcr_written, tcr_written, lsb_written, stored, timer_settled, after_write};
ghost use Rattle.mc6846.specs.Cycle.{sampled, reset_of, start_of, edged, clocked, read_by, written_by, transferred, accessed, shown, reset_cycle, cycle_of, cto_of, in_range};

use signals::Done;
use signals::m6846::{ALL_HIGH, Access, Levels};
use timer::{Setting, Timer, bit};

// What the chip keeps from cycle to cycle; strobed, raised and the levels before are made anew in each.
#[repr(C)]
#[derive(Clone, Copy)]
pub struct Combo {
    pub timer: Timer,
    // the buffers of the counter's two bytes
    pub msb: u8,
    pub lsb: u8,
    pub pcr: u8,
    pub ddr: u8,
    pub pdr: u8,
    // the levels that a CP1 edge captured; `captured` says whether, as the record that C holds may have any byte, and no Option
    pub capture: u8,
    // the levels of P last sampled
    pub pins: u8,
    pub flag1: bool,
    pub armed1: bool,
    pub flag2: bool,
    pub armed2: bool,
    pub captured: bool,
    // a PDR access in this cycle, and in the cycle before
    pub touched: bool,
    pub strobed: bool,
    // flag 1 was set after this cycle's edges
    pub raised: bool,
    // the levels of CP1 and CP2 last sampled
    pub cp1: bool,
    pub cp2: bool,
    // the levels of CP1 and CP2 in the cycle before: what edges compare with
    pub before1: bool,
    pub before2: bool,
    // the level that CP2 drives as an output, as this cycle left it
    pub driven: bool,
}

// What selects ROM and I/O: their codes, the A6 option, the extra line. Numbers, as the record that C holds may have any byte, and no enum.
#[repr(C)]
#[derive(Clone, Copy)]
pub struct Select {
    pub rom: u8,
    pub io: u8,
    pub a6: u8,
    pub extra: u8,
}

// What stands on the bus beside the registers: the select options and the ROM. Select by itself is C's.
#[derive(Clone, Copy)]
pub struct Bus<'a> {
    pub select: Select,
    pub rom: &'a [u8],
}

// Output bits from one byte, input bits from the other.
#[tactic(auto, unfolding(crate::specs::Port::mixed))]
fn mix(ddr: u8, outputs: u8, inputs: u8) -> u8
    ensures { result ≡ mixed ddr outputs inputs }
{
    (ddr & outputs) | (!ddr & inputs)
}

#[tactic(auto, unfolding(crate::specs::Port::active_edge))]
fn active_edge(rising: bool, before: bool, level: bool) -> bool
    ensures { result ≡ active_edge rising before level }
{
    if rising {
        return !before & level;
    }
    before & !level
}

#[tactic(auto, unfolding(crate::specs::Registers::setting_of))]
fn setting_of(t: Timer) -> Setting
    ensures { result ≡ setting_of t }
{
    let control = u32::from(t.control);
    Setting {
        held: bit::<0>(control),
        divided: bit::<2>(control),
        dual: false,
        cascades: true,
    }
}

#[tactic(auto, unfolding(crate::specs::Registers::a6_fits))]
fn fits_a6(option: u8, address: u16) -> bool
    ensures { result ≡ a6_fits option address }
{
    let high = bit::<6>(u32::from(address));
    match option {
        0 => !high,
        1 => high,
        2 => true,
        _ => false,
    }
}

#[tactic(auto, unfolding(crate::specs::Registers::extra_fits))]
fn fits_extra(line: u8, address: u16) -> bool
    ensures { result ≡ extra_fits line address }
{
    let address = u32::from(address);
    match line {
        0 => true,
        7 => bit::<7>(address),
        8 => bit::<8>(address),
        9 => bit::<9>(address),
        10 => bit::<10>(address),
        _ => false,
    }
}

#[tactic(auto, unfolding(crate::specs::Registers::io_chosen))]
fn io_chosen(select: Select, access: Access) -> bool
    ensures { result ≡ io_chosen select access }
{
    let decoded = (access.code == select.io) & (access.address / 8 % 8 == 0);
    decoded & fits_a6(select.a6, access.address) & fits_extra(select.extra, access.address)
}

// The ROM's byte; a shorter ROM reads 0 past its end.
fn rom_byte(rom: &[u8], address: u16) -> u8
    ensures { result ≡ get_or rom.now address 0 }
{
    rom.get(usize::from(address)).copied().unwrap_or(0)
}

impl Combo {
    // The reset state, with the levels sampled in that cycle.
    #[tactic(auto, unfolding(crate::specs::Cycle::reset_of))]
    fn reset(levels: Levels) -> Combo
        ensures { result ≡ reset_of levels }
    {
        Combo {
            timer: Timer::reset(1, levels.gate, levels.clock),
            msb: 0,
            lsb: 0,
            pcr: 128,
            ddr: 0,
            pdr: 0,
            capture: 0,
            pins: levels.pins,
            flag1: false,
            armed1: false,
            flag2: false,
            armed2: false,
            captured: false,
            touched: false,
            strobed: false,
            raised: false,
            cp1: levels.cp1,
            cp2: levels.cp2,
            before1: false,
            before2: false,
            driven: false,
        }
    }

    // The chip before its first cycle.
    pub fn start() -> Combo
        ensures { result ≡ start_of }
    {
        Combo::reset(Levels::from(ALL_HIGH))
    }

    fn pcr_bit<const K: u32>(self) -> bool
        ensures { result ≡ bit K self.pcr }
    {
        bit::<K>(u32::from(self.pcr))
    }

    // This cycle's levels, and beside them what the cycle before had.
    #[tactic(auto, unfolding(crate::specs::Cycle::sampled))]
    fn sample(mut self, levels: Levels) -> Combo
        ensures { result ≡ sampled levels self }
    {
        self.strobed = self.touched;
        self.touched = false;
        self.before1 = self.cp1;
        self.before2 = self.cp2;
        self.pins = levels.pins;
        self.cp1 = levels.cp1;
        self.cp2 = levels.cp2;
        self
    }

    #[tactic(auto, unfolding(crate::specs::Port::cp1_edge))]
    fn cp1_edge(self) -> bool
        ensures { result ≡ cp1_edge self }
    {
        !self.pcr_bit::<7>() & active_edge(self.pcr_bit::<1>(), self.before1, self.cp1)
    }

    #[tactic(auto, unfolding(crate::specs::Port::cp2_edge))]
    fn cp2_edge(self) -> bool
        ensures { result ≡ cp2_edge self }
    {
        let input = !self.pcr_bit::<5>();
        !self.pcr_bit::<7>() & input & active_edge(self.pcr_bit::<4>(), self.before2, self.cp2)
    }

    #[tactic(auto, unfolding(crate::specs::Port::capturing))]
    fn capture_at_edge(mut self) -> Combo
        ensures { result ≡ capturing self }
    {
        if self.pcr_bit::<2>() & !self.captured & self.cp1_edge() {
            self.captured = true;
            self.capture = self.pins;
            return self;
        }
        self
    }

    #[tactic(auto, unfolding(crate::specs::Port::flagged))]
    fn flag_edges(mut self) -> Combo
        ensures { result ≡ flagged self }
    {
        let one = self.cp1_edge();
        let two = self.cp2_edge();
        self.flag1 |= one;
        self.flag2 |= two;
        self
    }

    #[tactic(auto, unfolding(crate::specs::Port::marked))]
    fn mark(mut self) -> Combo
        ensures { result ≡ marked self }
    {
        self.raised = self.flag1;
        self
    }

    #[tactic(auto, unfolding(crate::specs::Cycle::edged))]
    fn edges(self) -> Combo
        ensures { result ≡ edged self }
    {
        self.capture_at_edge().flag_edges().mark()
    }

    #[tactic(auto, unfolding(crate::specs::Cycle::clocked))]
    fn clocks(mut self, levels: Levels) -> Combo
        ensures { result ≡ clocked levels self }
    {
        self.timer = self
            .timer
            .cycle(setting_of(self.timer), levels.gate, levels.clock);
        self
    }

    // The timer's flag or a port's is set and enabled.
    #[tactic(auto, unfolding(crate::specs::Registers::composite_of))]
    pub fn composite(self) -> bool
        ensures { result ≡ composite_of self }
    {
        let one = self.flag1 & self.pcr_bit::<0>();
        let two = self.flag2 & self.pcr_bit::<3>() & !self.pcr_bit::<5>();
        self.timer.interrupts() | one | two
    }

    #[tactic(auto, unfolding(crate::specs::Registers::weight, crate::specs::Registers::status_of))]
    fn status(self) -> u8
        ensures { result ≡ status_of self }
    {
        u8::from(self.timer.flag)
            + 2 * u8::from(self.flag1)
            + 4 * u8::from(self.flag2)
            + 128 * u8::from(self.composite())
    }

    #[tactic(auto, unfolding(crate::specs::Port::pdr_byte))]
    fn pdr_byte(self) -> u8
        ensures { result ≡ pdr_byte self }
    {
        if self.captured {
            return mix(self.ddr, self.pdr, self.capture);
        }
        mix(self.ddr, self.pdr, self.pins)
    }

    // Registers go by their numbers, as the chip's table has them: an enum would be a second table.
    #[tactic(auto, unfolding(crate::specs::Registers::register_byte))]
    fn register_byte(self, register: u16) -> u8
        ensures { result ≡ register_byte register self }
    {
        match register {
            0 | 4 => self.status(),
            1 => self.pcr,
            2 => self.ddr,
            3 => self.pdr_byte(),
            5 => self.timer.control,
            6 => self.timer.counter_msb(),
            _ => self.lsb,
        }
    }

    #[tactic(auto, unfolding(crate::specs::Registers::status_read))]
    fn read_status(mut self) -> Combo
        ensures { result ≡ status_read self }
    {
        self.timer = self.timer.arm();
        self.armed1 |= self.flag1;
        self.armed2 |= self.flag2;
        self
    }

    #[tactic(auto, unfolding(crate::specs::Registers::counter_read))]
    fn read_counter(mut self) -> Combo
        ensures { result ≡ counter_read self }
    {
        self.lsb = self.timer.counter_lsb();
        self.timer = self.timer.read_msb();
        self
    }

    #[tactic(auto, unfolding(crate::specs::Port::released))]
    fn release(mut self) -> Combo
        ensures { result ≡ released self }
    {
        self.captured = false;
        self.capture = 0;
        self
    }

    // A PDR access, read or write.
    #[tactic(auto, unfolding(crate::specs::Port::touched_by))]
    fn touch(mut self) -> Combo
        ensures { result ≡ touched_by self }
    {
        self.flag1 &= !self.armed1;
        self.flag2 &= !self.armed2;
        self.armed1 = false;
        self.armed2 = false;
        self.touched = true;
        self
    }

    #[tactic(auto, unfolding(crate::specs::Registers::after_read))]
    fn after_read(self, register: u16) -> Combo
        ensures { result ≡ after_read register self }
    {
        match register {
            0 | 4 => self.read_status(),
            3 => self.release().touch(),
            6 => self.read_counter(),
            _ => self,
        }
    }

    #[tactic(auto, unfolding(crate::specs::Registers::pcr_written))]
    fn write_pcr(mut self, byte: u8) -> Combo
        ensures { result ≡ pcr_written byte self }
    {
        self.pcr = byte / 128 * 128 + byte % 64;
        self
    }

    fn write_ddr(mut self, byte: u8) -> Combo
        ensures { result ≡ with_ddr byte self }
    {
        self.ddr = byte;
        self
    }

    #[tactic(auto, unfolding(crate::specs::Port::pdr_written))]
    fn write_pdr(mut self, byte: u8) -> Combo
        ensures { result ≡ pdr_written byte self }
    {
        self.pdr = mix(self.ddr, byte, self.pdr);
        self
    }

    #[tactic(auto, unfolding(crate::specs::Registers::tcr_written))]
    fn write_tcr(mut self, byte: u8) -> Combo
        ensures { result ≡ tcr_written byte self }
    {
        self.timer = self.timer.write_control(byte);
        self
    }

    fn write_msb(mut self, byte: u8) -> Combo
        ensures { result ≡ with_msb byte self }
    {
        self.msb = byte;
        self
    }

    // W: the MSB buffer goes with the byte.
    #[tactic(auto, unfolding(crate::specs::Registers::lsb_written))]
    fn write_lsb(mut self, byte: u8) -> Combo
        ensures { result ≡ lsb_written byte self }
    {
        let value = u16::from_be_bytes([self.msb, byte]);
        self.timer = self.timer.write_latch(setting_of(self.timer), value);
        self
    }

    #[tactic(auto, unfolding(crate::specs::Registers::stored))]
    fn store(self, register: u16, byte: u8) -> Combo
        ensures { result ≡ stored register byte self }
    {
        match register {
            1 => self.write_pcr(byte),
            2 => self.write_ddr(byte),
            3 => self.write_pdr(byte).touch(),
            5 => self.write_tcr(byte),
            6 => self.write_msb(byte),
            7 => self.write_lsb(byte),
            _ => self,
        }
    }

    #[tactic(auto, unfolding(crate::specs::Port::port_cleared))]
    fn clear_port(mut self) -> Combo
        ensures { result ≡ port_cleared self }
    {
        self.ddr = 0;
        self.pdr = 0;
        self.flag1 = false;
        self.armed1 = false;
        self.flag2 = false;
        self.armed2 = false;
        self.captured = false;
        self.capture = 0;
        self
    }

    #[tactic(auto, unfolding(crate::specs::Port::port_settled))]
    fn settle_port(self) -> Combo
        ensures { result ≡ port_settled self }
    {
        if self.pcr_bit::<7>() {
            return self.clear_port();
        }
        if self.pcr_bit::<2>() {
            return self;
        }
        self.release()
    }

    #[tactic(auto, unfolding(crate::specs::Registers::timer_settled))]
    fn settle_timer(mut self) -> Combo
        ensures { result ≡ timer_settled self }
    {
        self.timer = self.timer.settle(setting_of(self.timer));
        self
    }

    #[tactic(auto, unfolding(crate::specs::Registers::after_write))]
    fn after_write(self, register: u16, byte: u8) -> Combo
        ensures { result ≡ after_write register byte self }
    {
        self.store(register, byte).settle_port().settle_timer()
    }

    fn answer(self, answer: Option<u8>) -> Done<Combo>
        ensures { result ≡ done self answer }
    {
        Done { chip: self, answer }
    }

    #[tactic(auto, unfolding(crate::specs::Cycle::read_by))]
    fn read(self, bus: Bus<'_>, access: Access) -> Done<Combo>
        ensures { result ≡ read_by bus.entry.select bus.entry.rom.now access self }
    {
        if access.code == bus.select.rom {
            return self.answer(Some(rom_byte(bus.rom, access.address)));
        }
        if io_chosen(bus.select, access) {
            let register = access.address % 8;
            return self
                .after_read(register)
                .answer(Some(self.register_byte(register)));
        }
        self.answer(None)
    }

    #[tactic(auto, unfolding(crate::specs::Cycle::written_by))]
    fn write(self, select: Select, access: Access) -> Done<Combo>
        ensures { result ≡ written_by select access self }
    {
        if io_chosen(select, access) {
            return self
                .after_write(access.address % 8, access.byte)
                .answer(None);
        }
        self.answer(None)
    }

    #[tactic(auto, unfolding(crate::specs::Cycle::transferred))]
    fn transfer(self, bus: Bus<'_>, access: Access) -> Done<Combo>
        ensures { result ≡ transferred bus.entry.select bus.entry.rom.now access self }
    {
        if access.read {
            return self.read(bus, access);
        }
        self.write(bus.select, access)
    }

    // On copies, so that a chip that nothing is asked of stays in registers.
    #[tactic(auto, unfolding(crate::specs::Cycle::accessed))]
    fn serve(self, bus: Bus<'_>, access: Option<Access>) -> Done<Combo>
        ensures { result ≡ accessed bus.entry.select bus.entry.rom.now access self }
    {
        let Some(asked) = access else {
            return self.answer(None);
        };
        let chip = self;
        let lines = bus;
        let done = chip.transfer(lines, asked);
        done
    }

    #[tactic(auto, unfolding(crate::specs::Port::cp2_out))]
    fn cp2_out(self) -> bool
        ensures { result ≡ cp2_out self }
    {
        let high = self.pcr_bit::<3>();
        if self.pcr_bit::<4>() {
            return high;
        }
        if high {
            return !self.strobed;
        }
        self.flag1 | self.raised
    }

    #[tactic(auto, unfolding(crate::specs::Cycle::shown))]
    fn show(mut self) -> Combo
        ensures { result ≡ shown self }
    {
        self.driven = self.cp2_out();
        self
    }

    // One cycle: sample, edges, clocks, the bus, what CP2 shows; in RESET the reset state, from which reads answer.
    #[tactic(auto, unfolding(crate::specs::Cycle::cycle_of))]
    pub fn cycle(self, bus: Bus<'_>, levels: Levels, access: Option<Access>) -> Done<Combo>
        ensures { result ≡ cycle_of bus.entry.select bus.entry.rom.now levels access self }
    {
        if !levels.reset {
            return reset_cycle(bus, levels, access);
        }
        let served = self
            .sample(levels)
            .edges()
            .clocks(levels)
            .serve(bus, access);
        served.chip.show().answer(served.answer)
    }

    // CTO, the timer's pin.
    #[tactic(auto, unfolding(crate::specs::Cycle::cto_of))]
    pub fn cto(self) -> bool
        ensures { result ≡ cto_of self }
    {
        self.timer.pin(setting_of(self.timer))
    }

    // CP2: the level driven, or as an input the last sampled.
    #[tactic(auto, unfolding(crate::specs::Port::cp2_of))]
    pub fn cp2_pin(self) -> bool
        ensures { result ≡ cp2_of self }
    {
        if self.pcr_bit::<5>() {
            return self.driven;
        }
        self.cp2
    }

    // P0-P7: the levels driven, and those last sampled of the inputs.
    #[tactic(auto, unfolding(crate::specs::Port::port_of))]
    pub fn port(self) -> u8
        ensures { result ≡ port_of self }
    {
        let inputs = self.pins;
        mix(self.ddr, self.pdr, inputs)
    }

    // The prescaler stands where it can: 0 to 7.
    #[tactic(auto, unfolding(crate::specs::Cycle::in_range))]
    pub fn in_range(self) -> bool
        ensures { result ≡ in_range self }
    {
        self.timer.in_range()
    }
}

#[tactic(auto, unfolding(crate::specs::Cycle::reset_cycle, crate::specs::Cycle::accessed))]
fn reset_cycle(bus: Bus<'_>, levels: Levels, access: Option<Access>) -> Done<Combo>
    ensures { result ≡ reset_cycle bus.entry.select bus.entry.rom.now levels access }
{
    let chip = Combo::reset(levels);
    let Some(asked) = access else {
        return chip.answer(None);
    };
    let seen = chip.transfer(bus, asked);
    chip.answer(seen.answer)
}
