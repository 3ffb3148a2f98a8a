// The board: an MC6846, an MC6840 and an optional wire from CTO to a clock input, each chip moved by its own list of events.
#![tactic(auto)]

ghost use Rattle.std.specs.Prelude.{◌≡◌, length};
ghost use Rattle.board.specs.Record.{legal, options_of, wired_by, fresh_of, refused_start, start_of, options_fit, book_fits, in_ranges, levels_of, no_levels, shown_of, report_of};
ghost use Rattle.board.specs.Calls.{result_of, list_fits, list_checked, checked6846, checked6840, move6846, move6840, moved6846, moved6840, refused, given6846, given6840, begun6846, begun6840, put6846, put6840};

use lists::moves::{self, Run};
use mc6840::Ptm;
use mc6846::{Combo, Select};
use mover6840::{Given6840, run_6840};
use mover6846::{Given6846, Mover6846};
use outcomes::{Refusal, ReportRefusal, StartRefusal};
use wire::book::Ends;
use wire::stamp::{Stamps, ahead};

// The whole record; a host may hold it. A place of the book that no waiting change stands in may hold anything.
#[repr(C)]
#[derive(Clone, Copy)]
pub struct Board {
    pub select: Select,
    pub wire: u8,
    pub combo: Combo,
    pub ptm: Ptm,
    // the levels that stay between events, as the words of the last events
    pub levels6846: u32,
    pub levels6840: u32,
    pub stamp6846: u32,
    pub stamp6840: u32,
    pub ends: Ends,
    pub done6846: usize,
    pub done6840: usize,
    pub places: [u32; 64],
}

// The start options: the codes of ROM and I/O, the A6 option, the extra line, the wire. C and a run file give any numbers.
#[derive(Clone, Copy, PartialEq, Eq, Debug)]
pub struct Options {
    pub rom: u32,
    pub io: u32,
    pub a6: u32,
    pub extra: u32,
    pub wire: u32,
}

// A refused start has a board, too.
#[derive(Clone, Copy)]
pub struct Started {
    pub board: Board,
    pub outcome: Result<(), StartRefusal>,
}

// A move that is stopped short keeps the cycles that it counts.
#[derive(Clone, Copy)]
pub struct Moved {
    pub board: Board,
    pub outcome: Result<(), Refusal>,
    pub count: u32,
}

// The levels of the pins.
#[derive(Clone, Copy, PartialEq, Eq, Debug)]
pub struct Pins {
    pub port: u8,
    pub cp2: bool,
    pub cto: bool,
    pub o1: bool,
    pub o2: bool,
    pub o3: bool,
    pub irq: bool,
}

impl Options {
    // The options are of their values, and the two codes differ.
    #[tactic(auto, unfolding(crate::specs::Record::legal))]
    fn are_legal(self) -> bool
        ensures { result ≡ legal self.rom self.io self.a6 self.extra self.wire }
    {
        let codes = self.rom <= 3 && self.io <= 3 && self.rom != self.io;
        codes && self.a6 <= 2 && matches!(self.extra, 0 | 7..=10) && self.wire <= 3
    }
}

impl Board {
    #[tactic(auto, unfolding(crate::specs::Record::fresh_of))]
    fn fresh(select: Select, wire: u8, stamp: u32) -> Board
        ensures { result ≡ fresh_of select wire stamp }
    {
        Board {
            select,
            wire,
            combo: Combo::start(),
            ptm: Ptm::start(),
            levels6846: signals::m6846::ALL_HIGH,
            levels6840: signals::m6840::ALL_HIGH,
            stamp6846: stamp,
            stamp6840: stamp,
            ends: Ends {
                first: 0,
                waiting: 0,
            },
            done6846: 0,
            done6840: 0,
            places: [0; 64],
        }
    }

    fn wired(self) -> bool
        ensures { result ≡ wired_by self.wire }
    {
        self.wire != 0
    }

    fn options(self) -> Options
        ensures { result ≡ options_of self }
    {
        let select = self.select;
        Options {
            rom: u32::from(select.rom),
            io: u32::from(select.io),
            a6: u32::from(select.a6),
            extra: u32::from(select.extra),
            wire: u32::from(self.wire),
        }
    }

    #[tactic(auto, unfolding(crate::specs::Record::options_fit))]
    fn options_fit(self) -> bool
        ensures { result ≡ options_fit self }
    {
        self.options().are_legal()
    }

    // The 6846 drives the wire, the 6840 listens.
    fn stamps(self) -> Stamps
        ensures listener { result.listener ≡ self.stamp6840 }
        ensures driver { result.driver ≡ self.stamp6846 }
    {
        Stamps {
            listener: self.stamp6840,
            driver: self.stamp6846,
        }
    }

    #[tactic(auto, unfolding(crate::specs::Record::book_fits))]
    fn book_fits(self) -> bool
        ensures { result ≡ book_fits self }
    {
        let ends = self.ends;
        let places = self.places;
        (self.wired() | (ends.waiting == 0)) & ends.in_order(&places, self.stamps())
    }

    // The record is inside the ranges of number 9.
    #[tactic(auto, unfolding(crate::specs::Record::in_ranges))]
    fn in_ranges(self) -> bool
        ensures { result ≡ in_ranges self }
    {
        let combo = self.combo;
        let ptm = self.ptm;
        let reach = self.stamps().in_reach(self.wired());
        self.options_fit() & combo.in_range() & ptm.in_range() & self.book_fits() & reach
    }

    #[tactic(auto, unfolding(crate::specs::Record::levels_of))]
    fn levels(self) -> Pins
        ensures { result ≡ levels_of self }
    {
        let combo = self.combo;
        let ptm = self.ptm;
        let outputs = ptm.outputs();
        Pins {
            port: combo.port(),
            cp2: combo.cp2_pin(),
            cto: combo.cto(),
            o1: outputs.o1,
            o2: outputs.o2,
            o3: outputs.o3,
            irq: !(combo.composite() | ptm.composite()),
        }
    }

    #[tactic(auto, unfolding(crate::specs::Calls::refused))]
    fn refuse(self, refusal: Refusal) -> Moved
        ensures { result ≡ refused refusal self }
    {
        Moved {
            board: self,
            outcome: Err(refusal),
            count: 0,
        }
    }

    // What follows stands once a chip: the ROM is the 6846's alone, and the record that C holds has each chip's fields apart.

    // What refuses a move of the 6846 before its first cycle, in this order: 9, 2, 3, 4.
    #[tactic(auto, unfolding(crate::specs::Calls::checked6846))]
    fn check_6846(self, rom: &[u8], events: &[u32], answers: &[u16]) -> Result<(), Refusal>
        ensures { result ≡ checked6846 rom.now events.now self answers.now }
    {
        if !self.in_ranges() {
            return Err(Refusal::BadBoard);
        }
        if rom.len() != 2048 {
            return Err(Refusal::BadRom);
        }
        check_list(events.len(), self.done6846, answers.len())
    }

    // What refuses a move of the 6840 before its first cycle, in this order: 9, 3, 4.
    #[tactic(auto, unfolding(crate::specs::Calls::checked6840))]
    fn check_6840(self, events: &[u32], answers: &[u16]) -> Result<(), Refusal>
        ensures { result ≡ checked6840 events.now self answers.now }
    {
        if !self.in_ranges() {
            return Err(Refusal::BadBoard);
        }
        check_list(events.len(), self.done6840, answers.len())
    }

    #[tactic(auto, unfolding(crate::specs::Calls::given6846))]
    fn given_6846(self) -> Given6846
        ensures { result ≡ given6846 self }
    {
        Given6846 {
            select: self.select,
            wired: self.wired(),
            other: self.stamp6840,
        }
    }

    #[tactic(auto, unfolding(crate::specs::Calls::begun6846))]
    fn begin_6846(self) -> Run<Combo>
        ensures { result ≡ begun6846 self }
    {
        Run {
            chip: self.combo,
            levels: self.levels6846,
            stamp: self.stamp6846,
            done: self.done6846,
            ends: self.ends,
        }
    }

    #[tactic(auto, unfolding(crate::specs::Calls::put6846))]
    fn put_6846(mut self, run: Run<Combo>, places: [u32; 64]) -> Board
        ensures { result ≡ put6846 run places self }
    {
        self.combo = run.chip;
        self.levels6846 = run.levels;
        self.stamp6846 = run.stamp;
        self.done6846 = run.done;
        self.ends = run.ends;
        self.places = places;
        self
    }

    #[tactic(auto, unfolding(crate::specs::Calls::moved6846, crate::specs::Calls::after6846))]
    fn run_6846(self, rom: &[u8], events: &[u32], answers: &mut [u16], cycles: u32) -> Moved
        ensures { result_of result answers.new ≡ moved6846 rom.now events.now cycles self answers.old }
    {
        let mut places = self.places;
        let mover = Mover6846 {
            given: self.given_6846(),
            rom,
            events,
        };
        let ran = moves::make(&mover, self.begin_6846(), answers, &mut places, cycles);
        Moved {
            board: self.put_6846(ran.run, places),
            outcome: ran.outcome,
            count: ahead(self.stamp6846, ran.run.stamp),
        }
    }

    #[tactic(auto, unfolding(crate::specs::Calls::given6840))]
    fn given_6840(self) -> Given6840
        ensures { result ≡ given6840 self }
    {
        let combo = self.combo;
        Given6840 {
            wire: self.wire,
            wired: self.wired(),
            other: self.stamp6846,
            cto: combo.cto(),
        }
    }

    #[tactic(auto, unfolding(crate::specs::Calls::begun6840))]
    fn begin_6840(self) -> Run<Ptm>
        ensures { result ≡ begun6840 self }
    {
        Run {
            chip: self.ptm,
            levels: self.levels6840,
            stamp: self.stamp6840,
            done: self.done6840,
            ends: self.ends,
        }
    }

    #[tactic(auto, unfolding(crate::specs::Calls::put6840))]
    fn put_6840(mut self, run: Run<Ptm>) -> Board
        ensures { result ≡ put6840 run self }
    {
        self.ptm = run.chip;
        self.levels6840 = run.levels;
        self.stamp6840 = run.stamp;
        self.done6840 = run.done;
        self.ends = run.ends;
        self
    }

    #[tactic(auto, unfolding(crate::specs::Calls::moved6840, crate::specs::Calls::after6840))]
    fn run_6840(self, events: &[u32], answers: &mut [u16], cycles: u32) -> Moved
        ensures { result_of result answers.new ≡ moved6840 events.now cycles self answers.old }
    {
        let ran = run_6840(
            self.begin_6840(),
            self.given_6840(),
            events,
            answers,
            &self.places,
            cycles,
        );
        Moved {
            board: self.put_6840(ran.run),
            outcome: ran.outcome,
            count: ahead(self.stamp6840, ran.run.stamp),
        }
    }
}

#[tactic(auto, unfolding(crate::specs::Record::refused_start))]
fn refused_start() -> Started
    ensures { result ≡ refused_start }
{
    let select = Select {
        rom: 0,
        io: 1,
        a6: 0,
        extra: 0,
    };
    let board = Board::fresh(select, 0, 0);
    Started {
        board,
        outcome: Err(StartRefusal::BadOption),
    }
}

// A board starts at a caller's stamp.
#[tactic(auto, using(crate::proofs::Legal::legal_small), unfolding(crate::specs::Record::start_of))]
pub fn start(options: Options, stamp: u32) -> Started
    ensures { result ≡ start_of options.rom options.io options.a6 options.extra options.wire stamp }
{
    if !options.are_legal() {
        return refused_start();
    }
    let select = Select {
        rom: options.rom as u8,
        io: options.io as u8,
        a6: options.a6 as u8,
        extra: options.extra as u8,
    };
    let board = Board::fresh(select, options.wire as u8, stamp);
    Started {
        board,
        outcome: Ok(()),
    }
}

// The levels of the pins, once both chips have done the same cycles.
#[tactic(auto, unfolding(crate::specs::Record::report_of))]
pub fn report(board: Board) -> Result<Pins, ReportRefusal>
    ensures { result ≡ report_of board }
{
    if !board.in_ranges() {
        return Err(ReportRefusal::BadBoard);
    }
    if board.stamp6846 == board.stamp6840 {
        return Ok(board.levels());
    }
    Err(ReportRefusal::Apart)
}

#[tactic(auto, unfolding(crate::specs::Record::no_levels))]
fn no_levels() -> Pins
    ensures { result ≡ no_levels }
{
    Pins {
        port: 0,
        cp2: false,
        cto: false,
        o1: false,
        o2: false,
        o3: false,
        irq: false,
    }
}

// What is shown of a report: a refused one has all levels 0.
#[tactic(auto, unfolding(crate::specs::Record::shown_of))]
pub fn shown(report: Result<Pins, ReportRefusal>) -> Pins
    ensures { result ≡ shown_of report }
{
    report.unwrap_or(no_levels())
}

// A list of whole events, at least as many as were done.
#[tactic(auto, unfolding(crate::specs::Calls::list_fits))]
fn list_fits(length: usize, done: usize) -> bool
    ensures { result ≡ list_fits length done }
{
    (length % 3 == 0) & (done <= length / 3)
}

// What refuses a list and its answer places: 3, then 4.
#[tactic(auto, unfolding(crate::specs::Calls::list_checked))]
fn check_list(length: usize, done: usize, places: usize) -> Result<(), Refusal>
    ensures { result ≡ list_checked length done places }
{
    if !list_fits(length, done) {
        return Err(Refusal::BadList);
    }
    if length / 3 <= places {
        return Ok(());
    }
    Err(Refusal::FewPlaces)
}

// Moves the 6846 by so many cycles, until all are done or one is refused.
#[tactic(auto, unfolding(crate::specs::Calls::move6846, crate::specs::Calls::unless))]
pub fn move_6846(
    board: Board,
    rom: &[u8],
    events: &[u32],
    answers: &mut [u16],
    cycles: u32,
) -> Moved
    ensures gives { result_of result answers.new ≡ move6846 rom.now events.now cycles board answers.old }
    ensures stays { result.count ≡ 0 → result.board ≡ board }
{
    match board.check_6846(rom, events, answers) {
        Ok(()) => board.run_6846(rom, events, answers, cycles),
        Err(refusal) => board.refuse(refusal),
    }
}

// Moves the 6840 by so many cycles, until all are done or one is refused.
#[tactic(auto, unfolding(crate::specs::Calls::move6840, crate::specs::Calls::unless))]
pub fn move_6840(board: Board, events: &[u32], answers: &mut [u16], cycles: u32) -> Moved
    ensures gives { result_of result answers.new ≡ move6840 events.now cycles board answers.old }
    ensures stays { result.count ≡ 0 → result.board ≡ board }
{
    match board.check_6840(events, answers) {
        Ok(()) => board.run_6840(events, answers, cycles),
        Err(refusal) => board.refuse(refusal),
    }
}
