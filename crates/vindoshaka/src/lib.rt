// What a host links: start and report, and a move for each chip that is lent the host's board. C's names, and structs and numbers as C has
// them, are its forms.
#![tactic(auto)]

ghost use Rattle.std.specs.Prelude.{◌≡◌};
ghost use Rattle.board.specs.Calls.{move6846, move6840};
ghost use Rattle.board.specs.Record.{start_of, report_of};
ghost use Rattle.vindoshaka.specs.Host.{level_bits, begun, seen, lent, told, kept, said};

use board::{Board, Options, Pins, move_6840, move_6846, report, shown, start};
use outcomes::Numbered;

// The number of a move, and the cycles done.
#[repr(C)]
#[derive(Clone, Copy)]
pub struct Moved {
    pub number: u32,
    pub count: u32,
}

// The board that a start gives, and its number.
#[repr(C)]
#[derive(Clone, Copy)]
pub struct Started {
    pub board: Board,
    pub number: u32,
}

// The number of a report; the levels P0-P7 in bits 0-7, CP2, CTO, O1-O3 and IRQ in 8 to 13.
#[repr(C)]
#[derive(Clone, Copy)]
pub struct Report {
    pub number: u32,
    pub levels: u32,
}

#[tactic(auto, unfolding(crate::specs::Host::level_bits, crate::specs::Host::weight))]
fn level_bits(pins: Pins) -> u32
    ensures { result ≡ level_bits pins }
{
    u32::from(pins.port)
        + 256 * u32::from(pins.cp2)
        + 512 * u32::from(pins.cto)
        + 1024 * u32::from(pins.o1)
        + 2048 * u32::from(pins.o2)
        + 4096 * u32::from(pins.o3)
        + 8192 * u32::from(pins.irq)
}

#[tactic(auto, unfolding(crate::specs::Host::seen))]
fn see(board: Board) -> Report
    ensures { result ≡ seen (report_of board) }
{
    let outcome = report(board);
    Report {
        number: outcome.number(),
        levels: level_bits(shown(outcome)),
    }
}

// What a host is told of a move; the board is stored only if a cycle was done.
fn keep(board: &mut Board, moved: board::Moved) -> Moved
    ensures board { board.new ≡ kept moved board.old }
    ensures said { result ≡ said moved }
{
    let is_moved = 0 < moved.count;
    if is_moved {
        *board = moved.board;
    }
    let outcome = moved.outcome;
    Moved {
        number: outcome.number(),
        count: moved.count,
    }
}

// A board of these options, at the caller's stamp.
#[tactic(auto, unfolding(crate::specs::Host::begun))]
#[unsafe(no_mangle)]
pub extern "C" fn vindoshaka_start(
    rom: u32,
    io: u32,
    a6: u32,
    extra: u32,
    wire: u32,
    stamp: u32,
) -> Started
    ensures { result ≡ begun (start_of rom io a6 extra wire stamp) }
{
    let options = Options {
        rom,
        io,
        a6,
        extra,
        wire,
    };
    let started = start(options, stamp);
    let outcome = started.outcome;
    Started {
        board: started.board,
        number: outcome.number(),
    }
}

// Moves the 6846 of the lent board.
#[unsafe(no_mangle)]
pub extern "C" fn vindoshaka_move_6846(
    board: &mut Board,
    rom: &[u8],
    events: &[u32],
    answers: &mut [u16],
    cycles: u32,
) -> Moved
    ensures { lent board.new result answers.new ≡ told (move6846 rom.now events.now cycles board.old answers.old) }
{
    let moved = move_6846(*board, rom, events, answers, cycles);
    keep(board, moved)
}

// Moves the 6840 of the lent board.
#[unsafe(no_mangle)]
pub extern "C" fn vindoshaka_move_6840(
    board: &mut Board,
    events: &[u32],
    answers: &mut [u16],
    cycles: u32,
) -> Moved
    ensures { lent board.new result answers.new ≡ told (move6840 events.now cycles board.old answers.old) }
{
    let moved = move_6840(*board, events, answers, cycles);
    keep(board, moved)
}

// The levels of the pins of the lent board, once both chips have done the same cycles.
#[unsafe(no_mangle)]
pub extern "C" fn vindoshaka_report(board: &Board) -> Report
    ensures { result ≡ seen (report_of board.now) }
{
    see(*board)
}
