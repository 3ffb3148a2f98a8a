// The commands of a run file: what a line of it says.
#![tactic(auto)]

ghost use Rattle.std.specs.Prelude.{◌≡◌, ◌<◌};
ghost use Rattle.runfile.specs.declared.Mistake.TheVariants as mistake;
ghost use Rattle.runfile.specs.Commands.{chip_of, name_of, number_at, last_at, start_of, event_of, move_of, plain, called, command_of};

use numbers::{BadNumber, read};
use thiserror::Error;
use words::{filled, same, text};

#[derive(Clone, Copy, Debug, PartialEq, Eq)]
pub enum Chip {
    Mc6846,
    Mc6840,
}

// What a board is started with.
#[derive(Clone, Copy, Debug, PartialEq, Eq)]
pub struct Start {
    pub rom: u32,
    pub io: u32,
    pub a6: u32,
    pub extra: u32,
    pub wire: u32,
    pub stamp: u32,
}

// The words of an event.
#[derive(Clone, Copy, Debug, PartialEq, Eq)]
pub struct Event {
    pub stamp: u32,
    pub levels: u32,
    pub access: u32,
}

#[derive(Clone, Copy, Debug, PartialEq, Eq)]
pub enum Command {
    // The line has no word.
    Empty,
    Start(Start),
    // The path is word 1.
    Rom,
    Event { chip: Chip, event: Event },
    Move { chip: Chip, cycles: u32 },
    Report,
    Stamps,
    Answers,
}

// What is wrong with a line.
#[derive(Clone, Copy, Debug, PartialEq, Eq, Error)]
pub enum Mistake {
    #[error("unknown word")]
    UnknownWord,
    #[error("wrong number of words")]
    WrongCount,
    #[error("bad number")]
    BadNumber,
}

impl From<BadNumber> for Mistake {
    ghost from_gives = { λ _ m. m ≡ mistake.BadNumber };

    fn from(_bad: BadNumber) -> Mistake {
        Mistake::BadNumber
    }
}

// The commands that a name begins.
#[derive(Clone, Copy, Debug, PartialEq, Eq)]
pub enum Name {
    Start,
    Rom,
    Move,
    Report,
    Stamps,
    Answers,
}

// The chip that a word names. By `same` and no pattern, here and below: in a `match` on the bytes the proof did not close.
#[tactic(auto, unfolding(crate::specs::Commands::chip_of))]
fn chip_of(word: &[u8]) -> Option<Chip>
    ensures { result ≡ chip_of word.now }
{
    if same(word, b"6846") {
        return Some(Chip::Mc6846);
    }
    if same(word, b"6840") {
        return Some(Chip::Mc6840);
    }
    None
}

#[tactic(auto, unfolding(crate::specs::Commands::name_of))]
fn name_of(word: &[u8]) -> Option<Name>
    ensures { result ≡ name_of word.now }
{
    if same(word, b"start") {
        return Some(Name::Start);
    }
    if same(word, b"rom") {
        return Some(Name::Rom);
    }
    if same(word, b"move") {
        return Some(Name::Move);
    }
    if same(word, b"report") {
        return Some(Name::Report);
    }
    if same(word, b"stamps") {
        return Some(Name::Stamps);
    }
    if same(word, b"answers") {
        return Some(Name::Answers);
    }
    None
}

// The number that word `n` says.
fn number_at(line: &[u8], n: usize) -> Result<u32, BadNumber>
    ensures { result ≡ number_at line.now n }
{
    read(text(line, n))
}

// Word `n` has to be the last.
fn expect_last(line: &[u8], n: usize) -> Result<(), Mistake>
    requires { n < 7 }
    ensures { result ≡ last_at line.now n }
{
    if filled(line, n) && !filled(line, n + 1) {
        return Ok(());
    }
    Err(Mistake::WrongCount)
}

#[tactic(auto, unfolding(crate::specs::Commands::start_of))]
fn decode_start(line: &[u8]) -> Result<Command, Mistake>
    ensures { result ≡ start_of line.now }
{
    expect_last(line, 6)?;
    Ok(Command::Start(Start {
        rom: number_at(line, 1)?,
        io: number_at(line, 2)?,
        a6: number_at(line, 3)?,
        extra: number_at(line, 4)?,
        wire: number_at(line, 5)?,
        stamp: number_at(line, 6)?,
    }))
}

#[tactic(auto, unfolding(crate::specs::Commands::event_of))]
fn decode_event(line: &[u8], chip: Chip) -> Result<Command, Mistake>
    ensures { result ≡ event_of line.now chip }
{
    expect_last(line, 3)?;
    let event = Event {
        stamp: number_at(line, 1)?,
        levels: number_at(line, 2)?,
        access: number_at(line, 3)?,
    };
    Ok(Command::Event { chip, event })
}

#[tactic(auto, unfolding(crate::specs::Commands::move_of, crate::specs::Commands::move_with))]
fn decode_move(line: &[u8]) -> Result<Command, Mistake>
    ensures { result ≡ move_of line.now }
{
    expect_last(line, 2)?;
    let chip = chip_of(text(line, 1)).ok_or(Mistake::UnknownWord)?;
    let cycles = number_at(line, 2)?;
    Ok(Command::Move { chip, cycles })
}

// A command whose last word is word `n`.
fn decode_plain(line: &[u8], n: usize, command: Command) -> Result<Command, Mistake>
    requires { n < 7 }
    ensures { result ≡ plain line.now n command }
{
    expect_last(line, n)?;
    Ok(command)
}

#[tactic(auto, unfolding(crate::specs::Commands::called))]
fn decode_named(line: &[u8], name: Name) -> Result<Command, Mistake>
    ensures { result ≡ called line.now name }
{
    match name {
        Name::Start => decode_start(line),
        Name::Rom => decode_plain(line, 1, Command::Rom),
        Name::Move => decode_move(line),
        Name::Report => decode_plain(line, 0, Command::Report),
        Name::Stamps => decode_plain(line, 0, Command::Stamps),
        Name::Answers => decode_plain(line, 0, Command::Answers),
    }
}

// The command that a line says, or what is wrong with it.
#[tactic(auto, unfolding(crate::specs::Commands::command_of, crate::specs::Commands::begun, crate::specs::Commands::named))]
pub fn decode(line: &[u8]) -> Result<Command, Mistake>
    ensures { result ≡ command_of line.now }
{
    if !filled(line, 0) {
        return Ok(Command::Empty);
    }
    let first = text(line, 0);
    if let Some(chip) = chip_of(first) {
        return decode_event(line, chip);
    }
    let name = name_of(first).ok_or(Mistake::UnknownWord)?;
    decode_named(line, name)
}
