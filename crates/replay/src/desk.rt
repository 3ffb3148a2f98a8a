// What is kept between two lines, and what each line does to it.
ghost use Rattle.std.specs.Prelude.{◌≡◌, IfOk, Some};
ghost use Rattle.board.specs.Record.{shown_of};
ghost use Rattle.texts.specs.Texts.{levels_text};

use crate::list::{List, listed};
use crate::page::{Loss, Page, put, tell, tell_answers};
use crate::source::Rom;
use crate::stop::Stop;
use board::{Board, Options, Pins};
use outcomes::{Numbered, ReportRefusal};
use runfile::{Chip, Command, Start};
use std::rt::Files;

#[derive(Drop)]
pub struct Desk {
    // none before the first start
    board: Option<Board>,
    rom: Rom,
    mc6846: List,
    mc6840: List,
    page: Page,
}

impl Desk {
    pub fn new(page: Page) -> Desk {
        Desk {
            board: None,
            rom: Rom::new(),
            mc6846: List::new(),
            mc6840: List::new(),
            page,
        }
    }

    // Why not all of the output was taken, if so.
    pub fn loss(&self) -> Option<Loss> {
        self.page.loss()
    }

    pub fn obey<R: Files>(&mut self, rt: &R, line: &[u8]) -> Result<(), Stop> {
        match runfile::decode(line)? {
            Command::Empty => Ok(()),
            Command::Rom => self.rom.read(rt, words::text(line, 1)),
            Command::Start(start) => {
                self.start(start);
                Ok(())
            }
            Command::Event { chip, event } => {
                self.board()?;
                self.list(chip).add(event)
            }
            Command::Move { chip, cycles } => self.go(chip, cycles),
            Command::Report => self.report(),
            Command::Stamps => self.tell_stamps(),
            Command::Answers => self.tell_answers(),
        }
    }

    fn board(&self) -> Result<Board, Stop>
        ensures { IfOk result (λ board. self.now.board ≡ Some board) }
    {
        self.board.ok_or(Stop::NoStart)
    }

    fn list(&mut self, chip: Chip) -> &mut List {
        match chip {
            Chip::Mc6846 => &mut self.mc6846,
            Chip::Mc6840 => &mut self.mc6840,
        }
    }

    // A refused start has a board, too.
    fn start(&mut self, start: Start) {
        let options = Options {
            rom: start.rom,
            io: start.io,
            a6: start.a6,
            extra: start.extra,
            wire: start.wire,
        };
        let started = board::start(options, start.stamp);
        self.board = Some(started.board);
        self.mc6846.clear();
        self.mc6840.clear();
        tell(&mut self.page, &[("start ", started.outcome.number())]);
    }

    // An arm a chip: the board's two moves take different things.
    fn go(&mut self, chip: Chip, cycles: u32) -> Result<(), Stop> {
        let board = self.board()?;
        let (name, moved) = match chip {
            Chip::Mc6846 => {
                let List { words, answers } = &mut self.mc6846;
                let events = listed(words, answers.len());
                let moved = board::move_6846(board, self.rom.bytes(), events, answers, cycles);
                ("6846 ", moved)
            }
            Chip::Mc6840 => {
                let List { words, answers } = &mut self.mc6840;
                let events = listed(words, answers.len());
                let moved = board::move_6840(board, events, answers, cycles);
                ("6840 ", moved)
            }
        };
        self.board = Some(moved.board);
        let parts = [(name, moved.outcome.number()), (" ", moved.count)];
        tell(&mut self.page, &parts);
        Ok(())
    }

    fn report(&mut self) -> Result<(), Stop> {
        let seen = board::report(self.board()?);
        put(&mut self.page, "report ", seen.number());
        self.page.write(b" ");
        self.page.write(&levels(seen));
        self.page.write(b"\n");
        Ok(())
    }

    fn tell_stamps(&mut self) -> Result<(), Stop> {
        let board = self.board()?;
        let parts = [
            ("stamps ", board.stamp6846),
            (" ", board.stamp6840),
            (" ", board.ends.waiting),
        ];
        tell(&mut self.page, &parts);
        Ok(())
    }

    fn tell_answers(&mut self) -> Result<(), Stop> {
        self.board()?;
        tell_answers(&mut self.page, "answers 6846", &self.mc6846.answers);
        tell_answers(&mut self.page, "answers 6840", &self.mc6840.answers);
        Ok(())
    }

    pub fn tell_stop(&mut self, line: u32) {
        tell(&mut self.page, &[("stopped at line ", line)]);
    }

    pub fn flush(&mut self) {
        self.page.flush();
    }
}

fn levels(seen: Result<Pins, ReportRefusal>) -> [u8; 14]
    ensures { let p = shown_of seen in result ≡ levels_text p.port p.cp2 p.cto p.o1 p.o2 p.o3 p.irq }
{
    let pins = board::shown(seen);
    texts::levels(
        pins.port, pins.cp2, pins.cto, pins.o1, pins.o2, pins.o3, pins.irq,
    )
}
