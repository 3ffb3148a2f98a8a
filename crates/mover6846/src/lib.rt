// The 6846 in a move: how it does its next cycle on the board.
#![tactic(auto)]

ghost use Rattle.std.specs.Prelude.{◌≡◌};
ghost use Rattle.outcomes.specs.Numbers.{Done};
ghost use Rattle.lists.specs.Moves.{world, went};
ghost use Rattle.mover6846.specs.Cycle.{changes, noted_if, step_of};
ghost use Rattle.wire.specs.Book.{book_of};

use lists::moves::{Mover, Run};
use lists::{answer, next};
use mc6846::{Bus, Combo, Select};
use outcomes::Refusal;
use signals::m6846::{Levels, access_of};
use wire::book::Ends;
use wire::stamp::{self, Stamps};

// What stays through a move: the select options, whether there is a wire, the 6840's stamp.
#[derive(Clone, Copy)]
pub struct Given6846 {
    pub select: Select,
    pub wired: bool,
    pub other: u32,
}

// The 6846 with its ROM and its list.
#[derive(Clone, Copy)]
pub struct Mover6846<'a> {
    pub given: Given6846,
    pub rom: &'a [u8],
    pub events: &'a [u32],
}

#[tactic(auto, unfolding(crate::specs::Cycle::changes))]
fn changes_cto(given: Given6846, before: Combo, after: Combo) -> bool
    ensures { result ≡ changes given before after }
{
    if given.wired {
        return before.cto() != after.cto();
    }
    false
}

// A change of CTO goes into the book.
#[tactic(auto, unfolding(crate::specs::Cycle::noted_if))]
fn note(places: &mut [u32; 64], ends: Ends, changed: bool, stamp: u32) -> Ends
    ensures { book_of places.new result ≡ noted_if changed places.old ends stamp }
{
    if changed {
        return ends.noted(places, stamp);
    }
    ends
}

impl<'a> Mover for Mover6846<'a> {
    type Chip = Combo;

    ghost step_of = { λ m w. step_of m.given m.rom.now m.events.now w };

    fn step(
        &self,
        run: Run<Combo>,
        answers: &mut [u16],
        places: &mut [u32; 64],
    ) -> Result<Run<Combo>, Refusal>
        ensures { went run answers.new places.new result ≡ step_of self.now.given self.now.rom.now self.now.events.now (world run answers.old places.old Done) }
    {
        let given = self.given;
        let Some(cycle) = next::<Levels>(self.events, run.done, run.stamp, run.levels) else {
            return Err(Refusal::BadEvent);
        };
        let stamps = Stamps {
            listener: given.other,
            driver: run.stamp,
        };
        let waits = stamps.driver_waits();
        if waits {
            return Err(Refusal::MustWait);
        }
        let bus = Bus {
            select: given.select,
            rom: self.rom,
        };
        let after = run
            .chip
            .cycle(bus, Levels::from(cycle.levels), access_of(cycle.access));
        let changed = changes_cto(given, run.chip, after.chip);
        if changed & (64 <= run.ends.waiting) {
            return Err(Refusal::BookFull);
        }
        answer(answers, run.done, cycle.done, after.answer);
        let ends = note(places, run.ends, changed, stamp::next(run.stamp));
        Ok(run.go_on(after.chip, cycle.levels, cycle.done, ends))
    }
}
