// The 6840 in a move: how it does its next cycle on the board.
#![tactic(auto)]

ghost use Rattle.std.specs.Prelude.{◌≡◌};
ghost use Rattle.outcomes.specs.Numbers.{Done};
ghost use Rattle.lists.specs.Moves.{world, went};
ghost use Rattle.mover6840.specs.Cycle.{seen, step_of, run_of};

use lists::moves::{self, Mover, Ran, Run};
use lists::{answer, next};
use mc6840::Ptm;
use outcomes::Refusal;
use signals::m6840::{Levels, access_of};
use wire::stamp::Stamps;

// What stays through a move: the wire and whether there is one, the 6846's stamp and its CTO. The law `next_cycle` speaks of each by itself.
#[derive(Clone, Copy)]
pub struct Given6840 {
    pub wire: u8,
    pub wired: bool,
    pub other: u32,
    pub cto: bool,
}

// The 6840 with its list.
#[derive(Clone, Copy)]
pub struct Mover6840<'a> {
    pub given: Given6840,
    pub events: &'a [u32],
}

// The levels of a cycle, with what CTO was after the cycle before.
#[tactic(auto, unfolding(crate::specs::Cycle::seen))]
fn see(given: Given6840, run: Run<Ptm>, places: &[u32; 64], levels: u32) -> Levels
    ensures { result ≡ seen given places.now run levels }
{
    let level = run.ends.heard(places, run.stamp, given.cto);
    Levels::from(levels).wired(given.wire, level)
}

impl<'a> Mover for Mover6840<'a> {
    type Chip = Ptm;

    ghost step_of = { λ m w. step_of m.given m.events.now w };

    fn step(
        &self,
        run: Run<Ptm>,
        answers: &mut [u16],
        places: &mut [u32; 64],
    ) -> Result<Run<Ptm>, Refusal>
        ensures { went run answers.new places.new result ≡ step_of self.now.given self.now.events.now (world run answers.old places.old Done) }
    {
        let given = self.given;
        let Some(cycle) = next::<Levels>(self.events, run.done, run.stamp, run.levels) else {
            return Err(Refusal::BadEvent);
        };
        let stamps = Stamps {
            listener: run.stamp,
            driver: given.other,
        };
        let waits = stamps.listener_waits(given.wired);
        if waits {
            return Err(Refusal::MustWait);
        }
        let levels = see(given, run, places, cycle.levels);
        let after = run.chip.cycle(levels, access_of(cycle.access));
        let ends = run.ends.left(places, run.stamp);
        answer(answers, run.done, cycle.done, after.answer);
        Ok(run.go_on(after.chip, cycle.levels, cycle.done, ends))
    }
}

// A move of so many cycles. The book is only read: a move makes its cycles on a copy, as the other chip's write it.
pub fn run_6840(
    run: Run<Ptm>,
    given: Given6840,
    events: &[u32],
    answers: &mut [u16],
    places: &[u32; 64],
    cycles: u32,
) -> Ran<Ptm>
    ensures { world result.run answers.new places.now result.outcome ≡ run_of given events.now cycles (world run answers.old places.now Done) }
{
    let mut places = *places;
    let mover = Mover6840 { given, events };
    moves::make(&mover, run, answers, &mut places, cycles)
}
