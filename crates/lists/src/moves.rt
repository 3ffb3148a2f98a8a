// A move: cycle after cycle of a chip by its list, until all are done or one is refused.
ghost use Rattle.std.specs.Prelude.{◌≡◌};
ghost use Rattle.outcomes.specs.Numbers.{Done};
ghost use Rattle.lists.specs.Moves.{World, world, went, moved, run_of};

use outcomes::Refusal;
use wire::book::Ends;
use wire::stamp::next;

// What the cycles change, answers and the book's places apart; the levels are the word of the last event.
#[derive(Clone, Copy)]
pub struct Run<C> {
    pub chip: C,
    pub levels: u32,
    pub stamp: u32,
    pub done: usize,
    pub ends: Ends,
}

// What a move leaves, and what it came to.
#[derive(Clone, Copy)]
pub struct Ran<C> {
    pub run: Run<C>,
    pub outcome: Result<(), Refusal>,
}

impl<C: Copy> Run<C> {
    pub fn go_on(self, chip: C, levels: u32, done: usize, ends: Ends) -> Run<C>
        ensures { result ≡ moved chip levels done ends self }
    {
        Run {
            chip,
            levels,
            stamp: next(self.stamp),
            done,
            ends,
        }
    }
}

// A chip on the board with its list: how it does its next cycle.
pub trait Mover {
    type Chip: Copy;

    ghost step_of: { Self → World Self.Chip → World Self.Chip };

    // The run after the cycle, or why it is not done; a refused one writes nothing.
    fn step(
        &self,
        run: Run<Self::Chip>,
        answers: &mut [u16],
        places: &mut [u32; 64],
    ) -> Result<Run<Self::Chip>, Refusal>
        ensures { went run answers.new places.new result ≡ step_of self.now (world run answers.old places.old Done) };
}

// Makes a move of so many cycles.
pub fn make<M: Mover>(
    mover: &M,
    start: Run<M::Chip>,
    answers: &mut [u16],
    places: &mut [u32; 64],
    cycles: u32,
) -> Ran<M::Chip>
    ensures { world result.run answers.new places.new result.outcome ≡ run_of (M.step_of mover.now) cycles (world start answers.old places.old Done) }
{
    let mut state = start;
    for _ in 0..cycles {
        match mover.step(state, answers, places) {
            Ok(after) => state = after,
            Err(refusal) => {
                return Ran {
                    run: state,
                    outcome: Err(refusal),
                };
            }
        }
    }
    Ran {
        run: state,
        outcome: Ok(()),
    }
}
