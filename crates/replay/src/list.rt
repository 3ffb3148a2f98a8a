// A chip's list of events and its answer places.
ghost use Rattle.std.specs.Prelude.{◌≡◌, ◌≤◌, ◌*◌, ◌↔◌, [], ◌∷◌, ◌++◌, IsErrOf, IfErr, OnOk, OnErr};
ghost use Rattle.arrayvec.specs.ArrayVec.{array_vec_len};
ghost use Rattle.replay.specs.Parts.{in_use};

use crate::stop::Stop;
use arrayvec::ArrayVec;
use runfile::Event;

const MOST_EVENTS: usize = 65536;

const MOST_WORDS: usize = 3 * MOST_EVENTS;

// What a place holds until its answer is written.
const UNANSWERED: u16 = 43981;

// The board takes the events' words and the places of their answers as two slices. Their room lies in the list, so that no event asks for memory.
#[derive(Drop)]
pub struct List {
    pub words: ArrayVec<u32, MOST_WORDS>,
    pub answers: ArrayVec<u16, MOST_EVENTS>,
    ghost whole: { array_vec_len words ≡ 3 * array_vec_len answers },
}

impl List {
    pub fn new() -> List
        ensures { result.answers.items ≡ [] }
    {
        List {
            words: ArrayVec::new(),
            answers: ArrayVec::new(),
        }
    }

    pub fn clear(&mut self)
        ensures { self.new.answers.items ≡ [] }
    {
        self.words.clear();
        self.answers.clear();
    }

    pub fn add(&mut self, event: Event) -> Result<(), Stop>
        ensures words { OnOk result (self.new.words.items ≡ self.old.words.items ++ event.stamp ∷ event.levels ∷ event.access ∷ []) }
        ensures place { OnOk result (self.new.answers.items ≡ self.old.answers.items ++ UNANSWERED ∷ []) }
        ensures full { IsErrOf result Stop.ManyEvents ↔ (MOST_EVENTS ≤ array_vec_len self.old.answers) }
        ensures reason { IfErr result (λ stop. stop ≡ Stop.ManyEvents) }
        ensures err { OnErr result ((self.new.words.items ≡ self.old.words.items) × (self.new.answers.items ≡ self.old.answers.items)) }
    {
        if MOST_EVENTS <= self.answers.len() {
            return Err(Stop::ManyEvents);
        }
        let words = [event.stamp, event.levels, event.access];
        // Both have room, as there are three words for each place.
        let _ = self.words.try_extend_from_slice(&words);
        let _ = self.answers.try_push(UNANSWERED);
        Ok(())
    }
}

// The words of so many events. With a count, as its promise and its fault speak of one.
#[tactic(auto, unfolding(crate::specs::Parts::in_use))]
pub fn listed(words: &[u32], count: usize) -> &[u32]
    ensures { result.now ≡ in_use words.now count }
{
    let to = count.saturating_mul(3);
    words.get(..to).unwrap_or(words)
}
