// The next event of a list, the places that the events' answers go to, and a move by a list: all once for both chips.
#![tactic(auto)]

ghost use Rattle.std.specs.Prelude.{◌≡◌, ◌<◌, ◌/◌, length};
ghost use Rattle.signals.specs.Words.{place_of};
ghost use Rattle.lists.specs.Events.{words_at, idle_with, taken_by, next_of, answered};

use signals::Signals;
use wire::stamp::ahead;

pub mod moves;

// An event: three words of a list.
#[derive(Clone, Copy)]
struct Words {
    stamp: u32,
    levels: u32,
    access: u32,
}

// What the next cycle has: the words of its levels and of its access, and the events done after it.
#[derive(Clone, Copy, PartialEq, Eq, Debug)]
pub struct Cycle {
    pub levels: u32,
    pub access: u32,
    pub done: usize,
}

// By index: over `as_chunks` the proof did not close.
#[tactic(auto, unfolding(crate::specs::Events::words_at))]
fn event_at(events: &[u32], done: usize) -> Words
    requires { done < length events.now / 3 }
    ensures { result ≡ words_at events.now done }
{
    let at = done * 3;
    Words {
        stamp: events[at],
        levels: events[at + 1],
        access: events[at + 2],
    }
}

// A cycle between events.
fn idle(held: u32, done: usize) -> Cycle
    ensures { result ≡ idle_with held done }
{
    Cycle {
        levels: held,
        access: 0,
        done,
    }
}

// The event's cycle is the next one, or it is still to come; none where the event is bad.
#[tactic(auto, unfolding(crate::specs::Events::taken_by))]
fn take(event: Words, bad: bool, done: usize, stamp: u32, held: u32) -> Option<Cycle>
    requires { done < 18446744073709551615 }
    ensures { result ≡ taken_by event bad done stamp held }
{
    let far = ahead(stamp, event.stamp);
    if (far == 0) | (2147483647 < far) | bad {
        return None;
    }
    if far == 1 {
        return Some(Cycle {
            levels: event.levels,
            access: event.access,
            done: done + 1,
        });
    }
    Some(idle(held, done))
}

// The next cycle by a list, of whose events so many are done; none where its next event is bad. Events done, stamp and levels held come one
// by one, as a list knows no run.
#[tactic(auto, unfolding(crate::specs::Events::next_of))]
pub fn next<S: Signals>(events: &[u32], done: usize, stamp: u32, held: u32) -> Option<Cycle>
    ensures { result ≡ next_of S.bad events.now done stamp held }
{
    if done < events.len() / 3 {
        let event = event_at(events, done);
        let bad = S::is_bad(event.levels, event.access);
        return take(event, bad, done, stamp, held);
    }
    Some(idle(held, done))
}

// An event's answer goes to its place; a cycle without event writes nothing.
#[tactic(auto, unfolding(crate::specs::Events::answered))]
pub fn write_answer(answers: &mut [u16], before: usize, after: usize, value: u16)
    ensures { answers.new ≡ answered answers.old before after value }
{
    if before == after {
        return;
    }
    if before < answers.len() {
        answers[before] = value;
    }
}

// The same for what a chip drove, if anything.
pub fn answer(answers: &mut [u16], before: usize, after: usize, byte: Option<u8>)
    ensures { answers.new ≡ answered answers.old before after (place_of byte) }
{
    write_answer(answers, before, after, place(byte));
}

// 256 where nothing was driven.
fn place(byte: Option<u8>) -> u16
    ensures { result ≡ place_of byte }
{
    match byte {
        Some(byte) => u16::from(byte),
        None => 256,
    }
}
