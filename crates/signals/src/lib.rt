// The levels and accesses of an event's words, taken apart bit by bit as document 01 names them, a module a chip; and what a cycle
// leaves and answers.
#![tactic(auto)]

ghost use Rattle.std.specs.Prelude.{◌≡◌, ℕ, Bool, not, ◌||◌, eqb, ◌/◌, ◌%◌, ◌^◌};
ghost use Rattle.timer.specs.Fields.{bit};
ghost use Rattle.signals.specs.Words.{read_with_data, absent_with_bits, beyond, unnamed_beyond};

use timer::bit;

pub mod m6840;
pub mod m6846;

// What a chip makes of an event's two words.
pub trait Signals {
    ghost bad: { ℕ → ℕ → Bool };

    // An event that the chip stops at, whatever its stamp.
    fn is_bad(levels: u32, access: u32) -> bool
        ensures { result ≡ bad levels access };
}

// A chip after a cycle, and the byte that it drove, if any.
#[derive(Clone, Copy)]
pub struct Done<C> {
    pub chip: C,
    pub answer: Option<u8>,
}

fn reads_with_data(access: u32) -> bool
    ensures { result ≡ read_with_data access }
{
    bit::<1>(access) & (access / 65536 % 256 != 0)
}

fn absent_with_bits(access: u32) -> bool
    ensures { result ≡ absent_with_bits access }
{
    !bit::<0>(access) & (access != 0)
}

// A bit of the word is set, from FIRST on.
fn is_set_from<const FIRST: u32>(word: u32) -> bool
    ensures { result ≡ beyond FIRST word }
{
    let Some(rest) = word.checked_shr(FIRST) else {
        return false;
    };
    rest != 0
}

// Named are the levels below the bit LEVELS, and of the access what is below the bit ACCESS and the data.
fn has_unnamed<const LEVELS: u32, const ACCESS: u32>(levels: u32, access: u32) -> bool
    ensures { result ≡ unnamed_beyond LEVELS ACCESS levels access }
{
    is_set_from::<LEVELS>(levels)
        | is_set_from::<ACCESS>(access % 65536)
        | is_set_from::<24>(access)
}

// What makes an event bad, whichever bits have names.
fn is_bad_event<const LEVELS: u32, const ACCESS: u32>(levels: u32, access: u32) -> bool
    ensures { result ≡ unnamed_beyond LEVELS ACCESS levels access || read_with_data access || absent_with_bits access }
{
    has_unnamed::<LEVELS, ACCESS>(levels, access)
        | reads_with_data(access)
        | absent_with_bits(access)
}
