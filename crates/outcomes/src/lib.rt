// Why a call is refused or stops, and the number that document 01 gives what it comes to.
#![tactic(auto)]

ghost use Rattle.std.specs.Prelude.{◌≡◌, ℕ};
ghost use Rattle.outcomes.specs.Numbers.{returned, refusal_number, start_refusal_number, report_refusal_number};

// Why a move is refused or stops short.
#[derive(Clone, Copy, PartialEq, Eq, Debug)]
pub enum Refusal {
    BadRom,
    BadList,
    FewPlaces,
    BadEvent,
    MustWait,
    BookFull,
    BadBoard,
}

// Why a start is refused.
#[derive(Clone, Copy, PartialEq, Eq, Debug)]
pub enum StartRefusal {
    BadOption,
}

// Why a report is refused.
#[derive(Clone, Copy, PartialEq, Eq, Debug)]
pub enum ReportRefusal {
    Apart,
    BadBoard,
}

// What has a number.
pub trait Numbered {
    ghost number_of: { Self → ℕ };

    fn number(self) -> u32
        ensures { result ≡ number_of self };
}

impl Numbered for Refusal {
    ghost number_of = { refusal_number };

    #[tactic(auto, unfolding(crate::specs::Numbers::refusal_number))]
    fn number(self) -> u32 {
        match self {
            Refusal::BadRom => 2,
            Refusal::BadList => 3,
            Refusal::FewPlaces => 4,
            Refusal::BadEvent => 5,
            Refusal::MustWait => 6,
            Refusal::BookFull => 7,
            Refusal::BadBoard => 9,
        }
    }
}

impl Numbered for StartRefusal {
    ghost number_of = { start_refusal_number };

    #[tactic(auto, unfolding(crate::specs::Numbers::start_refusal_number))]
    fn number(self) -> u32 {
        match self {
            StartRefusal::BadOption => 1,
        }
    }
}

impl Numbered for ReportRefusal {
    ghost number_of = { report_refusal_number };

    #[tactic(auto, unfolding(crate::specs::Numbers::report_refusal_number))]
    fn number(self) -> u32 {
        match self {
            ReportRefusal::Apart => 8,
            ReportRefusal::BadBoard => 9,
        }
    }
}

// A call that is done has the number 0.
impl<T: Drop, E: Numbered> Numbered for Result<T, E> {
    ghost number_of = { returned E.number_of };

    #[tactic(auto, unfolding(crate::specs::Numbers::returned))]
    fn number(self) -> u32 {
        match self {
            Ok(_) => 0,
            Err(refusal) => refusal.number(),
        }
    }
}
