// The book of the changes that wait: a ring of 64 places, which is lent, and its two ends. The record that C holds has the places apart
// from the ends, so that they are no struct here.
ghost use Rattle.std.specs.Prelude.{◌≡◌};
ghost use Rattle.wire.specs.Book.{book_of, noted_of, left_of, heard_at, in_order_at};

use crate::stamp::{Stamps, ahead};

// The place of the oldest waiting change, and how many wait.
#[repr(C)]
#[derive(Clone, Copy)]
pub struct Ends {
    pub first: u32,
    pub waiting: u32,
}

impl Ends {
    // A change more, made by the cycle `stamp`; a full book stays as it is.
    #[tactic(auto, using(crate::proofs::Ring::around), unfolding(crate::specs::Book::noted_of))]
    pub fn noted(self, places: &mut [u32; 64], stamp: u32) -> Ends
        ensures { book_of places.new result ≡ noted_of places.old self stamp }
    {
        let first = self.first;
        let waiting = self.waiting;
        if 64 <= waiting {
            return self;
        }
        let at = ((first % 64 + waiting) % 64) as usize;
        places[at] = stamp;
        Ends {
            first,
            waiting: waiting + 1,
        }
    }

    // The listener, at `stamp`, does its next cycle: the oldest change leaves if it is of that stamp.
    #[tactic(auto, using(crate::proofs::Ring::around), unfolding(crate::specs::Book::left_of))]
    pub fn left(self, places: &[u32; 64], stamp: u32) -> Ends
        ensures { result ≡ left_of places.now self stamp }
    {
        let waiting = self.waiting;
        if waiting == 0 {
            return self;
        }
        let first = self.first % 64;
        let at = first as usize;
        if places[at] == stamp {
            return Ends {
                first: (first + 1) % 64,
                waiting: waiting - 1,
            };
        }
        self
    }

    // What the listener, at `stamp`, sees in its next cycle.
    pub fn heard(self, places: &[u32; 64], stamp: u32, level: bool) -> bool
        ensures { result ≡ heard_at places.now self stamp level }
    {
        let staying = self.left(places, stamp);
        (staying.waiting % 2 == 1) != level
    }

    // Whether no more than 64 wait, their cycles rise, and each lies from the listener's stamp to the driver's.
    pub fn in_order(self, places: &[u32; 64], stamps: Stamps) -> bool
        ensures { result ≡ in_order_at places.now self stamps.listener stamps.driver }
    {
        let waiting = self.waiting;
        if 64 < waiting {
            return false;
        }
        let end = stamps.span();
        let first = self.first % 64;
        let mut low: u32 = 0;
        for i in 0..waiting {
            let at = ((first + i) % 64) as usize;
            let past = ahead(stamps.listener, places[at]);
            if past < low {
                return false;
            }
            if end <= past {
                return false;
            }
            low = past + 1;
        }
        true
    }
}
