// Stamps: 32-bit numbers of cycles, which go round.
ghost use Rattle.std.specs.Prelude.{◌≡◌};
ghost use Rattle.wire.specs.Order.{span_of};
ghost use Rattle.wire.specs.Stamp.{next_stamp, gap, lead_of, in_reach, driver_waits, listener_waits};

// The stamps of the two chips on a wire.
#[derive(Clone, Copy, PartialEq, Eq, Debug)]
pub struct Stamps {
    pub listener: u32,
    pub driver: u32,
}

// The stamp after a cycle.
pub fn next(stamp: u32) -> u32
    ensures { result ≡ next_stamp stamp }
{
    stamp.wrapping_add(1)
}

// How far `to` lies past `from`.
#[tactic(auto, unfolding(crate::specs::Stamp::gap))]
pub fn ahead(from: u32, to: u32) -> u32
    ensures { result ≡ gap from to }
{
    to.wrapping_sub(from)
}

impl Stamps {
    // The lead: below zero where the listener leads.
    #[tactic(auto, unfolding(crate::specs::Stamp::lead_of, crate::specs::Stamp::signed))]
    pub fn lead(self) -> i32
        ensures { result ≡ lead_of self.listener self.driver }
    {
        let past = ahead(self.listener, self.driver);
        past.cast_signed()
    }

    // Whether the stamps are as near as the rules let them be.
    #[tactic(auto, unfolding(crate::specs::Stamp::in_reach, crate::specs::Stamp::listener_limit))]
    pub fn in_reach(self, wired: bool) -> bool
        ensures { result ≡ in_reach self.listener self.driver wired }
    {
        let far = self.lead();
        if wired {
            return (-1 <= far) & (far <= 65536);
        }
        (-65536 <= far) & (far <= 65536)
    }

    // Whether the driver must wait.
    #[tactic(auto, unfolding(crate::specs::Stamp::driver_waits))]
    pub fn driver_waits(self) -> bool
        ensures { result ≡ driver_waits self.listener self.driver }
    {
        65536 <= self.lead()
    }

    // Whether the listener must wait.
    #[tactic(auto, unfolding(crate::specs::Stamp::listener_waits, crate::specs::Stamp::listener_limit))]
    pub fn listener_waits(self, wired: bool) -> bool
        ensures { result ≡ listener_waits self.listener self.driver wired }
    {
        let far = self.lead();
        if wired {
            return far <= -1;
        }
        far <= -65536
    }

    // How many cycles there are from the listener's stamp to the driver's.
    #[tactic(auto, unfolding(crate::specs::Order::span_of))]
    pub fn span(self) -> u32
        ensures { result ≡ span_of self.listener self.driver }
    {
        let far = ahead(self.listener, self.driver);
        if far < 2147483648 { far + 1 } else { 0 }
    }
}
