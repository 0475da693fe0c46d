// The plan in hand: built door by door, or taken from the bytes of a plan.
#![tactic(auto)]

ghost use Rattle.std.specs.Prelude.{◌≡◌};
ghost use Rattle.model.specs.PlanInHand.{no_doors, with_door, in_hand};
ghost use Rattle.hand.specs.Hands.{hand_of};

use layout::MAX_DOORS;

// A plan in hand: its doors, how many of the places they take, and its cost. It is the form that the scope fixes: a struct by value, with a fixed array of doors
// beside count and cost, and a method that hands on the longer plan.
#[derive(Clone, Copy)]
pub struct Plan {
    pub doors: [u16; MAX_DOORS],
    pub count: usize,
    pub cost: u64,
}

impl Plan {
    // A plan of that cost with no door yet.
    pub fn new(cost: u64) -> Self
        ensures { hand_of result ≡ no_doors cost }
    {
        Plan {
            doors: [0; MAX_DOORS],
            count: 0,
            cost,
        }
    }

    // The plan with that door added. A full plan is handed back as it is.
    pub fn with_door(mut self, door: u16) -> Self
        ensures { hand_of result ≡ with_door (hand_of self) door }
    {
        let at = self.count;
        if at < MAX_DOORS {
            self.doors[at] = door;
            self.count += 1;
        }
        self
    }
}

// The plan of n doors that the bytes hold, in hand.
pub fn in_hand(n: u16, q: &[u8]) -> Plan
    ensures { hand_of result ≡ in_hand n q.now }
{
    let mut x = Plan::new(layout::cost_in(n, q));
    for i in 0..n {
        x = x.with_door(layout::door_in(q, i));
    }
    x
}
