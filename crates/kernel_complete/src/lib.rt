// Completes a plan from a point and an open list, door after door: the first by number, among the doors whose task can come first, whose step plus the cell of the rest
// equals the cell here.
#![tactic(auto)]

ghost use Rattle.std.specs.Prelude.{◌≡◌, ◌≢◌, ◌+◌, ◌^◌, ◌<◌, eqb, All, length, position};
ghost use Rattle.model.specs.Sheet.{Sheet};
ghost use Rattle.kernel_table.specs.Cells.{TableRests};
ghost use Rattle.hand.specs.Hands.{hand_of};
ghost use Rattle.kernel_complete.specs.Completed.{cost_by, next_door, completed, Completable};

use hand::Plan;
use kernel_bellman::{Room, Sources};
use kernel_sheet::{MAX_DOORS, Numbers, Way};

// Which of the gathered doors is the first through which the cost from point p is this one.
fn first_at_cost(columns: &[u64], load: u32, ways: &[Way], p: u16, cost: u64) -> Option<usize>
    requires { All (λ way. (way.begin + p < length columns.now) × (cost_by columns.now load p way < 2 ^ 64)) ways.now }
    ensures { result ≡ position (λ way. eqb (cost_by columns.now load p way) cost) ways.now }
{
    ways.iter().position(|way| {
        let at = way.begin as usize + p as usize;
        columns[at] * load as u64 + way.part == cost
    })
}

// The first door of the cheapest completion from point p with the essential list k open.
fn next_door(from: &Sources, p: u16, k: u32, cells: &[u64], room: &mut Room) -> u16
    requires { ((S : Sheet) × Completable S from.now.numbers.now from.now.columns.now k p cells.now × TableRests S from.now.slot.now from.now.back.now) × (k ≢ 0) }
    ensures { (S : Sheet) → Completable S from.now.numbers.now from.now.columns.now k p cells.now → TableRests S from.now.slot.now from.now.back.now → result ≡ next_door S k p }
{
    let numbers = from.numbers;
    let waiting = kernel_list::waiting(&numbers.tasks.receivers, k);
    let at = k as usize * numbers.counts.points as usize;
    let ends = [at];
    let hand = kernel_bellman::gather(from, k, waiting, &ends, cells, room);
    let ways = &room.ways[..hand.count];
    let here = cells[at + p as usize];
    let i = first_at_cost(from.columns, hand.load, ways, p, here).unwrap();
    kernel_gather::door_at(hand.doors, i)
}

// The cheapest completion from point p with list k open, which is one that the pairs allow, in hand. Kept out of its caller, in whose frame its arrays would take more of the stack.
#[inline(never)]
pub fn complete(x: &Numbers, columns: &[u64], p: u16, k: u32, cells: &[u64]) -> Plan
    requires { (S : Sheet) × Completable S x.now columns.now k p cells.now }
    ensures { (S : Sheet) → Completable S x.now columns.now k p cells.now → hand_of result ≡ completed S k p }
{
    let slot = [0; MAX_DOORS];
    let back = kernel_table::backs(x);
    let from = Sources {
        numbers: x,
        columns,
        slot: &slot,
        back: &back,
    };
    let mut room = Room::new();
    let here = cells[k as usize * x.counts.points as usize + p as usize];
    // The form that the scope fixes: a method takes the plan and hands on the longer one.
    let mut plan = Plan::new(here);
    let mut left = k;
    let mut at = p;
    // Nothing is counted here: each turn strikes its door's task off the list, until none is left.
    while left != 0 {
        let d = next_door(&from, at, left, cells, &mut room);
        plan = plan.with_door(d);
        left = tasklist::without(left, x.doors.task[d as usize]);
        at = x.doors.depart[d as usize];
    }
    plan
}
