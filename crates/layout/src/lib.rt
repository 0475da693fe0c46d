// The layout of a plan: head, start, doors and cost.
#![tactic(auto)]

ghost use Rattle.std.specs.Prelude.{◌≡◌, ◌≤◌, length};
ghost use Rattle.model.specs.Bytes.{overwrite_at};
ghost use Rattle.model.specs.PlanLayout.{plan_start_at, plan_length, plan_head, wrong_tasks, wrong_head, ill_formed, start_in, door_in, cost_in, door_array};
ghost use Rattle.layout.specs.Heads.{head_numbers};

use number::{read_u16, read_u64};
use store::write_row;

// The most doors of a plan.
pub const MAX_DOORS: usize = 12;

// Where start and doors stand, and the bytes of the cost behind them.
pub const START_AT: usize = 22;

pub const DOORS_AT: usize = 24;

pub const COST_BYTES: usize = 8;

// Whether a plan cannot have n doors, or fewer than n are lent.
pub fn wrong_tasks(n: usize, lent: usize) -> bool
    ensures { result ≡ wrong_tasks n lent }
{
    n < 1 || MAX_DOORS < n || lent < n
}

// The length of a plan of n doors.
pub fn byte_length(n: u16) -> usize
    ensures { result ≡ plan_length n }
{
    DOORS_AT + 2 * n as usize + COST_BYTES
}

// The one kind of plan: an enum of one kind would be no plainer than its number.
const KIND: u16 = 2;

const HEAD_NUMBERS: usize = 11;

// The head's numbers: kind and zero, then body number, offset and number of entries of start, doors and cost.
fn head(n: u16) -> [u16; HEAD_NUMBERS]
    ensures { result ≡ head_numbers n }
{
    let start_at = START_AT as u16;
    let doors_at = DOORS_AT as u16;
    let cost_at = ((DOORS_AT + 2 * n as usize) % 65536) as u16;
    [KIND, 0, 1, start_at, 1, 2, doors_at, n, 3, cost_at, 1]
}

// Writes the head of a plan of n doors, if it fits.
pub fn write_head(b: &mut [u8], n: u16)
    ensures { b.new ≡ overwrite_at 0 (plan_head n) b.old }
{
    write_row(b, 0, &head(n));
}

// Whether the bytes, of which there are enough, do not begin with the head of a plan of n doors.
fn wrong_head(n: u16, q: &[u8]) -> bool
    requires { plan_start_at ≤ length q.now }
    ensures { result ≡ wrong_head n q.now }
{
    for (k, number) in head(n).iter().enumerate() {
        if read_u16(q, 2 * k) != *number {
            return true;
        }
    }
    false
}

// Door i that the bytes hold.
pub fn door_in(q: &[u8], i: u16) -> u16
    ensures { result ≡ door_in q.now i }
{
    read_u16(q, DOORS_AT + 2 * i as usize)
}

// The cost that the bytes hold, behind n doors.
pub fn cost_in(n: u16, q: &[u8]) -> u64
    ensures { result ≡ cost_in n q.now }
{
    read_u64(q, DOORS_AT + 2 * n as usize)
}

// Sets the doors lent: n that the bytes hold, and 0 from there on.
pub fn read_doors(n: u16, q: &[u8], doors: &mut [u16])
    ensures { doors.new ≡ door_array (length doors.old) n (door_in q.now) }
{
    for i in 0..doors.len() {
        doors[i] = if i < n as usize {
            door_in(q, i as u16)
        } else {
            0
        };
    }
}

// Whether the length, or a byte before the start, is not as laid out for n doors.
pub fn ill_formed(n: u16, q: &[u8]) -> bool
    ensures { result ≡ ill_formed n q.now }
{
    q.len() != byte_length(n) || wrong_head(n, q)
}

// The start that the bytes hold.
pub fn start_in(q: &[u8]) -> u16
    ensures { result ≡ start_in q.now }
{
    read_u16(q, START_AT)
}
