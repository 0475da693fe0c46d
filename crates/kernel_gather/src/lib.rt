// Gathers the doors of a set, in the order of their numbers: where the column of each begins, and the part of its cost that does not hang on the point.
#![tactic(auto)]

ghost use Rattle.std.specs.Prelude.{◌≡◌, map, ◌++◌, ◌<◌, length, get_or, drop};
ghost use Rattle.kernel_gather.specs.Gathering.{doors_in, way_at, Gatherable};

use kernel_sheet::{MAX_DOORS, Way};

// Gathers the doors of the set to the front of `ways`, and answers how many they are. The cell of a door's rest stands `back` cells before the end that its slot has. The set
// is walked by its lowest door, which is struck off: a turn for each door that is there, and none for the others.
pub fn gather(
    set: u64,
    column: &[u16; MAX_DOORS],
    sums: &[u64; MAX_DOORS],
    slot: &[u16; MAX_DOORS],
    back: &[u32; MAX_DOORS],
    ends: &[usize],
    cells: &[u64],
    ways: &mut [Way; MAX_DOORS],
) -> usize
    requires { Gatherable set sums.now slot.now back.now ends.now cells.now }
    ensures count { result ≡ length (doors_in set) }
    ensures ways { ways.new ≡ map (way_at column.now sums.now slot.now back.now ends.now cells.now) (doors_in set) ++ drop result ways.old }
{
    let mut left = set;
    let mut m: usize = 0;
    while left != 0 {
        let d = left.trailing_zeros() as usize;
        let at = ends[slot[d] as usize] - back[d] as usize;
        ways[m] = Way {
            begin: column[d],
            part: sums[d] + cells[at],
        };
        m += 1;
        left &= left - 1;
    }
    m
}

// Which door stands at place i of those gathered.
pub fn door_at(set: u64, i: usize) -> u16
    requires { i < length (doors_in set) }
    ensures { result ≡ get_or (doors_in set) i 0 }
{
    let mut left = set;
    for _ in 0..i {
        left &= left - 1;
    }
    left.trailing_zeros() as u16
}
