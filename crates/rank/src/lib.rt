// The rank of a list of tasks, the number of lists of its size with a smaller number, from a table of binomials; and the next list of the same size.
#![tactic(auto)]

ghost use Rattle.std.specs.Prelude.{◌≡◌, ◌*◌, ◌^◌, ◌≤◌, ◌<◌};
ghost use Rattle.model.specs.TaskList.{size};
ghost use Rattle.model.specs.Method.{mask_bits};
ghost use Rattle.rank.specs.Binomials.{binomial};
ghost use Rattle.rank.specs.Ranks.{max_ranked, Tabled, rank_of, most_lists_of, rank_ends, NextOfSize};

pub const MAX_TASKS: usize = 16;

// The number of lists of so many tasks: a constant here, where `tasklist::lists` has it by a call.
const LISTS: u32 = 1 << MAX_TASKS;

const WIDTH: usize = 17;

// n over k, for n and k from 0 to 16: a row for each n. It is the form that the scope fixes: ranks come from a constant table of 17 by 17.
const BINOMIALS: [[u32; WIDTH]; WIDTH] = [
    [1, 0, 0, 0, 0, 0, 0, 0, 0, 0, 0, 0, 0, 0, 0, 0, 0],
    [1, 1, 0, 0, 0, 0, 0, 0, 0, 0, 0, 0, 0, 0, 0, 0, 0],
    [1, 2, 1, 0, 0, 0, 0, 0, 0, 0, 0, 0, 0, 0, 0, 0, 0],
    [1, 3, 3, 1, 0, 0, 0, 0, 0, 0, 0, 0, 0, 0, 0, 0, 0],
    [1, 4, 6, 4, 1, 0, 0, 0, 0, 0, 0, 0, 0, 0, 0, 0, 0],
    [1, 5, 10, 10, 5, 1, 0, 0, 0, 0, 0, 0, 0, 0, 0, 0, 0],
    [1, 6, 15, 20, 15, 6, 1, 0, 0, 0, 0, 0, 0, 0, 0, 0, 0],
    [1, 7, 21, 35, 35, 21, 7, 1, 0, 0, 0, 0, 0, 0, 0, 0, 0],
    [1, 8, 28, 56, 70, 56, 28, 8, 1, 0, 0, 0, 0, 0, 0, 0, 0],
    [1, 9, 36, 84, 126, 126, 84, 36, 9, 1, 0, 0, 0, 0, 0, 0, 0],
    [
        1, 10, 45, 120, 210, 252, 210, 120, 45, 10, 1, 0, 0, 0, 0, 0, 0,
    ],
    [
        1, 11, 55, 165, 330, 462, 462, 330, 165, 55, 11, 1, 0, 0, 0, 0, 0,
    ],
    [
        1, 12, 66, 220, 495, 792, 924, 792, 495, 220, 66, 12, 1, 0, 0, 0, 0,
    ],
    [
        1, 13, 78, 286, 715, 1287, 1716, 1716, 1287, 715, 286, 78, 13, 1, 0, 0, 0,
    ],
    [
        1, 14, 91, 364, 1001, 2002, 3003, 3432, 3003, 2002, 1001, 364, 91, 14, 1, 0, 0,
    ],
    [
        1, 15, 105, 455, 1365, 3003, 5005, 6435, 6435, 5005, 3003, 1365, 455, 105, 15, 1, 0,
    ],
    [
        1, 16, 120, 560, 1820, 4368, 8008, 11440, 12870, 11440, 8008, 4368, 1820, 560, 120, 16, 1,
    ],
];

// The rank of a list, and its number of tasks.
#[derive(Clone, Copy)]
pub struct Ranked {
    pub rank: u32,
    pub size: usize,
}

// Where the row of a list begins in a layer, and for each task where that of the list without it ends.
#[derive(Clone, Copy)]
pub struct ListRows {
    pub own: usize,
    pub ends: [usize; MAX_TASKS],
}

// The table of binomials: n over k in row n at place k. What looks into it is lent it, since a constant array is made anew wherever the code names it.
#[derive(Clone, Copy)]
pub struct Pascal {
    pub entries: [[u32; WIDTH]; WIDTH],
    pub ghost tabled: { Tabled entries },
}

impl Pascal {
    // The table, from the constant.
    pub fn new() -> Self
        ensures { Tabled result.entries }
    {
        Pascal { entries: BINOMIALS }
    }

    // n over k.
    fn binomial(&self, n: usize, k: usize) -> u32
        requires { (n ≤ max_ranked) × (k ≤ max_ranked) }
        ensures { result ≡ binomial n k }
    {
        self.entries[n][k]
    }

    // The rank of list k, by the tasks below 16: for each of them, the lowest first, t over the number of tasks so far. The loop goes from task to task
    // of the mask, and not over its 16 places, of which most are often free.
    pub fn rank(&self, k: u32) -> Ranked
        ensures rank { result.rank ≡ rank_of k }
        ensures size { result.size ≡ size max_ranked k }
    {
        let mut left = k % LISTS;
        let mut rank = 0;
        let mut size = 0;
        while left != 0 {
            let t = left.trailing_zeros();
            size += 1;
            rank += self.binomial(t as usize, size);
            left = tasklist::without(left, t as u16);
        }
        Ranked { rank, size }
    }

    // The rows of list k, each of so many cells. Of the list without task t, the tasks above t stand one place lower: so from the highest task down the sum
    // has each task above at its lower place, and those below where they are in k. The loop goes from task to task, as in `rank`.
    pub fn rows(&self, k: u32, points: u16) -> ListRows
        ensures own { result.own ≡ rank_of k * points }
        ensures ends { result.ends ≡ rank_ends points k }
    {
        let all = self.rank(k);
        let apart = points as usize;
        let own = all.rank as usize * apart;
        let mut ends = [own + apart; MAX_TASKS];
        let mut left = k % LISTS;
        let mut sum = all.rank;
        let mut i = all.size;
        while left != 0 {
            let t = 31 - left.leading_zeros();
            let rest = sum - self.binomial(t as usize, i);
            ends[t as usize] = rest as usize * apart + apart;
            i -= 1;
            sum = rest + self.binomial(t as usize, i);
            left = tasklist::without(left, t as u16);
        }
        ListRows { own, ends }
    }
}

// The most lists of one size of n tasks, up to 16; 0 for more.
#[tactic(auto, using(crate::proofs::Binomials::largest_next, crate::proofs::Binomials::all_most, crate::proofs::Binomials::none_of))]
pub fn most_lists(n: u16) -> u32
    ensures { result ≡ most_lists_of n }
{
    let n = n as usize;
    if n > MAX_TASKS {
        return 0;
    }
    let table = Pascal::new();
    let mut most = 0;
    for k in 0..=n {
        most = most.max(table.binomial(n, k));
    }
    most
}

// The next list of k's size: the lowest run of tasks gives its highest to the place above it, and the others of it move to the bottom.
pub fn next(k: u32) -> u32
    requires { (0 < k) × (k < 2 ^ max_ranked) }
    ensures { NextOfSize mask_bits k result }
{
    let low = k.trailing_zeros();
    let carried = k + (1 << low);
    let high = carried.trailing_zeros();
    carried + (1 << (high - low - 1)) - 1
}
