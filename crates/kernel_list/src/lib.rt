// The list at hand, by the prepared numbers: who waits for its tasks, and so whether it is essential and which of its tasks can come first; its load; and what is charged while
// it is open.
#![tactic(auto)]

ghost use Rattle.std.specs.Iterator.{at_most};
ghost use Rattle.std.specs.Prelude.{◌≡◌, not, ◌||◌, ℕ, ◌+◌, ◌^◌, ◌≤◌, ◌<◌, pos, length, get_or};
ghost use Rattle.model.specs.Folds.{all_below, map_below};
ghost use Rattle.model.specs.Bytes.{overwrite};
ghost use Rattle.model.specs.TaskList.{member};
ghost use Rattle.model.specs.Sheet.{Sheet};
ghost use Rattle.model.specs.SheetLayout.{max_tasks, max_doors, max_rules};
ghost use Rattle.model.specs.Method.{mask_bits};
ghost use Rattle.kernel_list.specs.Walks.{TakesLowest};
ghost use Rattle.kernel_list.specs.Lists.{union_of, sum_of, Loadable, times_by, times_of, charged_at, sum_at, Addable, Chargeable, Opening, Opened};

use kernel_sheet::{MAX_DOORS, MAX_RULES, MAX_TASKS, Numbers, Rules};

// The tasks that wait for some task of list k: the union of its tasks' receivers. Each is read before the test, so that the test is no branch.
pub fn waiting(receivers: &[u32; MAX_TASKS], k: u32) -> u32
    ensures { result ≡ union_of receivers.now k }
{
    let mut all = 0;
    for (t, &of_task) in receivers.iter().enumerate() {
        if tasklist::contains(k, t as u16) {
            all |= of_task;
        }
    }
    all
}

// Whether all that wait are in list k.
pub fn has_all(k: u32, waiting: u32) -> bool
    ensures { result ≡ all_below mask_bits (λ j. not (member waiting j) || member k j) }
{
    k & waiting == waiting
}

// The tasks of a list, the lowest first.
#[derive(Drop)]
struct Walk(u32);

impl Iterator for Walk {
    type Item = u32;

    ghost next_gives = { TakesLowest };

    ghost remaining = { λ left. at_most left.0 };

    fn next(&mut self) -> Option<u32> {
        if self.0 == 0 {
            return None;
        }
        let t = self.0.trailing_zeros();
        self.0 = tasklist::without(self.0, t as u16);
        Some(t)
    }
}

// The doors of the tasks of list k, task after task from the lowest.
fn doors_of(sets: &[u64; MAX_TASKS], k: u32) -> u64
    requires { k < 2 ^ max_tasks }
    ensures { result ≡ union_of sets.now k }
{
    let mut all = 0;
    for t in Walk(k) {
        all |= sets[t as usize];
    }
    all
}

// The load while list k is open, one whose load is not below zero: the signed changes of its tasks summed onto the end load. The form that the scope fixes.
fn load(change: &[i16; MAX_TASKS], end_load: u16, k: u32) -> u32
    requires { Loadable end_load change.now k }
    ensures { pos result ≡ sum_of end_load change.now k }
{
    let mut sum = end_load as i32;
    for t in Walk(k) {
        let of_task = change[t as usize];
        sum += of_task as i32;
    }
    sum as u32
}

// How often a rule is charged while list k is open, by the count of the masked list: the form that the scope fixes.
fn often(watched: u16, least: u16, most: u16, k: u16) -> u16
    ensures { result ≡ times_by watched least most k }
{
    let over = (k & watched).count_ones() as u16 + 1;
    over.saturating_sub(least).min(most)
}

// How often each of n rules is charged while list k is open. The rules lie in arrays side by side, so that the compiler takes eight at once.
fn times(rules: &Rules, n: usize, k: u16, out: &mut [u16; MAX_RULES])
    requires { n ≤ max_rules }
    ensures { out.new ≡ overwrite (map_below n (times_of rules.now.watched rules.now.least rules.now.most k)) out.old }
{
    for i in 0..n {
        out[i] = often(rules.watched[i], rules.least[i], rules.most[i], k);
    }
}

// Writes the work of each of n doors.
fn copy_works(work: &[u32; MAX_DOORS], n: usize, sums: &mut [u64; MAX_DOORS])
    requires { n ≤ max_doors }
    ensures { sums.new ≡ overwrite (map_below n (λ d. get_or work.now d 0)) sums.old }
{
    for d in 0..n {
        sums[d] = u64::from(work[d]);
    }
}

// Adds to the sums of the doors what each of n rules costs there, charged so many times.
fn add_charges(rules: &Rules, times: &[u16; MAX_RULES], n: usize, sums: &mut [u64; MAX_DOORS])
    requires { Addable rules.now.door rules.now.charge times.now n sums.old }
    ensures { sums.new ≡ map_below max_doors (λ d. get_or sums.old d 0 + charged_at rules.now.door rules.now.charge (λ i. get_or times.now i 0) n d) }
{
    for i in 0..n {
        let d = rules.door[i] as usize;
        sums[d] += rules.charge[i] as u64 * times[i] as u64;
    }
}

// Writes the sum of each door: its work, and what the rules on it cost while list k is open.
fn charge_doors(x: &Numbers, k: u16, sums: &mut [u64; MAX_DOORS])
    requires { Chargeable x.now.doors.work x.now.rules.door x.now.rules.charge x.now.counts.doors x.now.counts.rules sums.old }
    ensures { sums.new ≡ overwrite (map_below x.now.counts.doors (sum_at x.now.doors.work x.now.rules.door x.now.rules.watched x.now.rules.least x.now.rules.most x.now.rules.charge x.now.counts.rules k)) sums.old }
{
    let rules = x.counts.rules as usize;
    copy_works(&x.doors.work, x.counts.doors as usize, sums);
    let mut each = [0; MAX_RULES];
    times(&x.rules, rules, k, &mut each);
    add_charges(&x.rules, &each, rules, sums);
}

// What a list has once it is open.
#[derive(Clone, Copy)]
pub struct AtHand {
    pub load: u32,
    pub doors: u64,
}

// Opens the essential list k, with those that wait for its tasks: its load, the doors whose task can come first, and the sums at the doors.
pub fn open(x: &Numbers, k: u32, waiting: u32, sums: &mut [u64; MAX_DOORS]) -> AtHand
    requires { (S : Sheet) × Opening S x.now k waiting }
    ensures { (S : Sheet) → Opening S x.now k waiting → Opened S k result.load result.doors sums.old sums.new }
{
    let load = load(&x.tasks.change, x.counts.end_load, k);
    let doors = doors_of(&x.tasks.doors, k & !waiting);
    charge_doors(x, k as u16, sums);
    AtHand { load, doors }
}
