// What the kernel works with, prepared from a sheet: the only place of it that knows bytes, a view and a kind.
#![tactic(auto)]

ghost use Rattle.std.specs.Prelude.{◌≡◌, ◌≤◌, ◌<◌, ℕ, ◌*◌};
ghost use Rattle.model.specs.Folds.{map_below};
ghost use Rattle.model.specs.SheetLayout.{max_tasks};
ghost use Rattle.model.specs.Passing.{CountsWithin, InRange};
ghost use Rattle.view.specs.Sheets.{sheet_of};
ghost use Rattle.kernel_prepare.specs.Preparing.{padded, receivers_below, doors_below, tasks_of, doors_of, rules_of, numbers_of};

use kernel_sheet::{Counts, Doors, MAX_TASKS, Numbers, Rules, Tasks};
use view::TaskSheet;

// An array of an element for each of the n entries, and behind them of the number for nothing.
fn padded<T: Copy, const N: usize, F: Fn(u16) -> T>(n: u16, none: T, element: F) -> [T; N]
    requires fits { n ≤ N }
    requires callable { (i : ℕ) → i < n → F.pre element i }
    ensures { (f : ℕ → T) → ((i : ℕ) (x : T) → i < n → F.post element i x → x ≡ f i) → result ≡ padded none N n f }
{
    let mut elements = [none; N];
    for i in 0..n {
        elements[i as usize] = element(i);
    }
    elements
}

// A sheet whose counts have room here, and whose entries name others that there are.
#[derive(Clone, Copy)]
struct Ranged<'a> {
    sheet: TaskSheet<'a>,
    ghost counts: { CountsWithin (sheet_of sheet) },
    ghost ranges: { InRange (sheet_of sheet) },
}

impl<'a> Ranged<'a> {
    // Of each task the receivers of the pairs whose sender it is.
    #[tactic(auto, using(view::proofs::Counted::pairs_are))]
    fn receivers(&self) -> [u32; MAX_TASKS]
        ensures { result ≡ map_below max_tasks (receivers_below (sheet_of self.now.sheet) (sheet_of self.now.sheet).pairs) }
    {
        let sheet = &self.sheet;
        let mut receivers = [0; MAX_TASKS];
        for i in 0..sheet.view.pairs {
            let from = sheet.sender(i) as usize;
            receivers[from] = tasklist::with(receivers[from], sheet.receiver(i));
        }
        receivers
    }

    // Of each task its doors. No one function with `receivers`: its masks are of 32 bits, these of 64, and a trait for both is longer than the two loops.
    #[tactic(auto, using(view::proofs::Counted::doors_are))]
    fn doors_of_tasks(&self) -> [u64; MAX_TASKS]
        ensures { result ≡ map_below max_tasks (doors_below (sheet_of self.now.sheet) (sheet_of self.now.sheet).doors) }
    {
        let sheet = &self.sheet;
        let mut doors = [0; MAX_TASKS];
        for d in 0..sheet.view.doors {
            let t = sheet.task(d) as usize;
            doors[t] |= 1 << d;
        }
        doors
    }

    // Of each task its numbers.
    #[tactic(auto, using(view::proofs::Counted::tasks_are))]
    fn tasks(&self) -> Tasks
        ensures { result ≡ tasks_of (sheet_of self.now.sheet) }
    {
        let sheet = &self.sheet;
        Tasks {
            change: padded(sheet.view.tasks, 0, |t| sheet.change(t)),
            receivers: self.receivers(),
            doors: self.doors_of_tasks(),
        }
    }

    // Where the column of the arrival point of a door begins.
    fn column(&self, d: u16) -> u16
        requires { d < (sheet_of self.now.sheet).doors }
        ensures { result ≡ (sheet_of self.now.sheet).arrive d * (sheet_of self.now.sheet).points }
    {
        self.sheet.arrive(d) * self.sheet.view.points
    }

    // Of each door its numbers.
    #[tactic(auto, using(view::proofs::Counted::doors_are))]
    fn doors(&self) -> Doors
        ensures { result ≡ doors_of (sheet_of self.now.sheet) }
    {
        let sheet = &self.sheet;
        let n = sheet.view.doors;
        Doors {
            column: padded(n, 0, |d| self.column(d)),
            task: padded(n, 0, |d| sheet.task(d)),
            depart: padded(n, 0, |d| sheet.depart(d)),
            work: padded(n, 0, |d| sheet.work(d)),
        }
    }

    // Of each access rule its numbers.
    #[tactic(auto, using(view::proofs::Counted::rules_are))]
    fn rules(&self) -> Rules
        ensures { result ≡ rules_of (sheet_of self.now.sheet) }
    {
        let sheet = &self.sheet;
        let n = sheet.view.rules;
        Rules {
            door: padded(n, 0, |r| sheet.rule_door(r)),
            watched: padded(n, 0, |r| sheet.watched(r)),
            least: padded(n, 0, |r| sheet.least_count(r)),
            most: padded(n, 0, |_| 1),
            charge: padded(n, 0, |r| sheet.charge(r)),
        }
    }
}

// The numbers of a sheet, all but the distances.
#[tactic(auto, using(view::proofs::Counted::starts_are, view::proofs::Counted::points_are))]
pub fn numbers(sheet: &TaskSheet) -> Numbers
    requires { CountsWithin (sheet_of sheet.now) × InRange (sheet_of sheet.now) }
    ensures { result ≡ numbers_of (sheet_of sheet.now) }
{
    let ranged = Ranged { sheet: *sheet };
    let view = sheet.view;
    Numbers {
        counts: Counts {
            end_load: sheet.end_load(),
            tasks: view.tasks,
            doors: view.doors,
            starts: view.starts,
            rules: view.rules,
            points: view.points,
        },
        tasks: ranged.tasks(),
        doors: ranged.doors(),
        rules: ranged.rules(),
        starts: padded(view.starts, 0, |i| sheet.start_point(i)),
        ends: padded(view.points, 0, |p| sheet.end_cost(p) as u64),
    }
}
