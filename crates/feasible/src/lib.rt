// Whether a sheet can be served at all: faults 15 and 17, over the view of a sheet that 10 to 14 do not refuse.
#![tactic(auto)]

ghost use Rattle.std.specs.Prelude.{◌≡◌, ℕ, ◌≤◌, ◌<◌, length};
ghost use Rattle.model.specs.Folds.{map_below};
ghost use Rattle.model.specs.SheetLayout.{max_tasks};
ghost use Rattle.model.specs.Method.{mask_bits, senders_of, something_left};
ghost use Rattle.model.specs.Faults.{some_lacks_door};
ghost use Rattle.model.specs.Passing.{InRange};
ghost use Rattle.view.specs.Sheets.{sheet_of};
ghost use Rattle.feasible.specs.Method.{strike_by, pass_by};

use view::{MAX_TASKS, TaskSheet};

// Fault 15: a task without a door. Each door is looked at once: the tasks of those passed are kept, and the inner loop goes on where it stood.
// An outer loop over tasks, an inner one over doors, a label that leaves both: the form that the scope fixes.
#[tactic(auto, using(view::proofs::Counted::tasks_are, view::proofs::Counted::doors_are))]
pub fn some_lacks_door(sheet: &TaskSheet) -> bool
    requires { (sheet_of sheet.now).tasks ≤ mask_bits }
    ensures { result ≡ some_lacks_door (sheet_of sheet.now) }
{
    let mut doors = 0..sheet.view.doors;
    let mut seen: u32 = 0;
    'search: {
        for t in 0..sheet.view.tasks {
            while !tasklist::contains(seen, t) {
                let Some(d) = doors.next() else {
                    break 'search true;
                };
                seen = tasklist::with(seen, sheet.task(d));
            }
        }
        false
    }
}

// What each task waits for: the senders in the pairs whose receiver it is.
#[tactic(auto, using(view::proofs::Counted::pairs_are))]
pub fn senders(sheet: &TaskSheet) -> [u32; MAX_TASKS]
    requires { (i : ℕ) → i < (sheet_of sheet.now).pairs → (sheet_of sheet.now).receiver i < max_tasks }
    ensures { result ≡ map_below max_tasks (senders_of (sheet_of sheet.now)) }
{
    let mut senders = [0u32; MAX_TASKS];
    for i in 0..sheet.view.pairs {
        let to = sheet.receiver(i) as usize;
        senders[to] = tasklist::with(senders[to], sheet.sender(i));
    }
    senders
}

// List k, with task t struck off if none of those it waits for is in k.
#[tactic(auto, unfolding(crate::specs::Method::strike_by))]
fn strike(senders: u32, k: u32, t: u16) -> u32
    ensures { result ≡ strike_by senders k t }
{
    if tasklist::meets(senders, k) {
        k
    } else {
        tasklist::without(k, t)
    }
}

// What one pass over the tasks leaves of list k, with the senders of each task at hand. An empty list stays empty.
// A loop, and no `fold`, which would go on over an empty list.
fn strike_pass(senders: &[u32], k: u32) -> u32
    requires { length senders.now ≤ max_tasks }
    ensures { result ≡ pass_by senders.now (length senders.now) k }
{
    let mut left = k;
    for (t, senders) in senders.iter().enumerate() {
        left = strike(*senders, left, t as u16);
        if left == 0 {
            return 0;
        }
    }
    left
}

// Fault 17, decided by striking off, again and again, each task that can come first in what is left: whether as many passes as there are
// tasks leave something of the full list. What it asks of the sheet stays a clause: a type that has it would ask as much of callers of the others.
#[tactic(auto, using(view::proofs::Counted::tasks_are))]
pub fn something_left(sheet: &TaskSheet) -> bool
    requires { ((sheet_of sheet.now).tasks ≤ max_tasks) × InRange (sheet_of sheet.now) }
    ensures { result ≡ something_left (sheet_of sheet.now) }
{
    let tasks = sheet.view.tasks;
    let senders = senders(sheet);
    let senders = &senders[..tasks as usize];
    let mut left = tasklist::full(tasks);
    for _pass in 0..tasks {
        if left == 0 {
            return false;
        }
        left = strike_pass(senders, left);
    }
    left != 0
}
