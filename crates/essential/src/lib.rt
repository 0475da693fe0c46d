// Fault 16: whether some essential list has a load below zero.
#![tactic(auto)]

ghost use Rattle.std.specs.Prelude.{◌≡◌, ◌≤◌, ◌<◌, length};
ghost use Rattle.model.specs.SheetLayout.{max_tasks};
ghost use Rattle.model.specs.Method.{mask_bits};
ghost use Rattle.model.specs.Faults.{too_light};
ghost use Rattle.model.specs.Passing.{InRange};
ghost use Rattle.model.specs.Lightest.{lightest_too_light};
ghost use Rattle.view.specs.Sheets.{sheet_of};
ghost use Rattle.essential.specs.Method.{Steps, closed_by};

use view::{MAX_TASKS, TaskSheet};

// Whether the end load and all negative changes, the load of the lightest list of all, add up to less than zero. 32 bits hold the sum of as many
// changes as a mask has bits.
#[tactic(auto, using(view::proofs::Counted::tasks_are))]
fn lightest_too_light(sheet: &TaskSheet) -> bool
    requires { (sheet_of sheet.now).tasks ≤ mask_bits }
    ensures { result ≡ lightest_too_light (sheet_of sheet.now) }
{
    let mut lightest = sheet.end_load() as i32;
    for t in 0..sheet.view.tasks {
        let change = sheet.change(t);
        if change < 0 {
            lightest += change as i32;
        }
    }
    lightest < 0
}

// By how much the load grows from one list to the next, by the lowest task of the next: that task joins, and all tasks below it, which the list before has, leave.
#[tactic(auto, using(view::proofs::Counted::tasks_are))]
fn steps(sheet: &TaskSheet) -> [i32; MAX_TASKS]
    requires { (sheet_of sheet.now).tasks ≤ max_tasks }
    ensures { Steps (sheet_of sheet.now) result }
{
    let mut steps = [0i32; MAX_TASKS];
    let mut below: i32 = 0;
    for t in 0..sheet.view.tasks {
        let change = sheet.change(t) as i32;
        steps[t as usize] = change - below;
        below += change;
    }
    steps
}

// Whether no task that list k lacks has a sender in k, with the senders of each task at hand.
// A loop, and no `all` over the places: tried, and the proof did not close.
fn closed(senders: &[u32], k: u32) -> bool
    requires { length senders.now ≤ max_tasks }
    ensures { result ≡ closed_by senders.now (length senders.now) k }
{
    for (t, senders) in senders.iter().enumerate() {
        if !tasklist::contains(k, t as u16) & tasklist::meets(*senders, k) {
            return false;
        }
    }
    true
}

// Whether some essential list has a load below zero: the lists one by one, of each the load first, then whether it is essential. What it asks of
// the sheet stays a clause: a type that has it would ask as much of callers of the others.
#[tactic(auto, using(view::proofs::Counted::tasks_are))]
fn some_light_list(sheet: &TaskSheet) -> bool
    requires { ((sheet_of sheet.now).tasks ≤ max_tasks) × InRange (sheet_of sheet.now) }
    ensures { result ≡ too_light (sheet_of sheet.now) }
{
    let tasks = sheet.view.tasks;
    let lists = tasklist::lists(tasks);
    let senders = feasible::senders(sheet);
    let senders = &senders[..tasks as usize];
    let steps = steps(sheet);
    let mut load = sheet.end_load() as i32;
    for k in 1..lists {
        // The signed load of list k, of any sign.
        load += steps[k.trailing_zeros() as usize];
        if load < 0 && closed(senders, k) {
            return true;
        }
    }
    false
}

// Fault 16: whether some essential list has a load below zero. The lightest list of all is the quick test: where its load is not below zero no
// list's is, and only where it is are the lists looked at.
pub fn too_light(sheet: &TaskSheet) -> bool
    requires { ((sheet_of sheet.now).tasks ≤ max_tasks) × InRange (sheet_of sheet.now) }
    ensures { result ≡ too_light (sheet_of sheet.now) }
{
    lightest_too_light(sheet) && some_light_list(sheet)
}
