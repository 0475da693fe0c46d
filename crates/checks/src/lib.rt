// The checks of 31 to 33, on the doors of a plan and their tasks, each against the counts in the view.
#![tactic(auto)]

ghost use Rattle.std.specs.Prelude.{◌≡◌, true, map, ◌≤◌, ◌<◌, ltb, length, replicate};
ghost use Rattle.model.specs.Folds.{map_below, all_in, index_of};
ghost use Rattle.model.specs.Bytes.{overwrite};
ghost use Rattle.model.specs.Method.{mask_bits};
ghost use Rattle.model.specs.Passing.{InRange};
ghost use Rattle.model.specs.Plans.{in_sheet};
ghost use Rattle.model.specs.SheetLayout.{max_tasks, decode};
ghost use Rattle.model.specs.PlanLayout.{max_plan_doors};
ghost use Rattle.model.specs.Validating.{not_in_sheet, done_twice, breaks_pair};
ghost use Rattle.view.specs.Sheets.{sheet_of};

use layout::MAX_DOORS;
use view::{MAX_TASKS, TaskSheet};

// 31: whether the start or a door is not in the sheet.
pub fn not_in_sheet(sheet: &TaskSheet, start: u16, doors: &[u16]) -> bool
    ensures { result ≡ not_in_sheet (sheet_of sheet.now) start doors.now }
{
    let limit = sheet.view.doors;
    sheet.view.starts <= start || doors.iter().any(|&d| limit <= d)
}

// The task of each of the doors, at the front of an array that holds 0 behind them.
pub fn tasks_of(sheet: &TaskSheet, doors: &[u16]) -> [u16; MAX_DOORS]
    requires { (in_sheet (sheet_of sheet.now) doors.now ≡ true) × (length doors.now ≤ max_plan_doors) }
    ensures { result ≡ overwrite (map (sheet_of sheet.now).task doors.now) (replicate max_plan_doors 0) }
{
    let mut tasks = [0u16; MAX_DOORS];
    for (i, &d) in doors.iter().enumerate() {
        tasks[i] = sheet.task(d);
    }
    tasks
}

// 32: whether a task of the sheet is done twice. The tasks are the sheet's, and those done so far a list. It is lent the bytes alone, as it asks nothing of a layout.
pub fn done_twice(s: &[u8], tasks: &[u16]) -> bool
    requires { (all_in (λ t. ltb t (decode s.now).tasks) tasks.now ≡ true) × ((decode s.now).tasks ≤ mask_bits) }
    ensures { result ≡ done_twice (decode s.now) tasks.now }
{
    let mut done = 0;
    for &t in tasks {
        if tasklist::contains(done, t) {
            return true;
        }
        done = tasklist::with(done, t);
    }
    false
}

// Where each task is first done, and how many are done for a task that is not. From the last to the first, so that the first stays.
fn places(tasks: &[u16]) -> [usize; MAX_TASKS]
    requires { all_in (λ t. ltb t max_tasks) tasks.now ≡ true }
    ensures { result ≡ map_below max_tasks (λ t. index_of t tasks.now) }
{
    let mut at = [tasks.len(); MAX_TASKS];
    for i in (0..tasks.len()).rev() {
        at[tasks[i] as usize] = i;
    }
    at
}

// 33: whether a receiver is not done behind its sender.
pub fn breaks_pair(sheet: &TaskSheet, tasks: &[u16]) -> bool
    requires { InRange (sheet_of sheet.now) × ((sheet_of sheet.now).tasks ≤ max_tasks) × (all_in (λ t. ltb t max_tasks) tasks.now ≡ true) }
    ensures { result ≡ breaks_pair (sheet_of sheet.now) tasks.now }
{
    let at = places(tasks);
    for i in 0..sheet.view.pairs {
        let sent = at[sheet.sender(i) as usize];
        let received = at[sheet.receiver(i) as usize];
        if received <= sent {
            return true;
        }
    }
    false
}
