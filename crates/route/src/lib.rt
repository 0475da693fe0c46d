// What a route costs, in kilogram decametres: its legs and its charges, each in one pass.
// Sheet, point, doors and tasks are no struct: a function takes those that it reads and asks of them alone, and only two take all, with `Costable`.
#![tactic(auto)]

ghost use Rattle.std.specs.Prelude.{◌≡◌, true, ◌≤◌, length};
ghost use Rattle.model.specs.Folds.{map_below};
ghost use Rattle.model.specs.SheetLayout.{max_doors};
ghost use Rattle.model.specs.Cost.{cost};
ghost use Rattle.model.specs.Method.{legs};
ghost use Rattle.model.specs.Plans.{in_sheet};
ghost use Rattle.view.specs.Sheets.{sheet_of};
ghost use Rattle.route.specs.Routes.{point_before, open_by, charges_with, Listable, ChargeableWith, Costable};

use view::{MAX_DOORS, TaskSheet};

// For each door the list that is open where a route does it, from the last door to the first, so that the list grows by one task at a time.
fn open_lists(doors: &[u16], tasks: &[u16]) -> [u32; MAX_DOORS]
    requires { Listable doors.now tasks.now }
    ensures { result ≡ map_below max_doors (open_by doors.now tasks.now) }
{
    let mut lists = [0u32; MAX_DOORS];
    let mut later = 0;
    for i in (0..doors.len()).rev() {
        later = tasklist::with(later, tasks[i]);
        lists[doors[i] as usize] = later;
    }
    lists
}

// What the access rules cost, each with the list that is open at its door, in one pass over them.
fn charges(sheet: &TaskSheet, lists: &[u32]) -> u64
    requires { ChargeableWith (sheet_of sheet.now) lists.now }
    ensures { result ≡ charges_with (sheet_of sheet.now) lists.now }
{
    let mut sum = 0;
    for i in 0..sheet.view.rules {
        let d = sheet.rule_door(i) as usize;
        sum += cost::rule_charge(sheet, lists[d], i);
    }
    sum
}

// Where the van stands before step i of a route from point p.
fn point_before(sheet: &TaskSheet, p: u16, doors: &[u16], i: usize) -> u16
    requires { (in_sheet (sheet_of sheet.now) doors.now ≡ true) × (i ≤ length doors.now) }
    ensures { result ≡ point_before (sheet_of sheet.now) p doors.now i }
{
    if i == 0 {
        p
    } else {
        sheet.depart(doors[i - 1])
    }
}

// A route but for its charges, from its last step to its first, so that the load grows by one change at a time.
fn legs(sheet: &TaskSheet, p: u16, doors: &[u16], tasks: &[u16]) -> u64
    requires { Costable (sheet_of sheet.now) p doors.now tasks.now }
    ensures { result ≡ legs (sheet_of sheet.now) p doors.now }
{
    let last = point_before(sheet, p, doors, doors.len());
    let mut sum = sheet.end_cost(last) as u64;
    let mut load = sheet.end_load() as i64;
    for i in (0..doors.len()).rev() {
        let d = doors[i];
        let from = point_before(sheet, p, doors, i);
        load += sheet.change(tasks[i]) as i64;
        sum += sheet.distance(from, sheet.arrive(d)) as u64 * load as u64 + sheet.work(d) as u64;
    }
    sum
}

// A route from point p through the doors, for the tasks, to the end: no list is summed again, and each access rule is looked at once.
pub fn cost(sheet: &TaskSheet, p: u16, doors: &[u16], tasks: &[u16]) -> u64
    requires { Costable (sheet_of sheet.now) p doors.now tasks.now }
    ensures { result ≡ cost (sheet_of sheet.now) p doors.now }
{
    let lists = open_lists(doors, tasks);
    legs(sheet, p, doors, tasks) + charges(sheet, &lists)
}
