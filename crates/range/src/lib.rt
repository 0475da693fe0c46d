// Fault 14: tasks, points, doors, least counts and watched tasks within their ranges.
#![tactic(auto)]

ghost use Rattle.std.specs.Prelude.{◌≡◌, ◌<◌};
ghost use Rattle.model.specs.SheetLayout.{layout_of};
ghost use Rattle.model.specs.Faults.{bad_door, bad_start, bad_pair, some_bad_rule, out_of_range};
ghost use Rattle.view.specs.Sheets.{sheet_of};
ghost use Rattle.range.specs.Rules.{bad_door_or_count};

use view::TaskSheet;

const MAX_LEAST_COUNT: u16 = 12;

// How many tasks a rule can watch: the bits of its watched tasks.
const WATCHED_BITS: u16 = 16;

fn bad_door(sheet: &TaskSheet, d: u16) -> bool
    requires { d < (sheet_of sheet.now).doors }
    ensures { result ≡ bad_door (sheet_of sheet.now) d }
{
    let tasks = sheet.view.tasks;
    let points = sheet.view.points;
    tasks <= sheet.task(d) || points <= sheet.arrive(d) || points <= sheet.depart(d)
}

fn bad_start(sheet: &TaskSheet, i: u16) -> bool
    requires { i < (sheet_of sheet.now).starts }
    ensures { result ≡ bad_start (sheet_of sheet.now) i }
{
    sheet.view.points <= sheet.start_point(i)
}

fn bad_pair(sheet: &TaskSheet, i: u16) -> bool
    requires { i < (sheet_of sheet.now).pairs }
    ensures { result ≡ bad_pair (sheet_of sheet.now) i }
{
    let tasks = sheet.view.tasks;
    tasks <= sheet.sender(i) || tasks <= sheet.receiver(i)
}

// Door and least count of a rule. What it watches is tested with what the other rules watch, in `some_bad_rule`.
fn bad_door_or_count(sheet: &TaskSheet, i: u16) -> bool
    requires { i < (sheet_of sheet.now).rules }
    ensures { result ≡ bad_door_or_count (layout_of sheet.now.bytes.now) (sheet_of sheet.now) i }
{
    sheet.view.doors <= sheet.rule_door(i) || !(1..=MAX_LEAST_COUNT).contains(&sheet.least_count(i))
}

// Watched tasks are joined over all rules, and held against the number of lists of as many tasks as can be watched, which a mask has room for.
fn some_bad_rule(sheet: &TaskSheet) -> bool
    ensures { result ≡ some_bad_rule (layout_of sheet.now.bytes.now) (sheet_of sheet.now) }
{
    let mut watched = 0;
    for i in 0..sheet.view.rules {
        if bad_door_or_count(sheet, i) {
            return true;
        }
        watched |= sheet.watched(i);
    }
    tasklist::lists(sheet.view.tasks.min(WATCHED_BITS)) <= watched as u32
}

pub fn out_of_range(sheet: &TaskSheet) -> bool
    ensures { result ≡ out_of_range (layout_of sheet.now.bytes.now) (sheet_of sheet.now) }
{
    (0..sheet.view.doors).any(|d| bad_door(sheet, d))
        || (0..sheet.view.starts).any(|i| bad_start(sheet, i))
        || (0..sheet.view.pairs).any(|i| bad_pair(sheet, i))
        || some_bad_rule(sheet)
}
