// What an access rule costs at its door, in kilogram decametres.
#![tactic(auto)]

ghost use Rattle.std.specs.Prelude.{◌≡◌, ◌^◌, ◌<◌};
ghost use Rattle.model.specs.Cost.{rule_charge};
ghost use Rattle.view.specs.Sheets.{sheet_of};

use view::TaskSheet;

// What access rule i costs at its door while list k, a list of the sheet's tasks, is open: with no branch that hangs on the rule.
pub fn rule_charge(sheet: &TaskSheet, k: u32, i: u16) -> u64
    requires { (k < 2 ^ (sheet_of sheet.now).tasks) × (i < (sheet_of sheet.now).rules) }
    ensures { result ≡ rule_charge (sheet_of sheet.now) k i }
{
    let watched = sheet.watched(i) as u32;
    let applies = sheet.least_count(i) as u32 <= tasklist::watched_in(watched, k);
    sheet.charge(i) as u64 * applies as u64
}
