// Reading a task sheet, which answers with a sheet that reads, and its view, or with a fault.
#![tactic(auto)]

ghost use Rattle.std.specs.Prelude.{◌≡◌, true, IfOk};
ghost use Rattle.std.proofs.Math.Pow.{are_bytes};
ghost use Rattle.model.specs.Answer.{status};
ghost use Rattle.model.specs.Faults.{read_sheet};
ghost use Rattle.refusal.specs.Answers.{answer_by};
ghost use Rattle.view.specs.Views.{view_of};
ghost use Rattle.sheet.specs.Layouts.{LaidOut};
ghost use Rattle.sheet.specs.Answers.{counts_in};

use refusal::Refusal;
use view::{TaskSheet, View};

mod layout;

// A task sheet that reads: none of 10 to 17 applies. That its bytes are bytes is said too, since of a slice in a struct a proof does not know it.
#[derive(Clone, Copy)]
pub struct ReadSheet<'a> {
    pub sheet: TaskSheet<'a>,
    pub ghost fit: { are_bytes sheet.bytes.now ≡ true },
    pub ghost reads: { status (read_sheet sheet.bytes.now) ≡ 0 },
}

// Reads a sheet, or answers one of 10 to 17: the first fault that applies.
pub fn read<'a>(s: &'a [u8]) -> Result<ReadSheet<'a>, Refusal>
    ensures answer { answer_by (λ (x : _). counts_in x.sheet.view) result ≡ read_sheet s.now }
    ensures bytes { IfOk result (λ x. x.sheet.bytes.now ≡ s.now) }
    ensures view { IfOk result (λ x. x.sheet.view ≡ view_of s.now) }
{
    if layout::too_short(s) {
        return Err(Refusal::TooShort);
    }
    if layout::wrong_kind(s) {
        return Err(Refusal::WrongKind);
    }
    if layout::some_wrong_entries(s) {
        return Err(Refusal::WrongEntries);
    }
    if layout::wrong_places(s) {
        return Err(Refusal::WrongPlaces);
    }
    let view = View::of(s);
    let sheet = TaskSheet { bytes: s, view };
    test_bodies(&sheet)?;
    Ok(ReadSheet { sheet })
}

// The faults of a sheet that 10 to 13 do not refuse: nothing where it reads, or one of 14 to 17.
fn test_bodies(sheet: &TaskSheet) -> Result<(), Refusal>
    requires { LaidOut sheet.now.bytes.now }
    ensures { answer_by (λ _. counts_in sheet.now.view) result ≡ read_sheet sheet.now.bytes.now }
{
    if range::out_of_range(sheet) {
        return Err(Refusal::OutOfRange);
    }
    let lacking = feasible::some_lacks_door(sheet);
    let left = feasible::something_left(sheet);
    let light = essential::too_light(sheet);
    if lacking {
        return Err(Refusal::NoDoor);
    }
    if left {
        return Err(Refusal::NoOrder);
    }
    if light {
        return Err(Refusal::TooLight);
    }
    Ok(())
}
