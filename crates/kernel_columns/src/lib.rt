// The distances of a sheet by columns: all those to one point together, as a row of the kernel asks for them. With `kernel_prepare` the only place of the kernel that knows bytes.
#![tactic(auto)]

ghost use Rattle.std.specs.Prelude.{◌≡◌, ◌*◌, ◌≤◌, length};
ghost use Rattle.model.specs.Bytes.{overwrite};
ghost use Rattle.view.specs.Sheets.{sheet_of};
ghost use Rattle.kernel_columns.specs.ByColumns.{columns_of};

use view::TaskSheet;

// Writes the P times P distances, column after column, to the front of what is lent.
#[tactic(auto, using(view::proofs::Counted::points_are))]
pub fn columns(sheet: &TaskSheet, out: &mut [u64])
    requires { (sheet_of sheet.now).points * (sheet_of sheet.now).points ≤ length out.old }
    ensures { out.new ≡ overwrite (columns_of (sheet_of sheet.now)) out.old }
{
    let points = sheet.view.points;
    for q in 0..points {
        let begin = q as usize * points as usize;
        for p in 0..points {
            out[begin + p as usize] = sheet.distance(p, q) as u64;
        }
    }
}
