// A row of the table of costs to go: for each point, the least cost through the doors that were gathered. It knows no list, no sheet and no bytes, and so serves wherever a
// row is wanted; of floats it knows only that numbers stand in them.
#![tactic(auto)]

ghost use Rattle.std.specs.Prelude.{◌≡◌, ℕ, ◌+◌, ◌*◌, ◌^◌, ◌≤◌, ◌<◌, min, length, get_or};
ghost use Rattle.model.specs.Folds.{map_below};
ghost use Rattle.model.specs.SheetLayout.{max_points};
ghost use Rattle.minimum.specs.Floats.{Holds};
ghost use Rattle.kernel_row.specs.Leasts.{no_cost, least_from, Rowable};
ghost use Rattle.kernel_row.specs.Held.{Held, Column};

use kernel_sheet::{MAX_POINTS, Way};

// More than any cost.
const NO_COST: u64 = 1 << 60;

// The least with one door more. The cast tells the compiler that 32 bits are enough for the distance.
fn lowered(least: f64, distance: u64, load: u32, part: u64) -> f64
    requires { (distance < 2 ^ 32) × (distance * load + part < no_cost) × ((n : ℕ) × Holds least n) }
    ensures { (n : ℕ) → Holds least n → Holds result (min n (distance * load + part)) }
{
    minimum::lesser(
        least,
        minimum::float_of(distance as u32 as u64 * load as u64 + part),
    )
}

// Lowers the least of each point by two doors more, with the columns of the points where they arrive. By place: three slices are read at one
// place, and of what is written through an adapter of `iter_mut` a proof knows nothing.
fn lower(
    first: &[u64],
    second: &[u64],
    load: u32,
    first_part: u64,
    second_part: u64,
    leasts: &mut [f64],
)
    requires { Column (length leasts.old) first.now load first_part × Column (length leasts.old) second.now load second_part × ((f : ℕ → ℕ) × Held f (length leasts.old) leasts.old) }
    ensures { (f : ℕ → ℕ) → Held f (length leasts.old) leasts.old → Held (λ p. min (min (f p) (get_or first.now p 0 * load + first_part)) (get_or second.now p 0 * load + second_part)) (length leasts.old) leasts.new }
{
    for p in 0..leasts.len() {
        let least = lowered(leasts[p], first[p], load, first_part);
        leasts[p] = lowered(least, second[p], load, second_part);
    }
}

// Writes the numbers that stand in the floats, by place as `lower` does.
fn settle(leasts: &[f64], out: &mut [u64])
    requires { (length leasts.now ≡ length out.old) × ((f : ℕ → ℕ) × Held f (length out.old) leasts.now) }
    ensures { (f : ℕ → ℕ) → Held f (length out.old) leasts.now → out.new ≡ map_below (length out.old) f }
{
    for p in 0..out.len() {
        out[p] = minimum::number_of(leasts[p]);
    }
}

// Writes the row: from each point the least over the doors that were gathered, two doors after two. The last of an odd number of doors is taken twice, which changes no least.
pub fn row(columns: &[u64], load: u32, ways: &[Way], out: &mut [u64])
    requires { Rowable columns.now (length out.old) load ways.now }
    ensures { out.new ≡ map_below (length out.old) (least_from columns.now load ways.now) }
{
    let points = out.len();
    let mut leasts = [minimum::float_of(NO_COST); MAX_POINTS];
    for pair in ways.chunks(2) {
        let first = pair[0];
        let second = pair[pair.len() - 1];
        lower(
            &columns[first.begin as usize..][..points],
            &columns[second.begin as usize..][..points],
            load,
            first.part,
            second.part,
            &mut leasts[..points],
        );
    }
    settle(&leasts[..points], out);
}

// Writes the row of the empty list: the end costs. By place: `copy_from_slice` calls `memmove`, which no other call of the library does.
pub fn end_row(ends: &[u64; MAX_POINTS], out: &mut [u64])
    requires { length out.old ≤ max_points }
    ensures { out.new ≡ map_below (length out.old) (λ p. get_or ends.now p 0) }
{
    for p in 0..out.len() {
        out[p] = ends[p];
    }
}
