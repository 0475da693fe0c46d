// The two layers of costs to go: a row of P cells for each list of one size, at its rank, the even sizes in one and the odd in the other, size after size.
#![tactic(auto)]

ghost use Rattle.std.specs.Prelude.{◌≡◌, ◌-◌, ◌%◌, ◌≤◌};
ghost use Rattle.model.specs.Sheet.{Sheet};
ghost use Rattle.kernel_sheet.specs.Prepared.{ReceiversOf, Prepared};
ghost use Rattle.kernel_bellman.specs.Rests.{Listed, Arrayed};
ghost use Rattle.kernel_layers.specs.Layers.{with_row, Shows, ShowsRests, Kept, Half, LayerFilled, backs_of, Backable, LayerRests, Roomy};

use kernel_bellman::{Room, Sources};
use kernel_sheet::{MAX_DOORS, Numbers};
use rank::Pascal;

// How far before the end of its row the cell of the rest behind each door stands. In the table it stands in the row of another list, so `kernel_table::backs` shares the loop alone.
fn backs(x: &Numbers) -> [u32; MAX_DOORS]
    requires { Backable x.now.counts.points x.now.counts.doors x.now.doors.depart }
    ensures { result ≡ backs_of x.now.counts.points x.now.counts.doors x.now.doors.depart }
{
    let points = u32::from(x.counts.points);
    let depart = &x.doors.depart;
    let mut back = [0; MAX_DOORS];
    for d in 0..x.counts.doors as usize {
        back[d] = points - u32::from(depart[d]);
    }
    back
}

// Writes the row of the essential list k into its layer, from the one below, which shows the lists with one task less.
fn list_row(
    from: &Sources,
    table: &Pascal,
    k: u32,
    waiting: u32,
    room: &mut Room,
    below: &[u64],
    here: &mut [u64],
)
    requires { (S : Sheet) × Listed S from.now.numbers.now k waiting from.now.columns.now × LayerRests S from.now.slot.now from.now.back.now × Roomy S below.now here.old × ShowsRests S k below.now }
    ensures { (S : Sheet) → Listed S from.now.numbers.now k waiting from.now.columns.now → LayerRests S from.now.slot.now from.now.back.now → ShowsRests S k below.now → here.new ≡ with_row S k here.old }
{
    let points = from.numbers.counts.points;
    let rows = table.rows(k, points);
    let row = &mut here[rows.own..rows.own + points as usize];
    kernel_bellman::list_row(from, k, waiting, &rows.ends, below, room, row);
}

// Writes the rows of the essential lists of m tasks, in the order of their numbers.
fn size_rows(from: &Sources, table: &Pascal, m: u16, below: &[u64], here: &mut [u64])
    requires { (S : Sheet) × Arrayed S from.now.numbers.now from.now.columns.now × ReceiversOf S from.now.numbers.now.tasks.receivers × LayerRests S from.now.slot.now from.now.back.now × Roomy S below.now here.old × (1 ≤ m) × (m ≤ S.tasks) × Shows S (m - 1) below.now }
    ensures { (S : Sheet) → Arrayed S from.now.numbers.now from.now.columns.now → ReceiversOf S from.now.numbers.now.tasks.receivers → LayerRests S from.now.slot.now from.now.back.now → Shows S (m - 1) below.now → Shows S m here.new × Kept S (m % 2) here.old here.new }
{
    let numbers = from.numbers;
    let lists = tasklist::lists(numbers.counts.tasks);
    let mut room = Room::new();
    let mut k = tasklist::full(m);
    // From each list to the next of its size, so no index is counted. The library's `successors` is endless by its contract, and a `for` over it would not be known to end.
    while k < lists {
        let waiting = kernel_list::waiting(&numbers.tasks.receivers, k);
        if kernel_list::has_all(k, waiting) {
            list_row(from, table, k, waiting, &mut room, below, here);
        }
        k = rank::next(k);
    }
}

// Writes the rows of every essential list, size after size, from the end costs. A layer is overwritten only when the one above has been filled from it.
// The layer goes by the parity of the size, and the two are lent under two names: the form that the scope fixes.
fn sizes_rows(from: &Sources, even: &mut [u64], odd: &mut [u64])
    requires { (S : Sheet) × Arrayed S from.now.numbers.now from.now.columns.now × ReceiversOf S from.now.numbers.now.tasks.receivers × LayerRests S from.now.slot.now from.now.back.now × Roomy S even.old odd.old × Shows S 0 even.old }
    ensures { (S : Sheet) → Arrayed S from.now.numbers.now from.now.columns.now → ReceiversOf S from.now.numbers.now.tasks.receivers → LayerRests S from.now.slot.now from.now.back.now → Shows S 0 even.old → Half S 0 S.tasks even.old even.new × Half S 1 S.tasks odd.old odd.new }
{
    let table = Pascal::new();
    for m in 1..=from.numbers.counts.tasks {
        if m % 2 == 0 {
            size_rows(from, &table, m, odd, even);
        } else {
            size_rows(from, &table, m, even, odd);
        }
    }
}

// Fills the layers: the end costs, then size after size the rows of its lists.
pub fn fill(x: &Numbers, columns: &[u64], even: &mut [u64], odd: &mut [u64])
    requires { (S : Sheet) × Prepared S x.now columns.now × Roomy S even.old odd.old }
    ensures { (S : Sheet) → Prepared S x.now columns.now → LayerFilled S 0 even.old even.new × LayerFilled S 1 odd.old odd.new }
{
    let points = x.counts.points as usize;
    kernel_row::end_row(&x.ends, &mut even[..points]);
    let back = backs(x);
    let from = Sources {
        numbers: x,
        columns,
        slot: &x.doors.task,
        back: &back,
    };
    sizes_rows(&from, even, odd);
}
