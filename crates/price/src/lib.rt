// Pricing: the least cost of a round and its first start, without the plan, in two lent layers of cells.
#![tactic(auto)]

ghost use Rattle.std.specs.Prelude.{◌≡◌, cond, ◌%◌, ◌≤◌, eqb, length, take, IfOk};
ghost use Rattle.std.proofs.Math.Option.{some};
ghost use Rattle.model.specs.Answer.{status, accepted};
ghost use Rattle.model.specs.Sheet.{Sheet};
ghost use Rattle.refusal.specs.Answers.{answer_by};
ghost use Rattle.view.specs.Views.{view_of};
ghost use Rattle.kernel_start.specs.Choosing.{start_cost, first_start, Startable};
ghost use Rattle.price.specs.Pricing.{price, LayersAfter, price_row, row_place};
ghost use Rattle.price.specs.Answers.{quote_of, place_in};

use kernel_sheet::MAX_DISTANCES;
use refusal::Refusal;
use sheet::ReadSheet;

// One word more than the distances take: the columns then begin at a multiple of 16 bytes, as vectors of two cells like it.
const COLUMNS: usize = MAX_DISTANCES + 1;

// The least cost, and the first start that has it.
#[derive(Clone, Copy)]
pub struct Quote {
    pub cost: u64,
    pub start: u16,
}

// Tests whether the sheet s can be priced in two layers of so many cells: the sheet that reads, or its own refusal, or 22.
#[tactic(auto, using(crate::proofs::Fits::sheet_refused), unfolding(crate::specs::Pricing::row_place))]
pub fn fit<'a>(s: &'a [u8], even: usize, odd: usize) -> Result<ReadSheet<'a>, Refusal>
    ensures place { answer_by (λ (x : _). place_in x.sheet.view) result ≡ row_place s.now even odd }
    ensures bytes { IfOk result (λ x. x.sheet.bytes.now ≡ s.now) }
    ensures view { IfOk result (λ x. x.sheet.view ≡ view_of s.now) }
{
    let read = sheet::read(s)?;
    let view = read.sheet.view;
    let needed = rank::most_lists(view.tasks) as usize * view.points as usize;
    if (even < needed) | (odd < needed) {
        return Err(Refusal::ShortLayer);
    }
    Ok(read)
}

// Prices the sheet s in two layers: lists of even size in one, of odd size in the other. Answers cost and start, or the sheet's own refusal, or 22.
// A refusal leaves both layers as they are.
pub fn price(s: &[u8], even: &mut [u64], odd: &mut [u64]) -> Result<Quote, Refusal>
    ensures answer { answer_by quote_of result ≡ price s.now (length even.old) (length odd.old) }
    ensures layers { LayersAfter s.now even.old odd.old even.new odd.new }
{
    let read = fit(s, even.len(), odd.len())?;
    Ok(price_sheet(&read, even, odd))
}

// The same for a sheet that can be priced in these layers.
fn price_sheet(read: &ReadSheet, even: &mut [u64], odd: &mut [u64]) -> Quote
    requires { status (row_place read.now.sheet.bytes.now (length even.old) (length odd.old)) ≡ 0 }
    ensures answer { accepted (quote_of result) ≡ price read.now.sheet.bytes.now (length even.old) (length odd.old) }
    ensures layers { LayersAfter read.now.sheet.bytes.now even.old odd.old even.new odd.new }
{
    let sheet = &read.sheet;
    let view = sheet.view;
    let numbers = kernel_prepare::numbers(sheet);
    let mut columns = [0; COLUMNS];
    kernel_columns::columns(sheet, &mut columns);
    kernel_layers::fill(&numbers, &columns, even, odd);
    let row = whole(view.tasks, view.points, even, odd);
    quote_by(&numbers.starts[..view.starts as usize], row)
}

// The quote by the row of the full list: the first start of least cost, and the cost from there.
fn quote_by(starts: &[u16], row: &[u64]) -> Quote
    requires { (S : Sheet) × Startable S starts.now row.now }
    ensures { (S : Sheet) → Startable S starts.now row.now → (some result.start ≡ first_start S row.now) × (result.cost ≡ start_cost S row.now result.start) }
{
    let start = kernel_start::first_start(starts, row);
    let p = starts[start as usize] as usize;
    Quote {
        cost: row[p],
        start,
    }
}

// The first cells of the layer of n's parity: the form that the scope fixes, two layers with one lifetime, and the part of the one or the other by N.
fn whole<'a>(n: u16, points: u16, even: &'a [u64], odd: &'a [u64]) -> &'a [u64]
    requires { (points ≤ length even.now) × (points ≤ length odd.now) }
    ensures { result.now ≡ take points (cond (eqb (n % 2) 0) even.now odd.now) }
{
    let cells = points as usize;
    if n % 2 == 0 {
        &even[..cells]
    } else {
        &odd[..cells]
    }
}

// The row of the full list, in two layers as lent for pricing; the empty part where pricing with them refuses.
pub fn row<'a>(s: &[u8], even: &'a [u64], odd: &'a [u64]) -> &'a [u64]
    ensures { result.now ≡ price_row s.now even.now odd.now }
{
    match fit(s, even.len(), odd.len()) {
        Ok(read) => whole(read.sheet.view.tasks, read.sheet.view.points, even, odd),
        Err(_) => &even[..0],
    }
}
