// The choice of the start, by the row of the full list: what the whole round costs from each point.
#![tactic(auto)]

ghost use Rattle.std.specs.Prelude.{◌≡◌};
ghost use Rattle.std.proofs.Math.Option.{some};
ghost use Rattle.model.specs.Sheet.{Sheet};
ghost use Rattle.kernel_start.specs.Choosing.{first_start, Startable};

// The first of the starts from which the whole round costs least. By `for`, since of `min_by_key` a None would be left that no sheet gives.
pub fn first_start(starts: &[u16], row: &[u64]) -> u16
    requires { (S : Sheet) × Startable S starts.now row.now }
    ensures { (S : Sheet) → Startable S starts.now row.now → some result ≡ first_start S row.now }
{
    let mut best = 0;
    let mut least = row[starts[0] as usize];
    for i in 1..starts.len() {
        let c = row[starts[i] as usize];
        if c < least {
            best = i;
            least = c;
        }
    }
    best as u16
}
