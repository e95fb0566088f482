// A circuit's sums, added up from the tables: W, the total of its limits, and c, its kind-3 crossings less its kind-2 crossings.
// This crate knows a circuit's four numbers an arc and what each adds; it knows no cycle time.
// It renders document 01's weights and crossings of "Arcs", and W and c of "Circuits".
#![tactic(auto)]

ghost use Rattle.std.specs.Prelude.{◌≡◌, ◌/◌, ◌≤◌, ◌<◌};
ghost use Rattle.tables.specs.Lent.{lent};
ghost use Rattle.edges.specs.Naming.{NamesPlace};
ghost use Rattle.weights.specs.Weights.{weight, kind_weight, weight_of, plus, weights_in, Light, Lists};

use edges::Four;
use limits::Weight;
use tables::sheets::Sheet;

// 1 where what follows a position lies in the next period, else 0.
fn crossing(positions: usize, position: u8) -> u64
    requires { (0 < positions) × (position ≤ positions) }
    ensures { (result ≡ position / positions) × (result ≤ 1) }
{
    u64::from(usize::from(position) == positions)
}

// Four sums as one value.
fn sums(ups: u64, downs: u64, forths: u64, backs: u64) -> Weight
    ensures { result ≡ weight ups downs forths backs }
{
    Weight {
        ups,
        downs,
        forths,
        backs,
    }
}

// What an arc of a kind adds, from the parts of its limit: the kind decides the direction, and so which part counts up, and whether crossing
// the period's end gains or loses the cycle time. The decision is on the kind's number, with a range for those that are no kind: document 01 names this form.
fn by_kind(kind: u8, up: u64, down: u64, crosses: u64) -> Weight
    ensures { result ≡ kind_weight kind up down crosses }
{
    match kind {
        0 => sums(up, down, 0, 0),
        1 => sums(down, up, 0, 0),
        2 => sums(up, down, 0, crosses),
        3 => sums(down, up, crosses, 0),
        4..=255 => sums(0, 0, 0, 0),
    }
}

// What one arc adds to a circuit's sums.
fn weigh_arc(sheet: &Sheet, arc: Four) -> Weight
    requires { NamesPlace (lent sheet.now) arc.kind arc.position arc.to arc.from }
    ensures sums { result ≡ weight_of (lent sheet.now) arc.kind arc.position arc.to arc.from }
    ensures light { Light 1 result }
{
    let value = edges::limit(sheet, arc);
    let up = edges::upper(value);
    let down = edges::lower(value);
    let crosses = crossing(sheet.positions, arc.position);
    by_kind(arc.kind, up, down, crosses)
}

// The sums of two lists of arcs together.
fn add(a: Weight, b: Weight) -> Weight
    requires { Light 192 a × Light 1 b }
    ensures { result ≡ plus a b }
{
    sums(
        a.ups + b.ups,
        a.downs + b.downs,
        a.forths + b.forths,
        a.backs + b.backs,
    )
}

// The sums of the first arcs of a circuit. The buffer has room for the longest, so how many of its arcs are meant is said beside it.
pub fn weigh(sheet: &Sheet, circuit: &[u8], count: usize) -> Weight
    requires { Lists (lent sheet.now) circuit.now count }
    ensures sums { result ≡ weights_in (lent sheet.now) circuit.now count }
    ensures light { Light 192 result }
{
    let mut total = sums(0, 0, 0, 0);
    for k in 0..count {
        let arc = edges::four_at(circuit, k);
        total = add(total, weigh_arc(sheet, arc));
    }
    total
}
