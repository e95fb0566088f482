// The circuit that shows there is no plan: back along the row of marks until a node is met again, and once round from there, written.
// This crate knows marks and the arcs that they name; it knows no time, and runs no round.
// It renders document 01's "Circuits".
#![tactic(auto)]

ghost use Rattle.std.specs.Prelude.{◌≡◌, ℕ, ◌+◌, ◌*◌, ◌/◌, ◌≤◌, ◌<◌, length};
ghost use Rattle.std.proofs.lemmas.List.Edits.{sets};
ghost use Rattle.theory.specs.Backs.{Returns};
ghost use Rattle.circuits.specs.Ways.{before, Led, Sound, Unseen, Met, Rounded, places_of, quad, written, Traced};

// The nodes of a line, n events at each of its positions, and the row that has the mark of the arc which raised each of them last.
#[derive(Clone, Copy)]
pub struct Marks<'a> {
    pub n: usize,
    pub positions: usize,
    pub row: &'a [u16],
}

// The node that the marked arc leaves.
fn departure(mark: u16) -> usize
    ensures { result ≡ mark / 8 }
{
    usize::from(mark / turns::KINDS)
}

// Goes back from the node v by the arc that each node's mark names, and gives the first node that is met again. No `for`: nothing counts, the way
// ends where it meets itself.
fn meet(marks: &Marks, v: usize, seen: &mut [bool]) -> usize
    requires { Led marks.now.row.now marks.now.n marks.now.positions v × Unseen marks.now.n marks.now.positions seen.old }
    ensures { Met marks.now.row.now marks.now.n marks.now.positions v result }
{
    let mut u = v;
    while !seen[u] {
        seen[u] = true;
        u = departure(marks.row[u]);
    }
    u
}

// A circuit: its smallest node, and the count of its arcs.
#[derive(Clone, Copy)]
struct Ring {
    least: usize,
    count: usize,
}

// Goes round from the node u until it is back. No `for`: how many steps that takes is what is sought.
fn go_round(marks: &Marks, u: usize) -> Ring
    requires { Sound marks.now.row.now marks.now.n marks.now.positions u × ((k : ℕ) × (k ≤ marks.now.positions * marks.now.n) × Returns (before marks.now.row.now) u k) }
    ensures { Rounded (before marks.now.row.now) u result.least result.count }
{
    let mut least = u;
    let mut count: usize = 1;
    let mut x = departure(marks.row[u]);
    while x != u {
        least = least.min(x);
        count += 1;
        x = departure(marks.row[x]);
    }
    Ring { least, count }
}

// The nodes that tell an arc's window: where its position, its "to" and its "from" stand.
#[derive(Clone, Copy)]
struct Places {
    here: usize,
    to: usize,
    from: usize,
}

// Those of an arc of a kind from the node u to the node v. A lower limit's arc runs from "from" to "to", an upper limit's back; kind 2 arrives
// at the position after its own. The decision is on the kind's number, with a range for those that are no kind: document 01 names this form.
fn places_of(kind: u16, u: usize, v: usize) -> Places
    ensures { result ≡ places_of kind u v }
{
    match kind {
        0 => Places {
            here: v,
            to: v,
            from: u,
        },
        1 => Places {
            here: v,
            to: u,
            from: v,
        },
        2 => Places {
            here: u,
            to: v,
            from: u,
        },
        3 => Places {
            here: v,
            to: u,
            from: v,
        },
        4..=65535 => Places {
            here: 0,
            to: 0,
            from: 0,
        },
    }
}

// Writes the four numbers of the marked arc that arrives at the node v, from a place of the circuit's buffer on.
fn write_arc(circuit: &mut [u8], at: usize, n: usize, v: usize, mark: u16)
    requires { (at + 4 ≤ length circuit.old) × (0 < n) × (v < 192) × (mark / 8 < 192) }
    ensures { circuit.new ≡ sets circuit.old at (quad n v mark) }
{
    let kind = mark % turns::KINDS;
    let u = departure(mark);
    let arc = places_of(kind, u, v);
    let position = arc.here / n + 1;
    let to = arc.to % n + 1;
    let from = arc.from % n + 1;
    circuit[at] = kind as u8;
    circuit[at + 1] = position as u8;
    circuit[at + 2] = to as u8;
    circuit[at + 3] = from as u8;
}

// Writes the arcs of `count` steps back from the node s: the way back meets the last of them first.
fn write(marks: &Marks, s: usize, count: usize, circuit: &mut [u8])
    requires { Sound marks.now.row.now marks.now.n marks.now.positions s × (count ≤ 192) × (4 * count ≤ length circuit.old) }
    ensures { circuit.new ≡ sets circuit.old 0 (written marks.now.row.now marks.now.n s count) }
{
    let mut x = s;
    for k in (0..count).rev() {
        let mark = marks.row[x];
        write_arc(circuit, 4 * k, marks.n, x, mark);
        x = departure(mark);
    }
}

// Writes the circuit that the way back from the node v comes to, and gives the count of its arcs. Its first arc leaves the smallest node.
pub fn refute(marks: &Marks, v: usize, circuit: &mut [u8]) -> usize
    requires { Led marks.now.row.now marks.now.n marks.now.positions v × (4 * (marks.now.positions * marks.now.n) ≤ length circuit.old) }
    ensures { Traced marks.now.row.now marks.now.n marks.now.positions v circuit.old circuit.new result }
{
    let mut seen = [false; tables::NODES];
    let u = meet(marks, v, &mut seen);
    let ring = go_round(marks, u);
    write(marks, ring.least, ring.count, circuit);
    ring.count
}
