// One arc in numbers: where a window stands in the tables, and its arc at a position, from the place of one node to that of another with a weight.
// This crate knows one window and one arc; it knows no list of them, no table of times and no circuit.
// It renders document 01's "Arcs".
#![tactic(auto)]

pub mod lines;

ghost use Rattle.std.specs.Prelude.{◌≡◌, ◌+◌, ◌-◌, ◌*◌, ◌≤◌, ◌<◌, length, get_or};
ghost use Rattle.tables.specs.Sheets.{place};
ghost use Rattle.tables.specs.Lent.{lent};
ghost use Rattle.windows.specs.Arcs.{up, down};
ghost use Rattle.edges.specs.Edges.{from_place, edge, edge_of, edge_at, site_of};
ghost use Rattle.edges.specs.Naming.{four_at, limit_of, NamesPlace};

use fractions::Fraction;
use tables::sheets::Sheet;

// A window as a record: its kind in numbers, since document 01 names the decision on the number; the events "to" and "from", and its limit.
#[derive(Clone, Copy, Debug, PartialEq, Eq)]
pub struct Record {
    pub kind: u8,
    pub to: u8,
    pub from: u8,
    pub w: i32,
}

// How much a limit lies above 0, or 0. Signs end here, by hand: document 01 names the form of the mapping.
pub fn upper(value: i32) -> u64
    ensures { (result ≡ up value) × (result < 2147483648) }
{
    if value < 0 { 0 } else { (value as u32) as u64 }
}

// How much a limit lies below 0, or 0.
pub fn lower(value: i32) -> u64
    ensures { (result ≡ down value) × (result < 2147483649) }
{
    if value < 0 {
        ((!value) as u32) as u64 + 1
    } else {
        0
    }
}

// The record of the place k of a mode's part of the tables, with the limit that stands there.
pub fn from_place(n: usize, k: usize, value: i32) -> Record
    requires { (0 < n) × (n ≤ 12) × (k < 4 * (n * n)) }
    ensures { result ≡ from_place n k value }
{
    Record {
        kind: (k / (n * n)) as u8,
        to: (k / n % n + 1) as u8,
        from: (k % n + 1) as u8,
        w: value,
    }
}

// Where a window stands in the tables.
fn place_of(n: usize, t: usize, kind: usize, to: usize, from: usize) -> usize
    requires { (n ≤ 12) × (t < 8) × (kind < 4) × (1 ≤ to) × (to ≤ n) × (1 ≤ from) × (from ≤ n) }
    ensures { result ≡ place n t kind to from }
{
    let row = (4 * t + kind) * n + (to - 1);
    row * n + (from - 1)
}

// The four numbers of an arc: kind, position, to, from. They may be any: the C interface takes them so, and what they name is found out.
#[derive(Clone, Copy, Debug, PartialEq, Eq)]
pub struct Four {
    pub kind: u8,
    pub position: u8,
    pub to: u8,
    pub from: u8,
}

// The four numbers of the arc at k of a list, from 0.
pub fn four_at(list: &[u8], k: usize) -> Four
    requires { 4 * k + 3 < length list.now }
    ensures { result ≡ four_at list.now k }
{
    let at = 4 * k;
    Four {
        kind: list[at],
        position: list[at + 1],
        to: list[at + 2],
        from: list[at + 3],
    }
}

// The limit of the window that four numbers name.
pub fn limit(sheet: &Sheet, arc: Four) -> i32
    requires { NamesPlace (lent sheet.now) arc.kind arc.position arc.to arc.from }
    ensures { result ≡ limit_of (lent sheet.now) arc.kind arc.position arc.to arc.from }
{
    let t = usize::from(sheet.schedule[usize::from(arc.position) - 1]);
    let at = place_of(
        sheet.n,
        t,
        usize::from(arc.kind),
        usize::from(arc.to),
        usize::from(arc.from),
    );
    sheet.tables[at]
}

// An arc in numbers: the places of its departure and its arrival in a buffer of times, and its weight as rise - fall.
#[derive(Clone, Copy, Debug, PartialEq, Eq)]
pub struct Edge {
    pub departure: usize,
    pub arrival: usize,
    pub rise: u64,
    pub fall: u64,
}

// An arc from one place to another.
fn between(departure: usize, arrival: usize, rise: u64, fall: u64) -> Edge
    ensures { result ≡ edge departure arrival rise fall }
{
    Edge {
        departure,
        arrival,
        rise,
        fall,
    }
}

// Where a position stands: the places of its events and of the next position's, what crossing to that costs, and how many steps a unit of
// time has.
#[derive(Clone, Copy, Debug, PartialEq, Eq)]
pub struct Site {
    pub here: usize,
    pub next: usize,
    pub cross: u64,
    pub q: u64,
}

// The position g + 1. After the last comes the first again, a cycle time later.
pub fn site_at(sheet: &Sheet, time: Fraction, g: usize) -> Site
    requires { (g < sheet.now.positions) × (sheet.now.positions ≤ 16) × (sheet.now.n ≤ 12) }
    ensures { result ≡ site_of g sheet.now.n sheet.now.positions time.top time.bottom }
{
    let here = g * sheet.n;
    if g + 1 == sheet.positions {
        return Site {
            here,
            next: 0,
            cross: time.top,
            q: time.bottom,
        };
    }
    Site {
        here,
        next: (g + 1) * sheet.n,
        cross: 0,
        q: time.bottom,
    }
}

// The arc of a record at a position. The decision is on the kind's number, with a range for those that are no kind: document 01 names this form.
pub fn edge_of(w: Record, at: Site) -> Edge
    requires { (1 ≤ w.to) × (1 ≤ w.from) × (at.q ≤ 1000) × (at.here < 4096) × (at.next < 4096) × (at.cross < 4294967296000) }
    ensures { result ≡ edge_of w at.q at.here at.next at.cross }
{
    let up = at.q * upper(w.w);
    let down = at.q * lower(w.w);
    let to = usize::from(w.to);
    let from = usize::from(w.from);
    let to_here = at.here + to - 1;
    let from_here = at.here + from - 1;
    let to_next = at.next + to - 1;
    let crossed = down + at.cross;
    let kind = w.kind;
    match kind {
        0 => between(from_here, to_here, up, down),
        1 => between(to_here, from_here, down, up),
        2 => between(from_here, to_next, up, crossed),
        3 => between(to_next, from_here, crossed, up),
        4..=255 => between(0, 0, 0, 0),
    }
}

// The arc of a record at the position g + 1.
pub fn edge_at(sheet: &Sheet, time: Fraction, g: usize, w: Record) -> Edge
    requires { (sheet.now.n ≤ 12) × (sheet.now.positions ≤ 16) × (g < sheet.now.positions) × (time.top ≤ 1000000000) × (time.bottom ≤ 1000) × (1 ≤ w.to) × (1 ≤ w.from) }
    ensures { result ≡ edge_at sheet.now.n sheet.now.positions time.top time.bottom g w }
{
    edge_of(w, site_at(sheet, time, g))
}
