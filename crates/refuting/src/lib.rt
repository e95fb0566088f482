// Proposed arcs held to the sheet: are they a refutation at p/q, and if not, what is the first thing wrong with them?
// This crate knows a list of arcs of any length, four numbers each; it knows no plan, runs no round and finds no circuit.
// It renders the list of arcs of document 02's E2, "Hold another engine's answer to the sheet".
#![tactic(auto)]

ghost use Rattle.std.specs.Prelude.{◌≡◌, true, ◌&&◌, ℕ, suc, ◌%◌, ◌≤◌, ◌<◌, leb, eqb};
ghost use Rattle.theory.specs.Circuits.{Distinct, departures, FirstSmallest, Above};
ghost use Rattle.tables.specs.Lent.{lent};
ghost use Rattle.calls.specs.ProposedArcs.{arcs_refusal, count, Closed, Good, Outcome};
ghost use Rattle.edges.specs.Naming.{four_at};
ghost use Rattle.refuting.specs.Reading.{named, present, edge_for, edge_in, Follows, Tells, Searched, Apart, TellsOf};
ghost use Rattle.refuting.specs.Answers.{answer_held, Held};

use edges::lines::Line;
use edges::{Edge, Four, Record, four_at};
use fractions::Fraction;
use numbers::refusals::Reason;
use tables::sheets::Sheet;

// The answer: a refutation as document 01 describes; the index of the first bad arc; or what else is wrong.
#[derive(Clone, Copy, Debug, PartialEq, Eq)]
pub enum ArcsHeld {
    Accepted,
    Bad { index: usize },
    NotClosed,
    LeftTwice,
    NotSmallest,
    NotAbove,
}

// A line, and arcs that are proposed for it, four numbers each: neither is refused.
#[derive(Clone, Copy)]
struct Proposal<'s, 'a> {
    line: Line<'s>,
    arcs: &'a [u8],
    ghost unrefused: { arcs_refusal (lent line.sheet) line.time.top line.time.bottom arcs.now ≡ 0 },
}

// Proposed arcs of which none is bad: each names a window of the sheet, and leaves where the one before arrived.
#[derive(Clone, Copy)]
struct Chain<'s, 'a> {
    line: Line<'s>,
    arcs: &'a [u8],
    ghost unrefused: { arcs_refusal (lent line.sheet) line.time.top line.time.bottom arcs.now ≡ 0 },
    ghost present: { (k : ℕ) → k < count arcs.now → present (lent line.sheet) (four_at arcs.now k) ≡ true },
    ghost follows: { (k : ℕ) → suc k < count arcs.now → Follows (lent line.sheet) line.time.top line.time.bottom arcs.now k },
}

// Whether four numbers are those of a kind, a position and two events. A proposal may have any, so the kind is a number here.
fn is_named(sheet: &Sheet, arc: Four) -> bool
    ensures { result ≡ named sheet.now.n sheet.now.positions arc }
{
    let is_unknown = 4 <= arc.kind;
    if is_unknown {
        return false;
    }
    if !tables::is_within(sheet.positions, usize::from(arc.position)) {
        return false;
    }
    if !tables::is_within(sheet.n, usize::from(arc.to)) {
        return false;
    }
    tables::is_within(sheet.n, usize::from(arc.from))
}

// Whether they name a window of the sheet.
fn is_window(line: &Line, arc: Four) -> bool
    ensures { result ≡ present (lent line.now.sheet) arc }
{
    if !is_named(&line.sheet, arc) {
        return false;
    }
    let value = edges::limit(&line.sheet, arc);
    !tables::is_absent(value)
}

// The arc of the window that they name.
fn edge_for(line: &Line, arc: Four) -> Edge
    requires { present (lent line.now.sheet) arc ≡ true }
    ensures { result ≡ edge_for (lent line.now.sheet) line.now.time.top line.now.time.bottom arc }
{
    let window = Record {
        kind: arc.kind,
        to: arc.to,
        from: arc.from,
        w: edges::limit(&line.sheet, arc),
    };
    edges::edge_at(
        &line.sheet,
        line.time,
        usize::from(arc.position) - 1,
        window,
    )
}

// How many arcs a list has.
fn count(arcs: &[u8]) -> usize
    ensures { result ≡ count arcs.now }
{
    arcs.len() / 4
}

impl<'s, 'a> Proposal<'s, 'a> {
    // Whether the arc at k is not bad: the sheet has its window, and it leaves where the arc before arrived. The arcs before it are not bad.
    fn is_good(&self, k: usize) -> bool
        requires inside { k < count self.now.arcs.now }
        requires before { (j : ℕ) → j < k → Good (lent self.now.line.sheet) self.now.arcs.now j }
        ensures { Tells (Good (lent self.now.line.sheet) self.now.arcs.now k) result }
    {
        let arc = four_at(self.arcs, k);
        if !is_window(&self.line, arc) {
            return false;
        }
        let is_first = k == 0;
        if is_first {
            return true;
        }
        let before = edge_for(&self.line, four_at(self.arcs, k - 1));
        let here = edge_for(&self.line, arc);
        here.departure == before.arrival
    }

    // The index of the first bad arc.
    fn first_bad(&self) -> Option<usize>
        ensures { Searched (lent self.now.line.sheet) self.now.arcs.now result }
    {
        for k in 0..count(self.arcs) {
            if !self.is_good(k) {
                return Some(k);
            }
        }
        None
    }

    // The first bad arc; and where none is bad, what the tests say.
    fn judge(&self) -> ArcsHeld
        ensures { Outcome (lent self.now.line.sheet) self.now.line.time.top self.now.line.time.bottom self.now.arcs.now (answer_held result) }
    {
        if let Some(index) = self.first_bad() {
            return ArcsHeld::Bad { index };
        }
        let chain = Chain {
            line: self.line,
            arcs: self.arcs,
        };
        chain.test()
    }
}

impl<'s, 'a> Chain<'s, 'a> {
    // The arc at k.
    fn edge(&self, k: usize) -> Edge
        requires { k < count self.now.arcs.now }
        ensures { result ≡ edge_in (lent self.now.line.sheet) self.now.line.time.top self.now.line.time.bottom self.now.arcs.now k }
    {
        edge_for(&self.line, four_at(self.arcs, k))
    }

    // Whether the last arc arrives where the first leaves.
    fn is_closed(&self) -> bool
        ensures { TellsOf (lent self.now.line.sheet) self.now.arcs.now Closed result }
    {
        let first = self.edge(0);
        let last = self.edge(count(self.arcs) - 1);
        last.arrival == first.departure
    }

    // Whether no arc before the one at k leaves the same node.
    fn is_apart(&self, k: usize) -> bool
        requires { k < count self.now.arcs.now }
        ensures { Tells (Apart (lent self.now.line.sheet) self.now.line.time.top self.now.line.time.bottom self.now.arcs.now k) result }
    {
        let here = self.edge(k);
        for i in 0..k {
            let other = self.edge(i);
            if other.departure == here.departure {
                return false;
            }
        }
        true
    }

    // Whether no node is left twice. However long the list, one is left again within 193 arcs, since there are at most 192 nodes.
    fn leaves_once(&self) -> bool
        ensures { TellsOf (lent self.now.line.sheet) self.now.arcs.now (λ a. Distinct (departures a)) result }
    {
        for k in 1..count(self.arcs) {
            if !self.is_apart(k) {
                return false;
            }
        }
        true
    }

    // Whether the first arc leaves the smallest node.
    fn starts_smallest(&self) -> bool
        ensures { TellsOf (lent self.now.line.sheet) self.now.arcs.now (λ a. FirstSmallest (departures a)) result }
    {
        let first = self.edge(0);
        for k in 0..count(self.arcs) {
            let arc = self.edge(k);
            let is_smaller = arc.departure < first.departure;
            if is_smaller {
                return false;
            }
        }
        true
    }

    // Whether the total of the weights is above zero: what the arcs add is more than what they take away. No sum overflows: there are at most 192 arcs, since no
    // node is left twice.
    fn is_above(&self) -> bool
        requires { count self.now.arcs.now ≤ 192 }
        ensures { TellsOf (lent self.now.line.sheet) self.now.arcs.now (Above self.now.line.time.top self.now.line.time.bottom) result }
    {
        let mut rises: u64 = 0;
        let mut falls: u64 = 0;
        for k in 0..count(self.arcs) {
            let arc = self.edge(k);
            rises += arc.rise;
            falls += arc.fall;
        }
        falls < rises
    }

    // What is wrong with arcs that are closed and leave no node twice: the smallest node first, and then the total.
    fn weigh(&self) -> ArcsHeld
        requires closed { TellsOf (lent self.now.line.sheet) self.now.arcs.now Closed true }
        requires once { TellsOf (lent self.now.line.sheet) self.now.arcs.now (λ a. Distinct (departures a)) true }
        ensures { Outcome (lent self.now.line.sheet) self.now.line.time.top self.now.line.time.bottom self.now.arcs.now (answer_held result) }
    {
        let smallest = self.starts_smallest();
        let above = self.is_above();
        let is_misplaced = !smallest;
        if is_misplaced {
            return ArcsHeld::NotSmallest;
        }
        if !above {
            return ArcsHeld::NotAbove;
        }
        ArcsHeld::Accepted
    }

    // What is wrong with them: closing, then a node left twice, then the rest.
    fn test(&self) -> ArcsHeld
        ensures { Outcome (lent self.now.line.sheet) self.now.line.time.top self.now.line.time.bottom self.now.arcs.now (answer_held result) }
    {
        let closed = self.is_closed();
        let once = self.leaves_once();
        let is_open = !closed;
        if is_open {
            return ArcsHeld::NotClosed;
        }
        if !once {
            return ArcsHeld::LeftTwice;
        }
        self.weigh()
    }
}

// Whether numbers, so many, are arcs, and all of them whole.
fn is_whole(many: usize) -> bool
    ensures { result ≡ (leb 1 many && eqb (many % 4) 0) }
{
    1 <= many && many % 4 == 0
}

// Are these arcs a refutation at p/q? Accepted; or what is first wrong with them; or refused, by 4, 5, 6, 10 or 11.
pub fn check_arcs(sheet: &Sheet, time: Fraction, arcs: &[u8]) -> Result<ArcsHeld, Reason>
    ensures { Held (lent sheet.now) time.top time.bottom arcs.now result }
{
    let line = Line::judge(sheet, time)?;
    if !is_whole(arcs.len()) {
        return Err(Reason::Times);
    }
    let proposal = Proposal { line, arcs };
    Ok(proposal.judge())
}
