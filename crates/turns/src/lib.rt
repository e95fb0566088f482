// One turn of the rounds, a position in a round: what an arc of its records does to the table and the row of marks, and which turn comes after.
// This crate knows the tables of times, the marks, and what all rounds over a list of records mean; it walks no list itself.
// It renders document 01's "Rounds".
#![tactic(auto)]

pub mod jobs;

ghost use Rattle.std.specs.Prelude.{◌≡◌, ◌==◌, ◌+◌, ◌*◌, ◌≤◌, ◌<◌, length, not, position, zip};
ghost use Rattle.turns.specs.Rounds.{named, Able, board, raise, turn_of, Filled, Next};

use crate::jobs::Job;
use edges::{Record, Site};

// The kinds that a mark has room for.
pub const KINDS: u16 = 8;

// A turn of the walk: one position in one round, and the records of its mode. `left` turns are left, this one among them; `node` is one
// that the round before raised.
#[derive(Clone, Copy)]
pub struct Turn {
    pub left: usize,
    pub round: usize,
    pub position: usize,
    pub node: usize,
    pub first: usize,
    pub last: usize,
    pub at: Site,
}

// The turn at the position g + 1 of the round r + 1.
pub fn turn_at(left: usize, r: usize, g: usize, node: usize, job: &Job) -> Turn
    requires { g < job.now.sheet.positions }
    ensures { result ≡ turn_of left r g node job.now }
{
    let t = usize::from(job.sheet.schedule[g]);
    Turn {
        left,
        round: r,
        position: g,
        node,
        first: job.start[t],
        last: job.start[t + 1],
        at: edges::site_at(&job.sheet, job.time, g),
    }
}

// The mark of an arc: the node that it leaves, and its kind. With the node where it arrives they tell the window and the position.
fn mark_of(departure: usize, kind: u8) -> u16
    requires { (departure < 192) × (kind < 8) }
    ensures { result ≡ departure * 8 + kind }
{
    departure as u16 * KINDS + u16::from(kind)
}

// The arc of a record raises the time at its arrival, where that is more than the new table has there, and leaves its mark: the row has the
// arc that raised each node last, in whichever round.
pub fn step(w: Record, turn: Turn, old: &[u64], new: &mut [u64], row: &mut [u16])
    requires { Able w turn.at old.now new.old row.old }
    ensures { board new.new row.new ≡ raise old.now (named w turn.at) (board new.old row.old) }
{
    let e = edges::edge_of(w, turn.at);
    let departure = e.departure;
    let arrival = e.arrival;
    let most = (old[departure] + e.rise).saturating_sub(e.fall);
    if new[arrival] < most {
        new[arrival] = most;
        row[arrival] = mark_of(departure, w.kind);
    }
}

// The first place where two tables differ, if there is one.
fn differs(xs: &[u64], ys: &[u64]) -> Option<usize>
    requires { length xs.now ≡ length ys.now }
    ensures { result ≡ position (λ e. not (e.0 == e.1)) (zip xs.now ys.now) }
{
    xs.iter().zip(ys).position(|(x, y)| x != y)
}

// Writes the first `count` of the times over as many of a plan's buffer: the one count cuts both.
pub fn write_times(times: &[u64], count: usize, into: &mut [u64])
    requires { (count ≤ length times.now) × (count ≤ length into.old) }
    ensures { Filled times.now count into.old into.new }
{
    into[..count].copy_from_slice(&times[..count]);
}

// The turn after a turn, whose round is over where its position is the last.
pub fn next(turn: Turn, job: &Job, old: &mut [u64], new: &[u64]) -> Turn
    requires { (1 ≤ turn.left) × (turn.position < job.now.sheet.positions) × (turn.round < 192) × (length new.now ≡ length old.old) × (192 ≤ length old.old) }
    ensures { Next turn job.now old.old new.now result old.new }
{
    let left = turn.left - 1;
    let g = turn.position + 1;
    if g < job.sheet.positions {
        return turn_at(left, turn.round, g, turn.node, job);
    }
    let nodes = job.sheet.positions * job.sheet.n;
    let Some(node) = differs(&old[..nodes], &new[..nodes]) else {
        return turn_at(0, turn.round, 0, nodes, job);
    };
    old.copy_from_slice(new);
    turn_at(left, turn.round + 1, 0, node, job)
}
