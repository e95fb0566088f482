// Times that are not refused, and the search for the first window that they break.
ghost use Rattle.std.specs.Prelude.{◌≡◌, true, ◌*◌, ◌≤◌, ◌<◌, pos, get_or, take};
ghost use Rattle.tables.specs.Lent.{lent};
ghost use Rattle.calls.specs.ProposedTimes.{in_reach, times_refusal, Outcome};
ghost use Rattle.keeping.specs.Answers.{answer_held};
ghost use Rattle.keeping.specs.Breaks.{lift, keeps_at, arc_at, part_at, breaks, Reach, Finds, broken_at};

use crate::{REACH, TimesHeld};
use edges::Record;
use edges::lines::Line;

// A line, and times that are proposed for it: neither is refused.
#[derive(Clone, Copy)]
pub struct Proposal<'s, 't> {
    pub line: Line<'s>,
    pub times: &'t [i64],
    ghost unrefused: { times_refusal (lent line.sheet) line.time.top line.time.bottom times.now ≡ 0 },
}

// A time, later by the reach, so that none is below zero: what a window says of two times stays as it is.
fn lifted(time: i64) -> u64
    requires { in_reach time ≡ true }
    ensures { (result ≡ lift time) × (result ≤ 764000000000) }
{
    (time + REACH) as u64
}

impl<'s, 't> Proposal<'s, 't> {
    // Whether the times keep the window of a record at the position g + 1.
    fn is_kept(&self, g: usize, w: Record) -> bool
        requires window { (g < self.now.line.sheet.positions) × (1 ≤ w.to) × (1 ≤ w.from) }
        requires reach { Reach (arc_at self.now.line g w) self.now.times.now }
        ensures { result ≡ keeps_at self.now.line g w self.now.times.now }
    {
        let arc = edges::edge_at(&self.line.sheet, self.line.time, g, w);
        let departure = lifted(self.times[arc.departure]);
        let arrival = lifted(self.times[arc.arrival]);
        departure + arc.rise <= arrival + arc.fall
    }

    // Whether the place k of the part of the mode at the position g + 1, where the value stands, has a window that the times break.
    fn is_broken(&self, g: usize, k: usize, value: i32) -> bool
        requires place { (g < self.now.line.sheet.positions) × (k < 4 * (self.now.line.sheet.n * self.now.line.sheet.n)) }
        requires stands { value ≡ get_or (part_at self.now.line g) k (pos 0) }
        ensures { result ≡ breaks self.now.line self.now.times.now g k }
    {
        if tables::is_absent(value) {
            return false;
        }
        !self.is_kept(g, edges::from_place(self.line.sheet.n, k, value))
    }

    // The first place of the part of the mode at the position g + 1 that has a window which the times break.
    fn first_broken(&self, g: usize, part: &[i32]) -> Option<usize>
        requires inside { g < self.now.line.sheet.positions }
        requires part { part.now ≡ take (4 * (self.now.line.sheet.n * self.now.line.sheet.n)) (part_at self.now.line g) }
        ensures { Finds (breaks self.now.line self.now.times.now g) (4 * (self.now.line.sheet.n * self.now.line.sheet.n)) result }
    {
        // over the places' numbers: `enumerate` takes twice the time where few places have a window
        for k in 0..part.len() {
            if self.is_broken(g, k, part[k]) {
                return Some(k);
            }
        }
        None
    }

    // The first place broken at the position g + 1, in its mode's part of the tables: a slice that begins in their middle.
    fn first_at(&self, g: usize) -> Option<usize>
        requires { g < self.now.line.sheet.positions }
        ensures { Finds (breaks self.now.line self.now.times.now g) (4 * (self.now.line.sheet.n * self.now.line.sheet.n)) result }
    {
        let sheet = self.line.sheet;
        let size = tables::KINDS * (sheet.n * sheet.n);
        let first = usize::from(sheet.schedule[g]) * size;
        let part = &sheet.tables[first..first + size];
        self.first_broken(g, part)
    }

    // Goes through the positions, and through each one's windows in their order.
    pub fn search(&self) -> TimesHeld
        ensures { Outcome (lent self.now.line.sheet) self.now.line.time.top self.now.line.time.bottom self.now.times.now (answer_held result) }
    {
        for g in 0..self.line.sheet.positions {
            if let Some(k) = self.first_at(g) {
                return broken(self.line.sheet.n, g, k);
            }
        }
        TimesHeld::Accepted
    }
}

// Names a window by its position and its place.
fn broken(n: usize, g: usize, k: usize) -> TimesHeld
    requires { (0 < n) × (n ≤ 12) × (g < 16) × (k < 4 * (n * n)) }
    ensures { result ≡ broken_at n g k }
{
    let Record {
        kind,
        to,
        from,
        w: _,
    } = edges::from_place(n, k, 0);
    TimesHeld::Broken {
        position: g + 1,
        kind: usize::from(kind),
        to: usize::from(to),
        from: usize::from(from),
    }
}
