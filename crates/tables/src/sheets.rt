// A sheet in memory as it is lent to a call, and the judgement of it: refusals 4, 5 and 6.
ghost use Rattle.std.specs.Prelude.{◌≡◌, ◌≤◌, ltb, length, take, IfOk};
ghost use Rattle.std.specs.List.{list_all};
ghost use Rattle.numbers.specs.Refusals.{verdict};
ghost use Rattle.tables.specs.Sheets.{admits, sized, refusal};
ghost use Rattle.tables.specs.Lent.{lent};

use crate::{MOST_EVENTS, MOST_MODES, MOST_POSITIONS, is_admitted, is_within, places};
use numbers::refusals::Reason;

// n, m and V, the tables and the schedule. The lists may be longer than is needed: the surplus is neither read nor written.
#[derive(Clone, Copy)]
pub struct Sheet<'a> {
    pub n: usize,
    pub m: usize,
    pub positions: usize,
    pub tables: &'a [i32],
    pub schedule: &'a [u8],
}

// A sheet that is not refused.
#[derive(Clone, Copy)]
pub struct Admitted<'a> {
    pub sheet: Sheet<'a>,
    ghost admitted: { refusal (lent sheet) ≡ 0 },
}

impl<'a> Sheet<'a> {
    // Whether n, m and V lie within their limits, and the lists are long enough for them.
    fn is_sized(&self) -> bool
        ensures { result ≡ sized (lent self.now) }
    {
        is_within(MOST_EVENTS, self.n)
            && is_within(MOST_MODES, self.m)
            && is_within(MOST_POSITIONS, self.positions)
            && places(self.n, self.m) <= self.tables.len()
            && self.positions <= self.schedule.len()
    }

    // Whether the first positions of the schedule name modes below m.
    fn is_scheduled(&self) -> bool
        requires { self.now.positions ≤ length self.now.schedule.now }
        ensures { result ≡ list_all (λ t. ltb t self.now.m) (take self.now.positions self.now.schedule.now) }
    {
        let schedule = &self.schedule[..self.positions];
        schedule.iter().all(|&mode| is_mode(mode, self.m))
    }

    // The sheet, if it is admitted, and else the reason why it is not.
    pub fn admit(self) -> Result<Admitted<'a>, Reason>
        ensures judged { verdict result ≡ refusal (lent self.entry) }
        ensures same { IfOk result (λ a. a.sheet ≡ self.entry) }
    {
        if !self.is_sized() {
            return Err(Reason::Size);
        }
        if !self.is_scheduled() {
            return Err(Reason::Schedule);
        }
        if !are_admitted(&self.tables[..places(self.n, self.m)]) {
            return Err(Reason::Value);
        }
        Ok(Admitted { sheet: self })
    }
}

// Whether a position may name a mode, of m modes.
fn is_mode(mode: u8, m: usize) -> bool
    ensures { result ≡ ltb mode m }
{
    usize::from(mode) < m
}

// Whether values may stand in a table. By a `for`, which goes over thousands of values faster than `all`.
fn are_admitted(values: &[i32]) -> bool
    ensures { result ≡ list_all admits values.now }
{
    for &value in values {
        if !is_admitted(value) {
            return false;
        }
    }
    true
}
