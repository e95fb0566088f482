// Proposed times held to a sheet: whether they keep every window at the cycle time p/q, and if not, the first that they break.
// This crate knows times of either sign, and one window after the other; it knows no way to find a plan.
// It renders document 02's E2, "Hold another engine's answer to the sheet", for proposed times.
#![tactic(auto)]

mod proposals;

ghost use Rattle.std.specs.Prelude.{◌≡◌, true, ◌&&◌, leb, length, take};
ghost use Rattle.tables.specs.Sheets.{all};
ghost use Rattle.tables.specs.Lent.{lent};
ghost use Rattle.calls.specs.ProposedTimes.{in_reach};
ghost use Rattle.std.specs.List.{list_all};
ghost use Rattle.keeping.specs.Answers.{Held};

use edges::lines::Line;
use fractions::Fraction;
use numbers::refusals::Reason;
use proposals::Proposal;
use tables::sheets::Sheet;

// The answer: accepted; or the first window broken.
#[derive(Clone, Copy, Debug, PartialEq, Eq)]
pub enum TimesHeld {
    Accepted,
    Broken {
        position: usize,
        kind: usize,
        to: usize,
        from: usize,
    },
}

// No proposed time may lie further from zero, either way.
const REACH: i64 = 382000000000;

// Whether a time is in reach.
fn is_in_reach(time: i64) -> bool
    ensures { result ≡ in_reach time }
{
    (-REACH..=REACH).contains(&time)
}

// Whether the times are in reach.
fn are_in_reach(times: &[i64]) -> bool
    ensures { result ≡ list_all in_reach times.now }
{
    times.iter().all(|&time| is_in_reach(time))
}

// Whether so many times are there, all in reach.
fn are_enough(count: usize, times: &[i64]) -> bool
    ensures { result ≡ (leb count (length times.now) && all in_reach (take count times.now)) }
{
    let too_few = times.len() < count;
    if too_few {
        return false;
    }
    are_in_reach(&times[..count])
}

// Do the proposed times keep every window at the cycle time p/q? Accepted; or the first window broken; or refused, by 4, 5, 6, 10 or 11.
// Times are in whole steps of 1/q, of either sign; of a longer list the first N are read.
pub fn check_times(sheet: &Sheet, time: Fraction, times: &[i64]) -> Result<TimesHeld, Reason>
    ensures { Held (lent sheet.now) time.top time.bottom times.now result }
{
    let line = Line::judge(sheet, time)?;
    if !are_enough(sheet.positions * sheet.n, times) {
        return Err(Reason::Times);
    }
    let proposal = Proposal { line, times };
    Ok(proposal.search())
}
