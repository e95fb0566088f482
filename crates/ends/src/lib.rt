// Ends: the lowest and highest cycle time of a sheet in memory.
// This crate knows low, high, "open" and "none" with the circuits that show them; it knows no file.
// It renders document 01's "Ends" and the line on Ends in "Numbers a call can answer".
#![tactic(auto)]

ghost use Rattle.std.specs.Prelude.{◌≡◌, true};
ghost use Rattle.tables.specs.Lent.{lent};
ghost use Rattle.calls.specs.Ends.{roomy, Outcome};
ghost use Rattle.ends.specs.Answers.{ended, answer_ended, FindReady, LowReady, HighReady, HighFound};

use numbers::refusals::Reason;
use search::buffers::copy;
use search::{NoTime, Stand};
use tables::sheets::{Admitted, Sheet};

// The lowest cycle time, and the highest, if there is one, each with the arc count of the circuit that shows it; or that none works.
#[derive(Clone, Copy, Debug, PartialEq, Eq)]
pub enum Ended {
    Found { low: Stand, high: Option<Stand> },
    None(NoTime),
}

// Where low is known: finds high, and hands its circuit over, if there is one.
fn find_high(
    admitted: &Admitted,
    low: Stand,
    room: &mut [u8],
    found: &mut [u8],
    second: &mut [u8],
) -> Option<Stand>
    requires { HighReady (lent admitted.now.sheet) low room.old found.old second.old }
    ensures { HighFound (lent admitted.now.sheet) low second.old result second.new }
{
    let high = search::descend(admitted, low, room, found)?;
    copy(room, high.arcs, second);
    Some(high)
}

// Where low is known: hands its circuit over, whose room is then free for high's.
fn finish_low(
    admitted: &Admitted,
    at: Stand,
    low: &mut [u8],
    found: &mut [u8],
    first: &mut [u8],
    second: &mut [u8],
) -> Ended
    requires { LowReady (lent admitted.now.sheet) at low.old found.old first.old second.old }
    ensures { Outcome (lent admitted.now.sheet) first.old second.old (ended result) first.new second.new }
{
    copy(low, at.arcs, first);
    Ended::Found {
        low: at,
        high: find_high(admitted, at, low, found, second),
    }
}

// Searches in room of the work's own, and hands the circuits over.
fn find(
    admitted: &Admitted,
    low: &mut [u8],
    found: &mut [u8],
    first: &mut [u8],
    second: &mut [u8],
) -> Ended
    requires { FindReady (lent admitted.now.sheet) low.old found.old first.old second.old }
    ensures { Outcome (lent admitted.now.sheet) first.old second.old (ended result) first.new second.new }
{
    match search::climb(admitted, low, found) {
        Ok(at) => finish_low(admitted, at, low, found, first, second),
        Err(none) => {
            copy(low, none.first, first);
            copy(found, none.second, second);
            Ended::None(none)
        }
    }
}

// Makes the room of the work's own: two circuits.
fn settle(admitted: &Admitted, first: &mut [u8], second: &mut [u8]) -> Ended
    requires { roomy (lent admitted.now.sheet) first.old second.old ≡ true }
    ensures { Outcome (lent admitted.now.sheet) first.old second.old (ended result) first.new second.new }
{
    let mut low = [0; tables::CIRCUIT];
    let mut found = [0; tables::CIRCUIT];
    find(admitted, &mut low, &mut found, first, second)
}

// The lowest and highest cycle time, with circuits that show them, four numbers an arc, in the first places of the two buffers; or none, with
// the circuits that show it; or refused, by 4, 5, 6 or 9.
pub fn ends(sheet: &Sheet, first: &mut [u8], second: &mut [u8]) -> Result<Ended, Reason>
    ensures { Outcome (lent sheet.now) first.old second.old (answer_ended result) first.new second.new }
{
    let admitted = sheet.admit()?;
    let numbers = 4 * (sheet.positions * sheet.n);
    if !tables::is_roomy(numbers, first.len(), numbers, second.len()) {
        return Err(Reason::Room);
    }
    Ok(settle(&admitted, first, second))
}
