// The climb to the lowest cycle time and the descent to the highest: each step goes to the limit of the circuit that refutes.
// This crate knows where the search stands, with a circuit that led there; it knows no answer of Ends.
// It renders the limits of document 01's "Ends", which are the ends.
#![tactic(auto)]

pub mod buffers;

ghost use Rattle.std.specs.Prelude.{◌≡◌, length};
ghost use Rattle.tables.specs.Lent.{lent};
ghost use Rattle.search.specs.Copies.{RoomFor};
ghost use Rattle.search.specs.Searches.{Ready, Asks, Judged, Gains, Rises, Turns, Falls, Starting, Climbs, HighStands, Rests, Overhead, Descends};

use ask::Asked;
use buffers::copy;
use fractions::Fraction;
use limits::{Climb, Weight, next_high, next_low};
use tables::sheets::Admitted;
use weights::weigh;

// A cycle time above every limit: a circuit has at most 192 arcs, of at most 1,000,000 each.
const ABOVE: u64 = 192000001;

// Where the search stands: a cycle time, and the arc count of the circuit that led there.
#[derive(Clone, Copy, Debug, PartialEq, Eq)]
pub struct Stand {
    pub time: Fraction,
    pub arcs: usize,
}

// A circuit that is above zero where the search stands: its sums and its arc count.
#[derive(Clone, Copy, Debug, PartialEq, Eq)]
struct Above {
    weight: Weight,
    arcs: usize,
}

// Asks at a cycle time. A refutation leaves its circuit at the front of the buffer.
fn ask_at(admitted: &Admitted, at: Stand, found: &mut [u8]) -> Asked
    requires { Ready at found.old }
    ensures { Asks (lent admitted.now.sheet) at result found.new }
{
    let mut plan = [0; tables::NODES];
    // no refusal fits: the sheet is admitted, as its type says, the cycle time is within Ask's limits and there is room
    ask::ask(&admitted.sheet, at.time, &mut plan, found).unwrap()
}

// Asks where the search stands, and weighs the circuit that refutes; none does where it works.
fn judge_at(admitted: &Admitted, at: Stand, found: &mut [u8]) -> Option<Above>
    requires { Ready at found.old }
    ensures { Judged (lent admitted.now.sheet) at result found.new }
{
    match ask_at(admitted, at, found) {
        Asked::Accepted { rounds: _ } => None,
        Asked::Refuted { arcs: count } => {
            let arcs = count as usize;
            let weight = weigh(&admitted.sheet, found, arcs);
            Some(Above { weight, arcs })
        }
    }
}

// That no cycle time works: the arc counts of the circuits that show it, the first alone, where the second has none, or both together.
#[derive(Clone, Copy, Debug, PartialEq, Eq)]
pub struct NoTime {
    pub first: usize,
    pub second: usize,
}

// What a circuit above zero does to the climb: on to its limit, or nothing works. The circuit found goes over the one before, but where the two
// show together that nothing works.
fn climb_by(above: Above, held: usize, found: &[u8], low: &mut [u8]) -> Result<Stand, NoTime>
    requires { Gains above.weight × RoomFor above.arcs found.now low.old }
    ensures { Rises above.weight held found.now above.arcs low.old result low.new }
{
    let arcs = above.arcs;
    match next_low(above.weight) {
        Climb::On(time) => {
            copy(found, arcs, low);
            Ok(Stand { time, arcs })
        }
        Climb::Alone => {
            copy(found, arcs, low);
            Err(NoTime {
                first: arcs,
                second: 0,
            })
        }
        Climb::Both => Err(NoTime {
            first: held,
            second: arcs,
        }),
    }
}

// The climb from 0/1: every circuit above zero names a later cycle time, so that it ends, at the lowest with its circuit, or where nothing works.
pub fn climb(admitted: &Admitted, low: &mut [u8], found: &mut [u8]) -> Result<Stand, NoTime>
    requires { Starting low.old found.old }
    ensures { Climbs (lent admitted.now.sheet) result low.new found.new }
{
    let mut at = Stand {
        time: Fraction { top: 0, bottom: 1 },
        arcs: 0,
    };
    while let Some(above) = judge_at(admitted, at, found) {
        at = climb_by(above, at.arcs, found, low)?;
    }
    Ok(at)
}

// The circuit found, above zero at a cycle time that lies over one that works, goes over the one before, and its limit is next.
fn descend_by(above: Above, found: &[u8], high: &mut [u8]) -> Stand
    requires { Turns above.weight × RoomFor above.arcs found.now high.old }
    ensures { Falls above.weight found.now above.arcs high.old result high.new }
{
    copy(found, above.arcs, high);
    Stand {
        time: next_high(above.weight),
        arcs: above.arcs,
    }
}

// The descent from a cycle time that a circuit named: every circuit above zero names an earlier one, so that it ends.
fn descend_from(admitted: &Admitted, from: Stand, high: &mut [u8], found: &mut [u8]) -> Stand
    requires { HighStands (lent admitted.now.sheet) from high.old found.old }
    ensures { Rests (lent admitted.now.sheet) result high.new found.new }
{
    let mut at = from;
    while let Some(above) = judge_at(admitted, at, found) {
        at = descend_by(above, found, high);
    }
    at
}

// The descent from above every limit, to the highest cycle time with its circuit; there is none where that works.
pub fn descend(admitted: &Admitted, low: Stand, high: &mut [u8], found: &mut [u8]) -> Option<Stand>
    requires { Overhead (lent admitted.now.sheet) low high.old found.old }
    ensures { Descends (lent admitted.now.sheet) result high.new found.new }
{
    let start = Stand {
        time: Fraction {
            top: ABOVE,
            bottom: 1,
        },
        arcs: 0,
    };
    let above = judge_at(admitted, start, found)?;
    let next = descend_by(above, found, high);
    Some(descend_from(admitted, next, high, found))
}
