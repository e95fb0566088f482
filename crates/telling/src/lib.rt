// From a file's bytes to the text of its report: each answer is asked for in room of the work's own, and handed to its lines.
// This crate knows which call answers what; it knows no spelling, and not how much of a file is judged.
// It renders document 01's "The report", and document 02's E1 in it.
#![tactic(auto)]

ghost use Rattle.std.specs.Prelude.{◌≡◌, ◌⊎◌, ◌<◌};
ghost use Rattle.tables.specs.Lent.{lent};
ghost use Rattle.sheet.specs.File.{sheet_in};
ghost use Rattle.telling.specs.Tells.{TellsEnds, TellsNone, Tells};
ghost use Rattle.telling.specs.Steps.{TextStands, TextAdded, Askable, PlanAdded};

use ask::Asked;
use endings::{put_found, put_none};
use ends::Ended;
use fractions::Fraction;
use lines::{put_plan, put_refused};
use tables::sheets::{Admitted, Sheet};
use text::Text;

// Asks for the plan at low, which works, and puts its lines.
fn tell_plan(sheet: &Sheet, low: Fraction, text: &mut Text)
    requires { Askable (lent sheet.now) low.top low.bottom × (text.old.at < 400000) }
    ensures { PlanAdded (lent sheet.now) low.top low.bottom text.old text.new }
{
    let mut plan = [0u64; tables::NODES];
    let mut circuit = [0u8; tables::CIRCUIT];
    // low works, and an admitted sheet in this room is not refused there
    match ask::ask(sheet, low, &mut plan, &mut circuit).unwrap() {
        Asked::Accepted { rounds } => {
            put_plan(text, low.bottom, rounds, &plan, sheet.n, sheet.positions)
        }
        Asked::Refuted { arcs: _ } => unreachable!(),
    }
}

// Finds the ends of an admitted sheet, and puts the lines of what it finds.
fn tell_admitted(admitted: &Admitted, text: &mut Text)
    requires { text.old.at < 300000 }
    ensures { TextAdded (λ t. TellsEnds (lent admitted.now.sheet) t ⊎ TellsNone (lent admitted.now.sheet) t) text.old text.new }
{
    let sheet = &admitted.sheet;
    let mut one = [0u8; tables::CIRCUIT];
    let mut two = [0u8; tables::CIRCUIT];
    // no refusal fits: the sheet is admitted, and there is room for two circuits
    match ends::ends(sheet, &mut one, &mut two).unwrap() {
        Ended::Found { low, high } => {
            put_found(text, low, high, &one, &two);
            tell_plan(sheet, low.time, text);
        }
        Ended::None(none) => put_none(text, none, &one, &two),
    }
}

// Reads the sheet, and tells of it in the room that it was read into, or of its refusal.
pub fn tell(file: &[u8], out: &mut [u8]) -> usize
    ensures { TextStands (Tells (sheet_in file.now)) out.old result out.new }
{
    let mut tables = [0i32; tables::PLACES];
    let mut schedule = [0u8; tables::MOST_POSITIONS];
    let mut text = Text { out, at: 0 };
    match reader::lend(file, &mut tables, &mut schedule) {
        Ok(admitted) => tell_admitted(&admitted, &mut text),
        Err(refusal) => put_refused(&mut text, u8::from(refusal.reason), refusal.at),
    }
    text.at
}
