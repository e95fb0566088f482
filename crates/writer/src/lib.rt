// The writer of the sheet file: the numbers of a sheet are written in their order, each in groups.
// This crate knows a sheet in memory and the file's order; it knows no plan and no cycle time, and nothing of the reader.
// It renders document 01's "The sheet file" for the writer.
#![tactic(auto)]

ghost use Rattle.std.specs.Prelude.{◌≡◌, [], ◌∷◌, ◌+◌, ◌*◌, ◌/◌, ◌%◌, ◌≤◌, length};
ghost use Rattle.tables.specs.Lent.{lent};
ghost use Rattle.sheet.specs.Written.{cell, placed_of, records, mode_numbers, modes_numbers, sheet_numbers};
ghost use Rattle.writer.specs.Answers.{Writes};
ghost use Rattle.writer.specs.Steps.{state, run, Adds};

use numbers::refusals::Reason;
use tables::sheets::{Admitted, Sheet};

// The numbers of a sheet, written into a lent buffer one after the other, from a place on, as far as there is room.
#[derive(Drop)]
struct Numbers<'a> {
    out: &'a mut [u8],
    at: usize,
}

impl<'a> Numbers<'a> {
    // Writes a number.
    fn number(&mut self, value: usize)
        requires { self.old.at ≤ 1000000 }
        ensures near { self.new.at ≤ self.old.at + 4 }
        ensures adds { Adds self.old (value ∷ []) self.new }
    {
        self.at += numbers::put(self.out, self.at, value);
    }

    // Writes the record of a window.
    fn window(&mut self, n: usize, place: usize, code: usize)
        requires { (1 ≤ n) × (n ≤ 12) × (self.old.at ≤ 900000) }
        ensures near { self.new.at ≤ self.old.at + 16 }
        ensures adds { Adds self.old ((place / (n * n)) ∷ (place / n % n + 1) ∷ (place % n + 1) ∷ code ∷ []) self.new }
    {
        self.number(place / (n * n));
        self.number(place / n % n + 1);
        self.number(place % n + 1);
        self.number(code);
    }

    // Writes the record of a table's value, if it says a window.
    fn cell(&mut self, n: usize, place: usize, value: i32)
        requires { (1 ≤ n) × (n ≤ 12) × (self.old.at ≤ 900000) }
        ensures near { self.new.at ≤ self.old.at + 16 }
        ensures adds { Adds self.old (records n (cell place value)) self.new }
    {
        let absent = tables::is_absent(value);
        if absent {
            return;
        }
        self.window(n, place, numbers::encode(value) as usize);
    }

    // Writes the records of one mode, whose windows these are: kind after kind, then to after to, and from after from.
    fn windows(&mut self, n: usize, part: &[i32])
        requires { (1 ≤ n) × (n ≤ 12) × (length part.now ≤ 576) × (self.old.at ≤ 200000) }
        ensures near { self.new.at ≤ self.old.at + 16 * length part.now }
        ensures adds { Adds self.old (records n (placed_of 0 part.now)) self.new }
    {
        for (k, &value) in part.iter().enumerate() {
            self.cell(n, k, value);
        }
    }

    // Writes one mode, whose windows these are.
    fn mode(&mut self, n: usize, part: &[i32])
        requires { (1 ≤ n) × (n ≤ 12) × (length part.now ≤ 576) × (self.old.at ≤ 100000) }
        ensures near { self.new.at ≤ self.old.at + 9220 }
        ensures adds { Adds self.old (mode_numbers n part.now) self.new }
    {
        self.number(tables::count_windows(part));
        self.windows(n, part);
    }

    // Writes every mode, each from the part of the tables that starts at 4t·n².
    fn modes(&mut self, sheet: &Sheet)
        requires { (1 ≤ sheet.now.n) × (sheet.now.n ≤ 12) × (sheet.now.m ≤ 8) × (sheet.now.m * (4 * (sheet.now.n * sheet.now.n)) ≤ length sheet.now.tables.now) × (self.old.at ≤ 1000) }
        ensures { Adds self.old (modes_numbers sheet.now.n sheet.now.m sheet.now.tables.now) self.new }
    {
        let size = tables::KINDS * (sheet.n * sheet.n);
        for t in 0..sheet.m {
            let start = t * size;
            self.mode(sheet.n, &sheet.tables[start..start + size]);
        }
    }

    // Writes the mode numbers of a schedule.
    fn schedule(&mut self, schedule: &[u8])
        requires { (length schedule.now ≤ 16) × (self.old.at ≤ 100) }
        ensures near { self.new.at ≤ self.old.at + 64 }
        ensures adds { Adds self.old schedule.now self.new }
    {
        for &mode in schedule {
            self.number(usize::from(mode));
        }
    }
}

// Writes n, m, V and all that follows them, as far as there is room, and gives the sheet's length.
fn write_all(admitted: &Admitted, out: &mut [u8]) -> usize
    ensures { state result out.new ≡ run out.old 0 (sheet_numbers (lent admitted.now.sheet)) }
{
    let sheet = &admitted.sheet;
    let mut numbers = Numbers { out, at: 0 };
    numbers.number(sheet::FORMAT);
    numbers.number(sheet.n);
    numbers.number(sheet.m);
    numbers.number(sheet.positions);
    numbers.schedule(&sheet.schedule[..sheet.positions]);
    numbers.modes(sheet);
    numbers.at
}

// Writes a sheet in memory as its one file, and gives its length. The first walk has no room to write and gives the
// length, so that a refusal, by 4, 5, 6 or 9, alters nothing.
pub fn write_sheet(sheet: &Sheet, out: &mut [u8]) -> Result<usize, Reason>
    ensures { Writes (lent sheet.now) out.old result out.new }
{
    let admitted = sheet.admit()?;
    let length = write_all(&admitted, &mut []);
    let is_short = out.len() < length;
    if is_short {
        return Err(Reason::Room);
    }
    Ok(write_all(&admitted, out))
}
