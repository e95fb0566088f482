// The records of a sheet file: what follows the schedule, read mode by mode into the tables.
// This crate knows a place in a file, a number within its limits, a record, a mode's part of the tables and the modes one after the other;
// it knows no format number, no schedule and no end of the file, so it is the same for every format.
// It renders document 01's "a count and that many records of kind, to, from, value" and the reader's refusals 6 and 7, with
// the places of document 02's E1.
#![tactic(auto)]

ghost use Rattle.std.specs.Prelude.{◌≡◌, ℕ, ◌*◌, ◌≤◌, ◌<◌, leb, set, replicate};
ghost use Rattle.std.proofs.lemmas.List.Edits.{sets};
ghost use Rattle.numbers.specs.Groups.{number_at};
ghost use Rattle.numbers.specs.Refusals.{number_of};
ghost use Rattle.tables.specs.Sheets.{no_window};
ghost use Rattle.sheet.specs.File as file_spec;
ghost use Rattle.sheet.specs.File.{tested, value_at, record_at, records_at, mode_at, modes_at, laid, tables_of};
ghost use Rattle.records.specs.Steps.{between, taken, tried, found_part, left, Stays, StaysBut, Walks};

use numbers::refusals::{Reason, Refusal};

// A file and the place in it from which it is read on.
#[derive(Drop)]
pub struct Cursor<'a> {
    pub file: &'a [u8],
    pub at: usize,
}

// A record of a mode: its place in the mode's part, and its limit as the file has it.
#[derive(Clone, Copy)]
struct Found {
    place: usize,
    code: u32,
}

// 1,000,000 as the file has it; -1,000,000 is one less.
const MOST_CODE: usize = 2000000;

impl<'a> Cursor<'a> {
    // The next number, where it lies within its limits, and none where it does not: by what number that is refused is for the caller to say. No number
    // is passed over but one that is taken.
    pub fn within(&mut self, least: usize, most: usize) -> Result<Option<usize>, Refusal>
        ensures reads { (k : ℕ) → tried k result self.old.at self.new.at ≡ tested (between least most) k (number_at self.old.file.now self.old.at) }
        ensures stays { StaysBut result self.old.at self.new.at }
        ensures kept { self.new.file.now ≡ self.old.file.now }
    {
        let number = numbers::number_at(self.file, self.at)?;
        let is_within = (least..=most).contains(&number.value);
        if !is_within {
            return Ok(None);
        }
        self.at = number.next;
        Ok(Some(number.value))
    }

    // The next number, refused where it lies outside its limits. The cursor then stays before it.
    pub fn number_within(
        &mut self,
        least: usize,
        most: usize,
        reason: Reason,
    ) -> Result<usize, Refusal>
        ensures reads { taken result self.old.at self.new.at ≡ tested (between least most) (number_of reason) (number_at self.old.file.now self.old.at) }
        ensures stays { Stays result self.old.at self.new.at }
        ensures kept { self.new.file.now ≡ self.old.file.now }
    {
        let at = self.at;
        let Some(number) = self.within(least, most)? else {
            return Err(Refusal { reason, at });
        };
        Ok(number)
    }
}

// The next kind: one of four, and any other number is refused.
fn read_kind(cursor: &mut Cursor) -> Result<usize, Refusal>
    ensures reads { taken result cursor.old.at cursor.new.at ≡ tested (λ kind. leb kind 3) 6 (number_at cursor.old.file.now cursor.old.at) }
    ensures kept { cursor.new.file.now ≡ cursor.old.file.now }
{
    let kind = numbers::number_at(cursor.file, cursor.at)?;
    cursor.at = kind.next;
    // A `match` with a range for the kinds that are refused: document 01 names this form.
    match kind.value {
        0 | 1 | 2 | 3 => Ok(kind.value),
        4.. => Err(Refusal {
            reason: Reason::Value,
            at: kind.at,
        }),
    }
}

// The fourth number of the record that starts at a byte, whose place in the mode's part is known by now.
fn read_value(cursor: &mut Cursor, start: usize, place: usize, low: usize) -> Result<Found, Refusal>
    ensures reads { found_part result cursor.new.at ≡ value_at cursor.old.file.now start low place cursor.old.at }
    ensures kept { cursor.new.file.now ≡ cursor.old.file.now }
{
    let limit = numbers::number_at(cursor.file, cursor.at)?;
    let is_past = MOST_CODE < limit.value;
    if is_past {
        return Err(Refusal {
            reason: Reason::Value,
            at: limit.at,
        });
    }
    let is_behind = place < low;
    if is_behind {
        return Err(Refusal {
            reason: Reason::Order,
            at: start,
        });
    }
    cursor.at = limit.next;
    Ok(Found {
        place,
        code: limit.value as u32,
    })
}

// The next record, whose own place in the mode's part is at least `low`.
fn read_window(cursor: &mut Cursor, n: usize, low: usize) -> Result<Found, Refusal>
    requires { n ≤ 12 }
    ensures reads { found_part result cursor.new.at ≡ record_at cursor.old.file.now n low cursor.old.at }
    ensures kept { cursor.new.file.now ≡ cursor.old.file.now }
{
    let start = cursor.at;
    let kind = read_kind(cursor)?;
    let to = cursor.number_within(1, n, Reason::Value)?;
    let from = cursor.number_within(1, n, Reason::Value)?;
    let place = (kind * n + (to - 1)) * n + (from - 1);
    read_value(cursor, start, place, low)
}

// Puts a value at a place of a list, if it reaches that far.
// Tried by `get_mut`: its contract says nothing of what the list holds after it, so that the proof did not close.
pub fn put<T: Copy>(list: &mut [T], place: usize, value: T)
    ensures { list.new ≡ set list.old place value }
{
    let is_inside = place < list.len();
    if is_inside {
        list[place] = value;
    }
}

// Reads so many records, and puts each at its place in the mode's part.
fn read_windows(
    cursor: &mut Cursor,
    n: usize,
    count: usize,
    part: &mut [i32],
) -> Result<(), Refusal>
    requires { n ≤ 12 }
    ensures walks { Walks (λ was windows. file_spec.put windows was) (records_at cursor.old.file.now n count 0 cursor.old.at) part.old (left result cursor.new.at) part.new }
    ensures kept { cursor.new.file.now ≡ cursor.old.file.now }
{
    let mut low = 0;
    for _ in 0..count {
        let found = read_window(cursor, n, low)?;
        put(part, found.place, numbers::decode(found.code));
        low = found.place + 1;
    }
    Ok(())
}

// Says "no window" at the first places of a mode's part, as far as it reaches.
fn clear(part: &mut [i32], size: usize)
    ensures { part.new ≡ sets part.old 0 (replicate size no_window) }
{
    let end = size.min(part.len());
    part[..end].fill(tables::NO_WINDOW);
}

// Reads the windows of one mode into its part of the tables.
fn read_mode(cursor: &mut Cursor, n: usize, part: &mut [i32]) -> Result<(), Refusal>
    requires { n ≤ 12 }
    ensures walks { Walks (λ was windows. sets was 0 (laid (4 * (n * n)) windows)) (mode_at cursor.old.file.now n cursor.old.at) part.old (left result cursor.new.at) part.new }
    ensures kept { cursor.new.file.now ≡ cursor.old.file.now }
{
    let size = tables::places(n, 1);
    let count = cursor.number_within(0, size, Reason::Value)?;
    clear(part, size);
    read_windows(cursor, n, count, part)
}

// Reads the windows of every mode, each mode's into the part of the tables that starts at 4t·n², which
// is empty where the tables do not reach that far.
fn read_each(cursor: &mut Cursor, n: usize, m: usize, tables: &mut [i32]) -> Result<(), Refusal>
    requires { (n ≤ 12) × (m ≤ 8) }
    ensures walks { Walks (λ was modes. sets was 0 (tables_of n modes)) (modes_at cursor.old.file.now n m cursor.old.at) tables.old (left result cursor.new.at) tables.new }
    ensures kept { cursor.new.file.now ≡ cursor.old.file.now }
{
    let size = tables::places(n, 1);
    for t in 0..m {
        let start = (t * size).min(tables.len());
        read_mode(cursor, n, &mut tables[start..])?;
    }
    Ok(())
}

// Reads the windows of every mode into the tables, as far as these reach. Where they are refused the cursor is back before the first of them.
pub fn read_modes(
    cursor: &mut Cursor,
    n: usize,
    m: usize,
    tables: &mut [i32],
) -> Result<(), Refusal>
    requires { (n ≤ 12) × (m ≤ 8) }
    ensures walks { Walks (λ was modes. sets was 0 (tables_of n modes)) (modes_at cursor.old.file.now n m cursor.old.at) tables.old (left result cursor.new.at) tables.new }
    ensures stays { Stays result cursor.old.at cursor.new.at }
    ensures kept { cursor.new.file.now ≡ cursor.old.file.now }
{
    let before = cursor.at;
    let read = read_each(cursor, n, m, tables);
    if read.is_err() {
        cursor.at = before;
    }
    read
}
