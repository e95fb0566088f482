// The reader of the sheet file: a byte string is read left to right, each number checked as soon as it is read.
// This crate knows the file's order and the numbers that reading can answer; what follows the schedule it leaves to `records`, and it knows no plan
// and no cycle time.
// It renders document 01's "The sheet file" for the reader, and document 02's E1: a refusal has its place.
#![tactic(auto)]

ghost use Rattle.std.specs.Prelude.{◌≡◌, ◌≤◌, ◌<◌};
ghost use Rattle.std.proofs.lemmas.List.Edits.{sets};
ghost use Rattle.sheet.specs.File.{schedule_at, counts_at, tables_at, sheet_in};
ghost use Rattle.records.specs.Steps.{left, Walks};
ghost use Rattle.reader.specs.Answers.{Reads, Lends};
ghost use Rattle.reader.specs.Steps.{head_part, Fills};

use numbers::refusals::{Reason, Refusal};
use records::Cursor;
use tables::sheets::{Admitted, Sheet};

// n, m and V.
#[derive(Clone, Copy, Debug, PartialEq, Eq)]
pub struct Counts {
    pub n: usize,
    pub m: usize,
    pub positions: usize,
}

// Reads the mode numbers of a schedule.
fn read_schedule(
    cursor: &mut Cursor,
    m: usize,
    positions: usize,
    schedule: &mut [u8],
) -> Result<(), Refusal>
    requires { (1 ≤ m) × (m ≤ 8) }
    ensures walks { Walks (λ was modes. sets was 0 modes) (schedule_at cursor.old.file.now m positions cursor.old.at) schedule.old (left result cursor.new.at) schedule.new }
    ensures kept { cursor.new.file.now ≡ cursor.old.file.now }
{
    for position in 0..positions {
        let mode = cursor.number_within(0, m - 1, Reason::Schedule)?;
        records::put(schedule, position, mode as u8);
    }
    Ok(())
}

// The format number, n, m and V.
fn read_head(cursor: &mut Cursor) -> Result<Counts, Refusal>
    ensures reads { head_part result cursor.new.at ≡ counts_at cursor.old.file.now cursor.old.at }
    ensures kept { cursor.new.file.now ≡ cursor.old.file.now }
{
    cursor.number_within(sheet::FORMAT, sheet::FORMAT, Reason::Format)?;
    let n = cursor.number_within(1, tables::MOST_EVENTS, Reason::Size)?;
    let m = cursor.number_within(1, tables::MOST_MODES, Reason::Size)?;
    let positions = cursor.number_within(1, tables::MOST_POSITIONS, Reason::Size)?;
    Ok(Counts { n, m, positions })
}

// Reads all that follows the schedule, to the end of the file.
fn read_tables(cursor: &mut Cursor, n: usize, m: usize, tables: &mut [i32]) -> Result<(), Refusal>
    requires { (n ≤ 12) × (m ≤ 8) }
    ensures walks { Walks (λ was values. sets was 0 values) (tables_at cursor.old.file.now n m cursor.old.at) tables.old (left result cursor.new.at) tables.new }
    ensures kept { cursor.new.file.now ≡ cursor.old.file.now }
{
    records::read_modes(cursor, n, m, tables)?;
    let has_surplus = cursor.at != cursor.file.len();
    if has_surplus {
        return Err(Refusal {
            reason: Reason::Surplus,
            at: cursor.at,
        });
    }
    Ok(())
}

// Reads the file into tables and schedule, as far as these have room.
fn read_into(file: &[u8], tables: &mut [i32], schedule: &mut [u8]) -> Result<Counts, Refusal>
    ensures { Fills (sheet_in file.now) tables.old schedule.old result tables.new schedule.new }
{
    let mut cursor = Cursor { file, at: 0 };
    let counts = read_head(&mut cursor)?;
    read_schedule(&mut cursor, counts.m, counts.positions, schedule)?;
    read_tables(&mut cursor, counts.n, counts.m, tables)?;
    Ok(counts)
}

// Reads a sheet file into the caller's tables and schedule: n, m and V, or the refusal: 1 to 9, and its place in the file (0 for 9).
// The first walk has no room to write, so that a refusal alters nothing; the second fills 4·m·n² and V places. The two lists are filled here, so they
// are no `Sheet` yet.
pub fn read_sheet(file: &[u8], tables: &mut [i32], schedule: &mut [u8]) -> Result<Counts, Refusal>
    ensures { Reads file.now tables.old schedule.old result tables.new schedule.new }
{
    let counts = read_into(file, &mut [], &mut [])?;
    let places = tables::places(counts.n, counts.m);
    if !tables::is_roomy(places, tables.len(), counts.positions, schedule.len()) {
        return Err(Refusal {
            reason: Reason::Room,
            at: 0,
        });
    }
    read_into(file, tables, schedule)
}

// Reads a sheet file into the caller's tables and schedule, and lends the sheet from their first places, where it stands.
pub fn lend<'a>(
    file: &[u8],
    tables: &'a mut [i32],
    schedule: &'a mut [u8],
) -> Result<Admitted<'a>, Refusal>
    ensures { Lends file.now tables.old schedule.old result }
{
    let Counts { n, m, positions } = read_sheet(file, tables, schedule)?;
    let places = tables::places(n, m);
    let sheet = Sheet {
        n,
        m,
        positions,
        tables: &tables[..places],
        schedule: &schedule[..positions],
    };
    Ok(Admitted { sheet })
}
