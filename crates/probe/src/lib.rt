// The calls as tests and benchmarks reach them, through C: each answers its number, and what is returned with it goes into a lent list.
// This crate knows every public call and adds nothing to them; no part of the product uses it.
#![tactic(auto)]

ghost use Rattle.std.specs.Prelude.{◌≡◌};
ghost use Rattle.tables.specs.Sheets.{sheet};
ghost use Rattle.sheet.specs.File.{sheet_in};
ghost use Rattle.reader.specs.Answers.{reading, read_of};
ghost use Rattle.writer.specs.Answers.{writing, write_of};
ghost use Rattle.calls.specs.Ask as ask;
ghost use Rattle.calls.specs.Ends as ends;
ghost use Rattle.calls.specs.ProposedTimes as proposed;
ghost use Rattle.calls.specs.ProposedArcs as listed;
ghost use Rattle.report.specs.Report as report;
ghost use Rattle.values.specs.Handed.{Handed};

use fractions::Fraction;
use tables::sheets::Sheet;

// The reader: 0 with n, m and V, or the number of the refusal with its place.
#[unsafe(no_mangle)]
pub extern "C" fn probe_read(
    file: &[u8],
    tables: &mut [i32],
    schedule: &mut [u8],
    values: &mut [u64],
) -> u32
    ensures { Handed (λ a. reading a tables.new schedule.new ≡ read_of (sheet_in file.now) tables.old schedule.old) values.old result values.new }
{
    answers::of_read(reader::read_sheet(file, tables, schedule), values).number
}

// The writer: 0 with the sheet's length, or the number of the refusal.
#[unsafe(no_mangle)]
pub extern "C" fn probe_write(
    n: usize,
    m: usize,
    positions: usize,
    tables: &[i32],
    schedule: &[u8],
    out: &mut [u8],
    values: &mut [u64],
) -> u32
    ensures { Handed (λ a. writing a out.new ≡ write_of (sheet n m positions tables.now schedule.now) out.old) values.old result values.new }
{
    let sheet = Sheet {
        n,
        m,
        positions,
        tables,
        schedule,
    };
    answers::of_length(writer::write_sheet(&sheet, out), values).number
}

// Ask: 0 with the rounds, 100 with the arc count, or the number of the refusal.
#[unsafe(no_mangle)]
pub extern "C" fn probe_ask(
    n: usize,
    m: usize,
    positions: usize,
    tables: &[i32],
    schedule: &[u8],
    p: u64,
    q: u64,
    plan: &mut [u64],
    circuit: &mut [u8],
    values: &mut [u64],
) -> u32
    ensures { Handed (λ a. ask.Outcome (sheet n m positions tables.now schedule.now) p q plan.old circuit.old a plan.new circuit.new) values.old result values.new }
{
    let sheet = Sheet {
        n,
        m,
        positions,
        tables,
        schedule,
    };
    let time = Fraction { top: p, bottom: q };
    answers::of_asked(ask::ask(&sheet, time, plan, circuit), values).number
}

// Ends: 0 with low's top and bottom, high's where it is not open, and the two arc counts; 101 with the two arc counts; or the number of the refusal.
#[unsafe(no_mangle)]
pub extern "C" fn probe_ends(
    n: usize,
    m: usize,
    positions: usize,
    tables: &[i32],
    schedule: &[u8],
    first: &mut [u8],
    second: &mut [u8],
    values: &mut [u64],
) -> u32
    ensures { Handed (λ a. ends.Outcome (sheet n m positions tables.now schedule.now) first.old second.old a first.new second.new) values.old result values.new }
{
    let sheet = Sheet {
        n,
        m,
        positions,
        tables,
        schedule,
    };
    answers::of_ended(ends::ends(&sheet, first, second), values).number
}

// Proposed times held to a sheet: 0; 102 with position, kind, to and from of the first window broken; or the number of the refusal.
#[unsafe(no_mangle)]
pub extern "C" fn probe_times(
    n: usize,
    m: usize,
    positions: usize,
    tables: &[i32],
    schedule: &[u8],
    p: u64,
    q: u64,
    times: &[i64],
    values: &mut [u64],
) -> u32
    ensures { Handed (proposed.Outcome (sheet n m positions tables.now schedule.now) p q times.now) values.old result values.new }
{
    let sheet = Sheet {
        n,
        m,
        positions,
        tables,
        schedule,
    };
    let time = Fraction { top: p, bottom: q };
    verdicts::of_times(keeping::check_times(&sheet, time, times), values).number
}

// Proposed arcs held to a sheet: 0; 103 with the index of the first bad arc; 104 to 107; or the number of the refusal.
#[unsafe(no_mangle)]
pub extern "C" fn probe_arcs(
    n: usize,
    m: usize,
    positions: usize,
    tables: &[i32],
    schedule: &[u8],
    p: u64,
    q: u64,
    arcs: &[u8],
    values: &mut [u64],
) -> u32
    ensures { Handed (listed.Outcome (sheet n m positions tables.now schedule.now) p q arcs.now) values.old result values.new }
{
    let sheet = Sheet {
        n,
        m,
        positions,
        tables,
        schedule,
    };
    let time = Fraction { top: p, bottom: q };
    verdicts::of_arcs(refuting::check_arcs(&sheet, time, arcs), values).number
}

// The report: 0 with the text's length, or the number of the refusal.
#[unsafe(no_mangle)]
pub extern "C" fn probe_report(file: &[u8], out: &mut [u8], values: &mut [u64]) -> u32
    ensures { Handed (λ a. report.Outcome file.now out.old a out.new) values.old result values.new }
{
    answers::of_length(report::report(file, out), values).number
}
