// The list of records: the windows present in each mode, laid out once.
// This crate knows the list; it knows no arc, no table of times and no round.
// It renders document 01's "laid out once as a list of records".
#![tactic(auto)]

ghost use Rattle.std.specs.Prelude.{◌≡◌, ◌*◌, ◌≤◌, ◌<◌, length};
ghost use Rattle.layout.specs.Records.{laid_out, Laid, Starts};

use edges::Record;
use tables::sheets::Sheet;

// Where the records of each of the sheet's modes begin, and after the last where they end. One mode's windows are counted in the part of
// the tables that starts at 4t·n².
pub fn starts(sheet: &Sheet) -> [usize; 9]
    requires { (0 < sheet.now.n) × (sheet.now.n ≤ 12) × (sheet.now.m ≤ 8) × (sheet.now.m * (4 * (sheet.now.n * sheet.now.n)) ≤ length sheet.now.tables.now) }
    ensures { Starts sheet.now.tables.now sheet.now.n result sheet.now.m }
{
    let size = 4 * (sheet.n * sheet.n);
    let mut start = [0usize; 9];
    for t in 0..sheet.m {
        let first = t * size;
        let windows = tables::count_windows(&sheet.tables[first..first + size]);
        start[t + 1] = start[t] + windows;
    }
    start
}

// Lays out the windows of the sheet's modes, one mode's after the other's, each mode from the part of the tables that starts at 4t·n².
pub fn lay_out(sheet: &Sheet, list: &mut [Record; tables::PLACES])
    requires { (0 < sheet.now.n) × (sheet.now.n ≤ 12) × (sheet.now.m ≤ 8) × (sheet.now.m * (4 * (sheet.now.n * sheet.now.n)) ≤ length sheet.now.tables.now) }
    ensures { Laid (laid_out sheet.now.tables.now sheet.now.n sheet.now.m) list.new }
{
    let size = 4 * (sheet.n * sheet.n);
    let mut w: usize = 0;
    for t in 0..sheet.m {
        let begin = t * size;
        let part = &sheet.tables[begin..begin + size];
        for (k, &value) in part.iter().enumerate() {
            if !tables::is_absent(value) {
                list[w] = edges::from_place(sheet.n, k, value);
                w += 1;
            }
        }
    }
}
