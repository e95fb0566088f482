// The report of a sheet file: what the bench's lead reads in the morning.
// This crate knows how much of a file is judged and how much room a report takes; the program around it only reads and writes.
// It renders document 01's "The report".
#![tactic(auto)]

ghost use Rattle.report.specs.Report.{Outcome};
ghost use Rattle.report.specs.Told.{answer_told};

use numbers::refusals::Reason;

// Room for every report.
pub const ROOM: usize = 8192;

// So many bytes of a file are judged; more never change the report.
pub const JUDGED: usize = 27685;

// Writes the report of a file's bytes to the start of `out`, and gives its length; refused by 9, exactly if `out` has less room than every
// report needs.
pub fn report(file: &[u8], out: &mut [u8]) -> Result<usize, Reason>
    ensures { Outcome file.now out.old (answer_told result) out.new }
{
    let is_short = out.len() < ROOM;
    if is_short {
        return Err(Reason::Room);
    }
    let judged = file.len().min(JUDGED);
    Ok(telling::tell(&file[..judged], out))
}
