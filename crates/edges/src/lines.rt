// A line at a cycle time: what is known wherever a call has refused neither the sheet nor p and q.
ghost use Rattle.std.specs.Prelude.{◌≡◌, true, IfOk};
ghost use Rattle.numbers.specs.Refusals.{verdict};
ghost use Rattle.tables.specs.Sheets.{refusal, timed, otherwise, unless};
ghost use Rattle.tables.specs.Lent.{lent};

use fractions::Fraction;
use numbers::refusals::Reason;
use tables::sheets::Sheet;

// A sheet that is not refused, and a cycle time within its limits.
#[derive(Clone, Copy)]
pub struct Line<'a> {
    pub sheet: Sheet<'a>,
    pub time: Fraction,
    ghost admitted: { refusal (lent sheet) ≡ 0 },
    ghost timed: { timed time.top time.bottom ≡ true },
}

impl<'a> Line<'a> {
    // The line of a sheet at a cycle time, or why one of the two is refused: 4, 5 or 6 for the sheet first, and then 10.
    pub fn judge(sheet: &Sheet<'a>, time: Fraction) -> Result<Line<'a>, Reason>
        ensures judged { verdict result ≡ otherwise (refusal (lent sheet.now)) (unless (timed time.top time.bottom) 10 0) }
        ensures same_sheet { IfOk result (λ line. line.sheet ≡ sheet.now) }
        ensures same_time { IfOk result (λ line. line.time ≡ time) }
    {
        let admitted = sheet.admit()?;
        if !tables::is_timed(time) {
            return Err(Reason::CycleTime);
        }
        Ok(Line {
            sheet: admitted.sheet,
            time,
        })
    }
}
