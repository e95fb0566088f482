// What the rounds are asked.
ghost use Rattle.turns.specs.Posed.{Posed};

use fractions::Fraction;
use tables::sheets::Sheet;

// A sheet, a cycle time, and where the records of each mode begin: all within their limits, and each position's mode has a part of the records.
#[derive(Clone, Copy)]
pub struct Job<'a> {
    pub sheet: Sheet<'a>,
    pub time: Fraction,
    pub start: [usize; 9],
    ghost posed: { Posed sheet.n sheet.positions time.top time.bottom sheet.schedule.now },
}
