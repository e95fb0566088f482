// The call of the hoist controller's host, a C program: sheet bytes, p and q, answered by one number.
// This crate knows which call follows which; the calls themselves are below it.
// It renders document 01's "The hoist controller's host is a C program".
#![tactic(auto)]

ghost use Rattle.std.specs.Prelude.{◌≡◌};
ghost use Rattle.tables.specs.Sheets.{timed};
ghost use Rattle.tables.specs.Lent.{lent};
ghost use Rattle.ask.specs.Answers.{answer_asked};
ghost use Rattle.calls.specs.Host.{Answers, Verdict};

use ask::Asked;
use fractions::Fraction;
use numbers::refusals::Reason;
use tables::sheets::Admitted;

// The number of Ask's answer, for C. It is no `From`, which cannot be written for std's `Result`.
fn number_of(asked: Result<Asked, Reason>) -> u32
    ensures { result ≡ (answer_asked asked).number }
{
    match asked {
        Ok(Asked::Accepted { rounds: _ }) => 0,
        Ok(Asked::Refuted { arcs: _ }) => 100,
        Err(reason) => u32::from(u8::from(reason)),
    }
}

// Asks of an admitted sheet, in room for the longest plan and circuit, which stay here.
fn decide(admitted: &Admitted, time: Fraction) -> u32
    ensures { Answers (timed time.top time.bottom) (lent admitted.now.sheet) time.top time.bottom result }
{
    let mut plan = [0u64; tables::NODES];
    let mut circuit = [0u8; tables::CIRCUIT];
    number_of(ask::ask(&admitted.sheet, time, &mut plan, &mut circuit))
}

// Does the cycle time p/q work for the sheet of these bytes? 0 where it does and 100 where it does not; else the number of the
// refusal, 1 to 8 for the bytes first, and then 10 for p and q.
#[unsafe(no_mangle)]
pub extern "C" fn tamulehk_ask(file: &[u8], p: u64, q: u64) -> u32
    ensures { Verdict file.now p q result }
{
    let mut tables = [0i32; tables::PLACES];
    let mut schedule = [0u8; tables::MOST_POSITIONS];
    match reader::lend(file, &mut tables, &mut schedule) {
        Ok(admitted) => decide(&admitted, Fraction { top: p, bottom: q }),
        Err(refusal) => u32::from(u8::from(refusal.reason)),
    }
}
