// The checker's calls for C: a sheet's bytes, p and q, and a proposal, answered by a number and values.
// This crate knows which call follows which; the calls themselves are below it.
// It renders document 02's E2, "Hold another engine's answer to the sheet", over a sheet file: C has a call for times and one for arcs, alike but for those.
#![tactic(auto)]

ghost use Rattle.calls.specs.Checker.{HeldTimes, HeldArcs};
ghost use Rattle.values.specs.Handed.{Handed};

use fractions::Fraction;
use values::refuse_at;

// Do the proposed times keep every window of the sheet of these bytes at the cycle time p/q? 0 where they do, and 102 with position, kind, to and from of the
// first window broken where they do not; else the number of the refusal: 1 to 8 with their place for the bytes first, then 10 and 11.
#[unsafe(no_mangle)]
pub extern "C" fn tamulehk_check_times(
    file: &[u8],
    p: u64,
    q: u64,
    times: &[i64],
    values: &mut [u64],
) -> u32
    ensures { Handed (HeldTimes file.now p q times.now) values.old result values.new }
{
    let mut tables = [0i32; tables::PLACES];
    let mut schedule = [0u8; tables::MOST_POSITIONS];
    match reader::lend(file, &mut tables, &mut schedule) {
        Ok(admitted) => {
            let time = Fraction { top: p, bottom: q };
            verdicts::of_times(keeping::check_times(&admitted.sheet, time, times), values).number
        }
        Err(refusal) => refuse_at(values, refusal).number,
    }
}

// Are the proposed arcs a refutation of the cycle time p/q for the sheet of these bytes? 0 where they are; 103 with the index of the first bad arc, or 104 to 107
// by what is first wrong with arcs of which none is bad; else the number of the refusal: 1 to 8 with their place for the bytes first, then 10 and 11.
#[unsafe(no_mangle)]
pub extern "C" fn tamulehk_check_arcs(
    file: &[u8],
    p: u64,
    q: u64,
    arcs: &[u8],
    values: &mut [u64],
) -> u32
    ensures { Handed (HeldArcs file.now p q arcs.now) values.old result values.new }
{
    let mut tables = [0i32; tables::PLACES];
    let mut schedule = [0u8; tables::MOST_POSITIONS];
    match reader::lend(file, &mut tables, &mut schedule) {
        Ok(admitted) => {
            let time = Fraction { top: p, bottom: q };
            verdicts::of_arcs(refuting::check_arcs(&admitted.sheet, time, arcs), values).number
        }
        Err(unread) => refuse_at(values, unread).number,
    }
}
