// Answers in numbers: the number of a call's answer, and the values that are returned with it, handed over in a list.
// This crate knows the answers of the reader, the writer, Ask, Ends and the report; tests and benchmarks take these from C, and no part of the product does.
#![tactic(auto)]

ghost use Rattle.reader.specs.Answers.{answer_read};
ghost use Rattle.ask.specs.Answers.{answer_asked};
ghost use Rattle.ends.specs.Answers.{answer_ended};
ghost use Rattle.report.specs.Told.{answer_told};
ghost use Rattle.writer.specs.Answers.{answer_written};
ghost use Rattle.std.specs.Prelude.{Ok};
ghost use Rattle.values.specs.Handed.{Refused, RefusedAt, GivenOr};

use ask::Asked;
use ends::Ended;
use reader::Counts;
use values::{Answered, give, refuse, refuse_at};

// The reader's answer, refused by any number with a place. So are those below by any number.
pub fn of_read<R: Into<(u8, usize)>>(read: Result<Counts, R>, values: &mut [u64]) -> Answered
    ensures { GivenOr (λ c. answer_read (Ok c)) (RefusedAt R.converts) read values.old result values.new }
{
    match read {
        Ok(Counts { n, m, positions }) => give(values, 0, &[n as u64, m as u64, positions as u64]),
        Err(refusal) => refuse_at(values, refusal),
    }
}

// The writer's, and the report's: a length.
pub fn of_length<R: Into<u8>>(length: Result<usize, R>, values: &mut [u64]) -> Answered
    ensures written { GivenOr (λ k. answer_written (Ok k)) (Refused R.converts) length values.old result values.new }
    ensures told { GivenOr (λ k. answer_told (Ok k)) (Refused R.converts) length values.old result values.new }
{
    match length {
        Ok(length) => give(values, 0, &[length as u64]),
        Err(reason) => refuse(values, reason),
    }
}

// Ask's.
pub fn of_asked<R: Into<u8>>(asked: Result<Asked, R>, values: &mut [u64]) -> Answered
    ensures { GivenOr (λ a. answer_asked (Ok a)) (Refused R.converts) asked values.old result values.new }
{
    match asked {
        Ok(Asked::Accepted { rounds }) => give(values, 0, &[rounds]),
        Ok(Asked::Refuted { arcs }) => give(values, 100, &[arcs]),
        Err(reason) => refuse(values, reason),
    }
}

// That of Ends.
pub fn of_ended<R: Into<u8>>(ended: Result<Ended, R>, values: &mut [u64]) -> Answered
    ensures { GivenOr (λ e. answer_ended (Ok e)) (Refused R.converts) ended values.old result values.new }
{
    match ended {
        Ok(Ended::Found { low, high: None }) => give(
            values,
            0,
            &[low.time.top, low.time.bottom, low.arcs as u64, 0],
        ),
        Ok(
            Ended::Found {
                low,
                high: Some(high),
            },
        ) => give(
            values,
            0,
            &[
                low.time.top,
                low.time.bottom,
                high.time.top,
                high.time.bottom,
                low.arcs as u64,
                high.arcs as u64,
            ],
        ),
        Ok(Ended::None(none)) => give(values, 101, &[none.first as u64, none.second as u64]),
        Err(reason) => refuse(values, reason),
    }
}
