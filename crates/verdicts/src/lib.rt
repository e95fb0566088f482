// The checker's answers in numbers: the number of each, and the values that are returned with it.
// This crate knows the two answers on a proposal, of times and of arcs; it judges none.
// Which number a wrong proposal gets is ours to choose (docs/DECISIONS.md); document 02's E2 says which values come with it.
#![tactic(auto)]

ghost use Rattle.keeping.specs.Answers.{answer_times};
ghost use Rattle.refuting.specs.Answers.{answer_arcs};
ghost use Rattle.std.specs.Prelude.{Ok};
ghost use Rattle.values.specs.Handed.{Refused, GivenOr};

use keeping::TimesHeld;
use refuting::ArcsHeld;
use values::{Answered, give, refuse};

// That on proposed times, refused by any number.
pub fn of_times<R: Into<u8>>(held: Result<TimesHeld, R>, values: &mut [u64]) -> Answered
    ensures { GivenOr (λ h. answer_times (Ok h)) (Refused R.converts) held values.old result values.new }
{
    match held {
        Ok(TimesHeld::Accepted) => give(values, 0, &[]),
        Ok(
            TimesHeld::Broken {
                position,
                kind,
                to,
                from,
            },
        ) => give(
            values,
            102,
            &[position as u64, kind as u64, to as u64, from as u64],
        ),
        Err(reason) => refuse(values, reason),
    }
}

// That on proposed arcs, refused by any number.
pub fn of_arcs<R: Into<u8>>(held: Result<ArcsHeld, R>, values: &mut [u64]) -> Answered
    ensures { GivenOr (λ h. answer_arcs (Ok h)) (Refused R.converts) held values.old result values.new }
{
    match held {
        Ok(ArcsHeld::Accepted) => give(values, 0, &[]),
        Ok(ArcsHeld::Bad { index }) => give(values, 103, &[index as u64]),
        Ok(ArcsHeld::NotClosed) => give(values, 104, &[]),
        Ok(ArcsHeld::LeftTwice) => give(values, 105, &[]),
        Ok(ArcsHeld::NotSmallest) => give(values, 106, &[]),
        Ok(ArcsHeld::NotAbove) => give(values, 107, &[]),
        Err(reason) => refuse(values, reason),
    }
}
