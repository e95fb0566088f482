// An answer in numbers, handed over through C: its number returned, its values put into a lent list.
// This crate knows the form; it knows no call.
#![tactic(auto)]

ghost use Rattle.tables.specs.Answers.{answer};
ghost use Rattle.values.specs.Handed.{Given, Refused, RefusedAt};

// An answer that was handed over: its number, and how many values it has, also where the list has room for fewer.
#[derive(Clone, Copy, Debug, PartialEq, Eq)]
pub struct Answered {
    pub number: u32,
    pub count: usize,
}

// Hands an answer over: its values into the front of the list, as far as that reaches.
pub fn give(values: &mut [u64], number: u32, list: &[u64]) -> Answered
    ensures { Given (answer number list.now) values.old result values.new }
{
    // value by value: a copy of the whole front calls memcpy, which the checker's archive asks no host for
    for (k, &value) in list.iter().enumerate() {
        let is_inside = k < values.len();
        if is_inside {
            values[k] = value;
        }
    }
    Answered {
        number,
        count: list.len(),
    }
}

// Hands a refusal over: the number that its reason is, and no values.
pub fn refuse<R: Into<u8>>(values: &mut [u64], reason: R) -> Answered
    ensures { Refused R.converts reason values.old result values.new }
{
    give(values, u32::from(reason.into()), &[])
}

// Hands the refusal of a file over: the number that its reason is, and its place.
pub fn refuse_at<R: Into<(u8, usize)>>(values: &mut [u64], refusal: R) -> Answered
    ensures { RefusedAt R.converts refusal values.old result values.new }
{
    let (number, at) = refusal.into();
    give(values, u32::from(number), &[at as u64])
}
