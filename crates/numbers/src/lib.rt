// The numbers of the sheet file: groups of seven bits, and limits as numbers that are not negative.
// This crate knows one number at a time, and the form in which something is refused; it knows no sheet.
// It renders document 01's "All numbers are in groups of seven bits" and "Value v is written as 2v", and document 02's E1: a number's place.
#![tactic(auto)]

pub mod refusals;

ghost use Rattle.std.specs.Prelude.{◌≡◌, ◌≤◌, ◌<◌, length};
ghost use Rattle.std.proofs.lemmas.List.Edits.{sets};
ghost use Rattle.numbers.specs.Groups as spec;
ghost use Rattle.numbers.specs.Groups.{followed, groups, grouped};
ghost use Rattle.numbers.specs.Refusals.{read};
ghost use Rattle.numbers.specs.Signs.{encoded, decoded, signed};
ghost use Rattle.numbers.specs.Bounds.{Below};

use refusals::{Reason, Refusal};

// A number of the file: its value, the place at which it began and the place after it.
#[derive(Clone, Copy, Debug, PartialEq, Eq)]
pub struct Number {
    pub value: usize,
    pub at: usize,
    pub next: usize,
}

const GROUPS: usize = 4;

// The group at a place, marked as followed, with what comes after it: the number began there.
fn follow(first: usize, low: usize, rest: Result<Number, Refusal>) -> Result<Number, Refusal>
    requires low { low < 128 }
    requires rest { Below 2097152 (read rest) }
    ensures { read result ≡ followed first low (read rest) }
{
    match rest {
        Ok(rest) => {
            let is_needless = rest.value == 0;
            if is_needless {
                return Err(Refusal {
                    reason: Reason::NotShortest,
                    at: first,
                });
            }
            Ok(Number {
                value: low + rest.value * 128,
                at: first,
                next: rest.next,
            })
        }
        Err(Refusal { reason, at: _ }) => Err(Refusal { reason, at: first }),
    }
}

// The number at a place, in at most `left` groups.
fn number_in(file: &[u8], at: usize, left: usize) -> Result<Number, Refusal>
    requires { left ≤ 4 }
    ensures { read result ≡ spec.number_in left file.now at }
{
    if left == 0 {
        return Err(Refusal {
            reason: Reason::NotShortest,
            at,
        });
    }
    if file.len() <= at {
        return Err(Refusal {
            reason: Reason::CutShort,
            at,
        });
    }
    let byte = usize::from(file[at]);
    let next = at + 1;
    if byte < 128 {
        return Ok(Number {
            value: byte,
            at,
            next,
        });
    }
    follow(at, byte % 128, number_in(file, next, left - 1))
}

// The number that starts at a place of the file, which may be past its end. A refusal is 1 or 2, and its place is the number's own.
pub fn number_at(file: &[u8], at: usize) -> Result<Number, Refusal>
    ensures { read result ≡ spec.number_at file.now at }
{
    number_in(file, at, GROUPS)
}

// Writes at most `left` groups of the value from a place on, as far as there is room. One number is put, so place and buffer stay two parameters.
fn put_in(out: &mut [u8], at: usize, value: usize, left: usize)
    ensures { out.new ≡ sets out.old at (grouped left value) }
{
    if left == 0 {
        return;
    }
    if out.len() <= at {
        return;
    }
    if value < 128 {
        out[at] = value as u8;
        return;
    }
    out[at] = (value % 128 + 128) as u8;
    put_in(out, at + 1, value / 128, left - 1);
}

// How many groups a value takes.
fn size(value: usize) -> usize
    ensures { result ≡ length (groups value) }
{
    match value {
        0..128 => 1,
        128..16384 => 2,
        16384..2097152 => 3,
        2097152.. => 4,
    }
}

// Writes the groups of a value from a place on, as far as there is room, and gives their count.
// So a buffer with no room is a way to measure.
pub fn put(out: &mut [u8], at: usize, value: usize) -> usize
    ensures { (result ≡ length (groups value)) × (out.new ≡ sets out.old at (groups value)) }
{
    put_in(out, at, value, GROUPS);
    size(value)
}

// The number that a limit is written as. The mapping is by hand, both ways: document 01 names this form.
pub fn encode(v: i32) -> u32
    ensures { result ≡ encoded v }
{
    if v < 0 {
        ((!v) as u32) * 2 + 1
    } else {
        (v as u32) * 2
    }
}

// A number of a sign and a size: -size - 1 where it is negative.
fn with_sign(negative: bool, size: u32) -> i32
    requires { size < 2147483648 }
    ensures { result ≡ signed negative size }
{
    let v = size as i32;
    if negative { !v } else { v }
}

// The limit that is written as a number.
pub fn decode(u: u32) -> i32
    ensures { result ≡ decoded u }
{
    with_sign(u % 2 == 1, u / 2)
}
