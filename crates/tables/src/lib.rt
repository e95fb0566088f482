// A sheet in memory: n, m, V, the tables of its windows and its schedule.
// This crate knows what is admitted there (refusals 4, 5 and 6), and which cycle times are (10); it knows no file and no plan.
// It renders document 01's "Numbers and room".
#![tactic(auto)]

pub mod sheets;

ghost use Rattle.std.specs.Prelude.{◌≡◌, ◌&&◌, ◌≤◌, leb, not, count_by};
ghost use Rattle.tables.specs.Sheets.{within, admits, absent, places, timed};

use fractions::Fraction;

// "Numbers and room": four kinds; n 1..12; m 1..8; V 1..16; w -1,000,000..1,000,000; and "no window".
pub const KINDS: usize = 4;

pub const MOST_EVENTS: usize = 12;

pub const MOST_MODES: usize = 8;

pub const MOST_POSITIONS: usize = 16;

pub const MOST_LIMIT: i32 = 1000000;

pub const NO_WINDOW: i32 = -2147483648;

// "q 1..1000; p 0..1,000,000,000".
pub const MOST_Q: u64 = 1000;

pub const MOST_P: u64 = 1000000000;

// The most nodes, V·n of them.
pub const NODES: usize = MOST_POSITIONS * MOST_EVENTS;

// The most places of the tables, 4·m·n², and so the most windows.
pub const PLACES: usize = KINDS * MOST_MODES * (MOST_EVENTS * MOST_EVENTS);

// The numbers of the longest circuit: no node is left twice, and an arc is four numbers.
pub const CIRCUIT: usize = 4 * NODES;

// Whether a number lies from 1 to the most that it may be.
pub fn is_within(most: usize, number: usize) -> bool
    ensures { result ≡ within most number }
{
    (1..=most).contains(&number)
}

// Whether a table's value says that there is no window.
pub fn is_absent(value: i32) -> bool
    ensures { result ≡ absent value }
{
    value == NO_WINDOW
}

// Whether a value may stand in a table: a limit, or "no window".
pub fn is_admitted(value: i32) -> bool
    ensures { result ≡ admits value }
{
    is_absent(value) || (-MOST_LIMIT..=MOST_LIMIT).contains(&value)
}

// How many places the tables of m modes of n events need: 4·m·n².
pub fn places(n: usize, m: usize) -> usize
    requires { (n ≤ 12) × (m ≤ 8) }
    ensures { result ≡ places n m }
{
    KINDS * m * (n * n)
}

// How many of the places of a part of the tables say a window. By a `for`: a chain of `filter` and `count` takes twice the time.
pub fn count_windows(part: &[i32]) -> usize
    ensures { result ≡ count_by (λ v. not (absent v)) part.now }
{
    let mut count = 0;
    for &value in part {
        if !is_absent(value) {
            count += 1;
        }
    }
    count
}

// Whether p and q lie within their limits: refusal 10.
pub fn is_timed(time: Fraction) -> bool
    ensures { result ≡ timed time.top time.bottom }
{
    (1..=MOST_Q).contains(&time.bottom) && time.top <= MOST_P
}

// Whether two buffers have the places that are needed of each: 9, "a buffer to be written is too short". What they hold differs at each caller, so four
// numbers are plainer than a value that is made for one test.
pub fn is_roomy(need: usize, room: usize, other: usize, space: usize) -> bool
    ensures { result ≡ (leb need room && leb other space) }
{
    need <= room && other <= space
}
