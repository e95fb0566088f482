// The lines of a report, put one after the other into a text.
// This crate knows how numbers, arcs, circuits, plans and refusals are spelled; it knows no call that gives them.
// It renders the lines of document 01's "The report", with a refusal's place (document 02, E1).
#![tactic(auto)]

ghost use Rattle.std.specs.Prelude.{◌≡◌, ◌∷◌, ◌+◌, ◌*◌, ◌/◌, ◌≤◌, ◌<◌, length};
ghost use Rattle.text.specs.Text.{decimal, space, Adds};
ghost use Rattle.lines.specs.Lines.{fraction, numbers_line, refused_line};
ghost use Rattle.lines.specs.Buffers.{four_line, arc_lines, circuit_text, times_lines, plan_text};

use fractions::Fraction;
use text::Text;

// A space and a number.
fn put_spaced(text: &mut Text, value: u64)
    requires { text.old.at < 800000 }
    ensures short { text.new.at ≤ text.old.at + 21 }
    ensures adds { Adds text.old (space ∷ decimal value) text.new }
{
    text.byte(b' ');
    text.number(value);
}

// A line of numbers.
fn put_numbers(text: &mut Text, numbers: &[u64])
    requires { (text.old.at < 600000) × (length numbers.now ≤ 12) }
    ensures short { text.new.at ≤ text.old.at + length numbers.now * 21 }
    ensures adds { Adds text.old (numbers_line numbers.now) text.new }
{
    let Some((&first, rest)) = numbers.split_first() else {
        return;
    };
    text.number(first);
    for &number in rest {
        put_spaced(text, number);
    }
    text.byte(b'\n');
}

// The arcs of a circuit, one a line: kind, position, to, from.
fn put_arcs(text: &mut Text, circuit: &[u8])
    requires { (text.old.at < 550000) × (length circuit.now ≤ 768) }
    ensures short { text.new.at ≤ text.old.at + 16128 }
    ensures adds { Adds text.old (arc_lines circuit.now (length circuit.now / 4)) text.new }
{
    let (arcs, _) = circuit.as_chunks::<4>();
    for arc in arcs {
        put_numbers(text, &arc.map(u64::from));
    }
}

// A circuit: a word and the arc count, then its arcs.
pub fn put_circuit(text: &mut Text, word: &[u8], circuit: &[u8])
    requires { (text.old.at < 500000) × (length word.now ≤ 100) × (length circuit.now ≤ 768) }
    ensures short { text.new.at ≤ text.old.at + 16250 }
    ensures adds { Adds text.old (circuit_text word.now circuit.now (length circuit.now / 4)) text.new }
{
    text.word(word);
    put_spaced(text, circuit.len() as u64 / 4);
    text.byte(b'\n');
    put_arcs(text, circuit);
}

// A fraction, as 5/1.
pub fn put_fraction(text: &mut Text, value: Fraction)
    requires { text.old.at < 800000 }
    ensures short { text.new.at ≤ text.old.at + 41 }
    ensures adds { Adds text.old (fraction value.top value.bottom) text.new }
{
    text.number(value.top);
    text.byte(b'/');
    text.number(value.bottom);
}

// The times of a plan, n at each position, one line per position.
fn put_positions(text: &mut Text, plan: &[u64], n: usize)
    requires { (text.old.at < 500000) × (1 ≤ n) × (n ≤ 12) × (length plan.now ≤ 192) }
    ensures short { text.new.at ≤ text.old.at + 4032 }
    ensures adds { Adds text.old (times_lines plan.now n (length plan.now / n)) text.new }
{
    for times in plan.chunks_exact(n) {
        put_numbers(text, times);
    }
}

// The plan: q and rounds, then its times.
pub fn put_plan(text: &mut Text, q: u64, rounds: u64, plan: &[u64], n: usize, positions: usize)
    requires { (text.old.at < 400000) × (1 ≤ n) × (n ≤ 12) × (positions ≤ 16) × (positions * n ≤ length plan.now) }
    ensures short { text.new.at ≤ text.old.at + 4100 }
    ensures adds { Adds text.old (plan_text q rounds plan.now n positions) text.new }
{
    text.word(b"plan");
    put_spaced(text, q);
    put_spaced(text, rounds);
    text.byte(b'\n');
    put_positions(text, &plan[..positions * n], n);
}

// A refusal: its number, which may be any, and its place in the file.
pub fn put_refused(text: &mut Text, number: u8, place: usize)
    requires { text.old.at < 700000 }
    ensures short { text.new.at ≤ text.old.at + 50 }
    ensures adds { Adds text.old (refused_line number place) text.new }
{
    text.word(b"refused");
    put_spaced(text, u64::from(number));
    put_spaced(text, place as u64);
    text.byte(b'\n');
}
