// The lines of what Ends answers: the ends, or that there are none, and the circuits that show it.
// This crate knows the order of these lines; it knows neither how Ends finds them nor how an arc is spelled.
// It renders document 01's "The report", its lines before the plan.
#![tactic(auto)]

ghost use Rattle.std.specs.Prelude.{◌≡◌, ◌+◌, ◌*◌, ◌/◌, ◌≤◌, ◌<◌, length};
ghost use Rattle.text.specs.Text.{Adds};
ghost use Rattle.ends.specs.Answers.{highest, arcs_of};
ghost use Rattle.lines.specs.Lines.{high_spelled};
ghost use Rattle.lines.specs.Buffers.{high_text, ends_text, found_text, none_text};

use lines::{put_circuit, put_fraction};
use search::{NoTime, Stand};
use text::Text;

// The highest cycle time, or that there is none.
fn put_highest(text: &mut Text, high: Option<Stand>)
    requires { text.old.at < 800000 }
    ensures short { text.new.at ≤ text.old.at + 41 }
    ensures adds { Adds text.old (high_spelled (highest high)) text.new }
{
    match high {
        None => text.word(b"open"),
        Some(at) => put_fraction(text, at.time),
    }
}

// The first line of a sheet with ends.
fn put_ends(text: &mut Text, low: Stand, high: Option<Stand>)
    requires { text.old.at < 700000 }
    ensures short { text.new.at ≤ text.old.at + 100 }
    ensures adds { Adds text.old (ends_text low.time.top low.time.bottom (highest high)) text.new }
{
    text.word(b"ends");
    text.byte(b' ');
    put_fraction(text, low.time);
    text.byte(b' ');
    put_highest(text, high);
    text.byte(b'\n');
}

// The circuit of the highest cycle time, only if there is one.
fn put_high(text: &mut Text, high: Option<Stand>, circuit: &[u8])
    requires { (text.old.at < 500000) × (4 * arcs_of high ≤ length circuit.now) × (arcs_of high ≤ 192) }
    ensures short { text.new.at ≤ text.old.at + 16250 }
    ensures adds { Adds text.old (high_text (highest high) circuit.now (arcs_of high)) text.new }
{
    if let Some(at) = high {
        put_circuit(text, b"high", &circuit[..4 * at.arcs]);
    }
}

// A sheet with ends: these and the circuits that show them.
pub fn put_found(text: &mut Text, low: Stand, high: Option<Stand>, first: &[u8], second: &[u8])
    requires { (text.old.at < 400000) × (low.arcs ≤ 192) × (arcs_of high ≤ 192) × (4 * low.arcs ≤ length first.now) × (4 * arcs_of high ≤ length second.now) }
    ensures short { text.new.at ≤ text.old.at + 32600 }
    ensures adds { Adds text.old (found_text low.time.top low.time.bottom (highest high) first.now low.arcs second.now (arcs_of high)) text.new }
{
    put_ends(text, low, high);
    put_circuit(text, b"low", &first[..4 * low.arcs]);
    put_high(text, high, second);
}

// A sheet without ends: the circuits that show it.
pub fn put_none(text: &mut Text, none: NoTime, first: &[u8], second: &[u8])
    requires { (text.old.at < 400000) × (none.first ≤ 192) × (none.second ≤ 192) × (4 * none.first ≤ length first.now) × (4 * none.second ≤ length second.now) }
    ensures short { text.new.at ≤ text.old.at + 32600 }
    ensures adds { Adds text.old (none_text first.now none.first second.now none.second) text.new }
{
    text.word(b"none");
    text.byte(b'\n');
    put_circuit(text, b"first", &first[..4 * none.first]);
    put_circuit(text, b"second", &second[..4 * none.second]);
}
