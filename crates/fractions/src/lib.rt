// Fractions: two numbers, whatever they are, and in lowest terms.
// This crate knows two numbers at a time; it knows no circuit, and not which cycle times a call takes.
// It renders document 01's "fractions in lowest terms, with bottom at least 1".
#![tactic(auto)]

ghost use Rattle.std.specs.Prelude.{◌<◌};
ghost use Rattle.theory.specs.Ends.{Greatest, Reduces};

// top/bottom.
#[derive(Clone, Copy, Debug, PartialEq, Eq)]
pub struct Fraction {
    pub top: u64,
    pub bottom: u64,
}

// The greatest common divisor, by recursion: the remainder falls.
pub fn gcd(a: u64, b: u64) -> u64
    ensures { Greatest result a b }
{
    if b == 0 { a } else { gcd(b, a % b) }
}

// The fraction top/bottom in lowest terms.
pub fn reduce(top: u64, bottom: u64) -> Fraction
    requires { 0 < bottom }
    ensures { Reduces top bottom result.top result.bottom }
{
    let divisor = gcd(top, bottom);
    Fraction {
        top: top / divisor,
        bottom: bottom / divisor,
    }
}
