// A circuit's own limit, from its sums: what the cycle time must reach, or must not pass.
// This crate knows four sums at a time; it knows no arc and no sheet.
// It renders document 01's "a circuit's total with q = 1 is W + c·(cycle time)" and the limits W/(-c) and -W/c of "Ends".
#![tactic(auto)]

ghost use Rattle.std.specs.Prelude.{◌-◌, ◌≤◌, ◌<◌};
ghost use Rattle.theory.specs.Ends.{Reduces};
ghost use Rattle.limits.specs.Limits.{Leads};

use fractions::Fraction;

// A circuit's sums: W is ups - downs, the total of its limits, and c is forths - backs, its kind-3 crossings less its kind-2 crossings.
#[derive(Clone, Copy, Debug, PartialEq, Eq)]
pub struct Weight {
    pub ups: u64,
    pub downs: u64,
    pub forths: u64,
    pub backs: u64,
}

// What a circuit above zero says of the climb: c below 0, and its limit is the next cycle time to try; or c at least 0, and nothing
// works, which it shows alone where W is above 0, and with the circuit before it where not.
#[derive(Clone, Copy, Debug, PartialEq, Eq)]
pub enum Climb {
    On(Fraction),
    Alone,
    Both,
}

// What a circuit above zero says of low: its limit, or that nothing works, alone or with the circuit before.
pub fn next_low(weight: Weight) -> Climb
    requires { weight.forths < weight.backs → weight.downs ≤ weight.ups }
    ensures { Leads weight result }
{
    if weight.forths < weight.backs {
        let limit = fractions::reduce(weight.ups - weight.downs, weight.backs - weight.forths);
        return Climb::On(limit);
    }
    if weight.downs < weight.ups {
        return Climb::Alone;
    }
    Climb::Both
}

// The limit of a circuit with c above 0.
pub fn next_high(weight: Weight) -> Fraction
    requires { (weight.backs < weight.forths) × (weight.ups ≤ weight.downs) }
    ensures { Reduces (weight.downs - weight.ups) (weight.forths - weight.backs) result.top result.bottom }
{
    fractions::reduce(weight.downs - weight.ups, weight.forths - weight.backs)
}
