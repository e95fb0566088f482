// Ask: does the cycle time p/q work for a sheet in memory?
// This crate knows the earliest plan with its count of rounds, and when a circuit is given instead; it knows no file.
// It renders document 01's "Rounds", "Circuits" and the line on Ask in "Numbers a call can answer".
#![tactic(auto)]

ghost use Rattle.std.specs.Prelude.{◌≡◌, ◌*◌, ◌≤◌, true, length};
ghost use Rattle.tables.specs.Lent.{lent};
ghost use Rattle.calls.specs.Ask.{roomy, Outcome};
ghost use Rattle.ask.specs.Answers.{answer_asked, LeadsBack, Finishes, Settles};

use circuits::Marks;
use edges::lines::Line;
use fractions::Fraction;
use numbers::refusals::Reason;
use rounds::Last;
use tables::sheets::Sheet;
use turns::jobs::Job;

// The answer: the rounds of an acceptance, or the arc count of a refutation.
#[derive(Clone, Copy, Debug, PartialEq, Eq)]
pub enum Asked {
    Accepted { rounds: u64 },
    Refuted { arcs: u64 },
}

// Writes what the rounds came to: their table as the plan, or the circuit that their row of marks leads to.
fn finish(marks: &Marks, last: Last, times: &[u64], plan: &mut [u64], circuit: &mut [u8]) -> Asked
    requires { LeadsBack marks.now.row.now marks.now.n marks.now.positions last.rounds last.node × (marks.now.positions * marks.now.n ≤ 192) × (marks.now.positions * marks.now.n ≤ length times.now) × (marks.now.positions * marks.now.n ≤ length plan.old) × (4 * (marks.now.positions * marks.now.n) ≤ length circuit.old) }
    ensures { Finishes marks.now.row.now marks.now.n marks.now.positions last.rounds last.node times.now plan.old circuit.old result plan.new circuit.new }
{
    let nodes = marks.positions * marks.n;
    let rounds = last.rounds;
    let node = last.node;
    let stood_still = rounds < nodes;
    if stood_still {
        turns::write_times(times, nodes, plan);
        return Asked::Accepted {
            rounds: rounds as u64,
        };
    }
    let arcs = circuits::refute(marks, node, circuit);
    Asked::Refuted { arcs: arcs as u64 }
}

// Decides: runs the rounds, and writes the plan or the circuit.
fn decide(line: &Line, plan: &mut [u64], circuit: &mut [u8]) -> Asked
    requires { roomy (lent line.now.sheet) plan.old circuit.old ≡ true }
    ensures { Settles (lent line.now.sheet) line.now.time.top line.now.time.bottom plan.old circuit.old result plan.new circuit.new }
{
    let sheet = line.sheet;
    let start = layout::starts(&sheet);
    let job = Job {
        sheet,
        time: line.time,
        start,
    };
    let mut times = [0; tables::NODES];
    let mut row = [0; tables::NODES];
    let last = rounds::run(&job, &mut times, &mut row);
    let marks = Marks {
        n: sheet.n,
        positions: sheet.positions,
        row: &row,
    };
    finish(&marks, last, &times, plan, circuit)
}

// Does the cycle time p/q work? Accepted with the rounds, and the earliest plan in the first N places of `plan`; refuted with the arc
// count, and a circuit with total above zero in the first places of `circuit`, four numbers an arc; or refused, for 4, 5, 6, 10 or 9.
pub fn ask(
    sheet: &Sheet,
    time: Fraction,
    plan: &mut [u64],
    circuit: &mut [u8],
) -> Result<Asked, Reason>
    ensures { Outcome (lent sheet.now) time.top time.bottom plan.old circuit.old (answer_asked result) plan.new circuit.new }
{
    let line = Line::judge(sheet, time)?;
    let nodes = sheet.positions * sheet.n;
    if !tables::is_roomy(nodes, plan.len(), 4 * nodes, circuit.len()) {
        return Err(Reason::Room);
    }
    Ok(decide(&line, plan, circuit))
}
