// The rounds, from table 0 until one changes nothing, or N of them.
// This crate knows how they begin, over a list laid out once, and what they come to; it knows no plan and no circuit.
// It renders document 01's "Rounds".
#![tactic(auto)]

ghost use Rattle.std.specs.Prelude.{◌≡◌, List, ◌*◌, ◌≤◌, length, replicate};
ghost use Rattle.edges.specs.declared.Record.{Record};
ghost use Rattle.layout.specs.Records.{laid_out, Laid};
ghost use Rattle.turns.specs.Rounds.{round_of, Parts, Ran};

use edges::Record;
use turns::jobs::Job;

// What the rounds came to: how many changed something, and a node that the last of them raised.
#[derive(Clone, Copy)]
pub struct Last {
    pub rounds: usize,
    pub node: usize,
}

// Lays out the list, and runs rounds over it from table 0, which is all zeros, until one changes nothing, or N of them. The times are then their
// last table, and the row has the arc that raised each node last. The list stands here, and is lent to those who fill and walk it: handed on by
// value, it would stand on the stack twice.
pub fn run(job: &Job, times: &mut [u64], row: &mut [u16]) -> Last
    requires { (job.now.sheet.m ≤ 8) × (job.now.sheet.m * (4 * (job.now.sheet.n * job.now.sheet.n)) ≤ length job.now.sheet.tables.now) × ((l : List Record) → Laid (laid_out job.now.sheet.tables.now job.now.sheet.n job.now.sheet.m) l → Parts l job.now.sheet.n job.now.start job.now.sheet.schedule.now job.now.sheet.positions) × (times.old ≡ replicate 192 0) × (length row.old ≡ 192) }
    ensures { (l : List Record) × Laid (laid_out job.now.sheet.tables.now job.now.sheet.n job.now.sheet.m) l × Ran (round_of l job.now) (job.now.sheet.positions * job.now.sheet.n) result.rounds result.node times.new row.new }
{
    let mut old = [0; tables::NODES];
    let left = job.sheet.positions * job.sheet.n * job.sheet.positions;
    let begin = turns::turn_at(left, 0, 0, 0, job);
    let blank = Record {
        kind: 0,
        to: 0,
        from: 0,
        w: 0,
    };
    let mut list = [blank; tables::PLACES];
    layout::lay_out(&job.sheet, &mut list);
    let end = walk::walk(&list, begin, job, &mut old, times, row);
    Last {
        rounds: end.round,
        node: end.node,
    }
}
