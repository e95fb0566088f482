// The walk over the list of records: the arcs of one turn, one after the other, and turn after turn while one is left.
// This crate knows how the list is lent, a mode's part at each position where it stands; what an arc and a turn do is in `turns`.
// It renders document 01's "laid out once as a list of records and each round walks the list".
#![tactic(auto)]

ghost use Rattle.std.specs.Prelude.{◌≡◌, ℕ, ◌*◌, ◌<◌, length, get_or};
ghost use Rattle.layout.specs.Records.{listed};
ghost use Rattle.turns.specs.Rounds.{Able, board, after, passed, round_of, turn_of, Parts, Ran};

use edges::Record;
use turns::Turn;
use turns::jobs::Job;

// The records of a turn, lent as a part of the list, one after the other.
fn pass(records: &[Record], turn: Turn, old: &[u64], new: &mut [u64], row: &mut [u16])
    requires { (i : ℕ) → i < length records.now → Able (listed records.now i) turn.at old.now new.old row.old }
    ensures { board new.new row.new ≡ after old.now (passed turn.at records.now) (board new.old row.old) }
{
    for &record in records {
        turns::step(record, turn, old, new, row);
    }
}

// Walks the list, the part of a position's mode at each turn, while turns are left. No `for`: a turn says how many are left, and a round that
// changed nothing leaves none.
pub fn walk(
    list: &[Record; tables::PLACES],
    begin: Turn,
    job: &Job,
    old: &mut [u64],
    new: &mut [u64],
    row: &mut [u16],
) -> Turn
    requires { Parts list.now job.now.sheet.n job.now.start job.now.sheet.schedule.now job.now.sheet.positions × (begin ≡ turn_of (job.now.sheet.positions * job.now.sheet.n * job.now.sheet.positions) 0 0 0 job.now) × (new.old ≡ old.old) × ((v : ℕ) → get_or old.old v 0 ≡ 0) × (length old.old ≡ 192) × (length row.old ≡ 192) }
    ensures { Ran (round_of list.now job.now) (job.now.sheet.positions * job.now.sheet.n) result.round result.node new.new row.new }
{
    let mut turn = begin;
    while 0 < turn.left {
        pass(&list[turn.first..turn.last], turn, old, new, row);
        turn = turns::next(turn, job, old, new);
    }
    turn
}
