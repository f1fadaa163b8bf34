#![tactic(auto)]

// When a breaker parts, and its latch (02): "A closed switch now parts after the first step k, at or after open - 1 and later than its closing step, at which its
// current is zero or of opposite sign to that of step k - 1".
ghost use Rattle.std.specs.Prelude.{◌≤◌, ◌<◌, ◌≡◌};
ghost use Rattle.whole.specs.Plain.{length};
ghost use Rattle.paper.specs.Limits as Limits;
ghost use Rattle.paper.specs.Latch as Latch;
ghost use Rattle.step_latch.specs.Parting.{parts_by, leg_parts, latch_put};

use paper::{kinds, sections};
use plan_rows::{Row, Table};
use step_legs::Wire;

// "zero or of opposite sign": zero has no opposite sign. By signs, for the product of two currents fits no word.
fn crosses(before: i64, now: i64) -> bool
    ensures { result ≡ Latch.crosses before now }
{
    if now < 0 {
        return 0 < before;
    }
    if 0 < now {
        return before < 0;
    }
    true
}

// Whether it parts at step k: not once it has, by its latch.
fn parts(r: Row, before: i64, now: i64, latch: i64, k: usize) -> bool
    requires { k ≤ Limits.steps_end }
    ensures { result ≡ parts_by k r before now latch }
{
    let parted = 0 < latch;
    !parted && r.may_part(k) && crosses(before, now)
}

// A leg that is an SW's: its latch is set where it parts at step k. The current in the records is still that of the step before.
pub fn part(plan: &Table, l: Wire, records: &mut [i64], k: usize) -> bool
    requires { (l.row < Limits.row_end) × (length records.old ≡ Limits.record_words) × (k ≤ Limits.steps_end) }
    ensures value { result ≡ leg_parts plan.now k l records.old }
    ensures records_value { records.new ≡ latch_put plan.now k l records.old }
{
    if l.kind != kinds::SW {
        return false;
    }
    let row = l.row;
    let last = records[sections::CURRENTS + row];
    let latch = records[sections::LATCHES + row];
    if !parts(plan[row], last, l.current, latch, k) {
        return false;
    }
    records[sections::LATCHES + row] = k as i64;
    true
}
