#![tactic(auto)]

// The areas' counts of steps, by the plan: how far those at a line's two ends may part, and a breaker's latch against that of its area (parts of refusal 10);
// when an area must wait (refusal 13), and how many steps all have taken.
ghost use Rattle.std.specs.Prelude.{◌≤◌, ◌<◌, ◌≡◌};
ghost use Rattle.whole.specs.Plain.{length, every, numbers};
ghost use Rattle.whole.specs.Named.{placed};
ghost use Rattle.paper.specs.Areas.{Net};
ghost use Rattle.paper.specs.Records.{count_of};
ghost use Rattle.paper.specs.Advance.{first_late};
ghost use Rattle.paper.specs.Limits as Limits;
ghost use Rattle.call_counts.specs.Counts.{CountIn, CountsIn, LineIn, BreakerIn, Counted, near_by, waits_by};
ghost use Rattle.call_counts.specs.Counts.{latch_formed_by, latched_by};
ghost use Rattle.call_counts.specs.Lines.{RowsOf};
ghost use Rattle.call_counts.specs.Level.{taken_by, took_all};

use paper::{kinds, sections};
use plan_rows::{Row, Table};

// How many steps area a has taken.
pub fn count_of(records: &[i64], a: usize) -> usize
    requires { CountIn records.now a }
    ensures { result ≡ count_of records.now a }
{
    let word = records[sections::COUNTS + (a - 1)];
    word as usize
}

// "areas at a line's two ends differ by at most d in count"
pub fn near(r: Row, records: &[i64]) -> bool
    requires { LineIn records.now r }
    ensures { result ≡ near_by records.now r }
{
    if r.kind != kinds::LINE {
        return true;
    }
    let from = count_of(records, r.from_area);
    let to = count_of(records, r.to_area);
    (from <= to + r.delay) & (to <= from + r.delay)
}

// Not "a set latch that is below open - 1, not above close or past the area's count".
fn latch_formed(r: Row, latch: i64, count: usize) -> bool
    requires { count ≤ Limits.steps_end }
    ensures { result ≡ latch_formed_by r latch count }
{
    let Ok(step) = usize::try_from(latch) else {
        return false;
    };
    if step == 0 {
        return true;
    }
    if count < step {
        return false;
    }
    r.may_part(step)
}

// The same of the row in place i, where it is an SW.
pub fn latched(r: Row, records: &[i64], i: usize) -> bool
    requires { BreakerIn records.now r × (i < Limits.row_end) × (length records.now ≡ Limits.record_words) }
    ensures { result ≡ latched_by records.now r i }
{
    if r.kind != kinds::SW {
        return true;
    }
    let count = count_of(records, r.from_area);
    latch_formed(r, records[sections::LATCHES + i], count)
}

// 13 WAIT: "a far area's count is below k - d"
fn waits_for(r: Row, records: &[i64], area: usize, k: usize) -> bool
    requires { LineIn records.now r }
    ensures { result ≡ waits_by area k records.now r }
{
    if r.kind != kinds::LINE {
        return false;
    }
    let from = count_of(records, r.from_area);
    let to = count_of(records, r.to_area);
    ((r.from_area == area) & (to + r.delay < k)) | ((r.to_area == area) & (from + r.delay < k))
}

// The first row that the area's step k waits for.
pub fn first_late(
    plan: &Table,
    rows: usize,
    records: &[i64],
    area: usize,
    k: usize,
) -> Option<usize>
    requires { Counted plan.now rows records.now }
    ensures { (N : Net) → RowsOf N plan.now rows → result ≡ placed (first_late N area k records.now 0 N.rows) }
{
    for i in 0..rows {
        if waits_for(plan[i], records, area, k) {
            return Some(i);
        }
    }
    None
}

// How many steps all areas have taken, where they have taken as many: area 1 tells; without areas, all of them.
pub fn steps_taken(records: &[i64], areas: usize, steps: usize) -> usize
    requires { CountsIn records.now areas }
    ensures { result ≡ taken_by records.now areas steps }
{
    if areas < 1 {
        return steps;
    }
    count_of(records, 1)
}

// Whether each area has taken so many.
pub fn all_taken(records: &[i64], areas: usize, taken: usize) -> bool
    requires { CountsIn records.now areas }
    ensures { result ≡ every (took_all records.now taken) (numbers 1 areas) }
{
    let mut all = true;
    for a in 1..=areas {
        all = all & (count_of(records, a) == taken);
    }
    all
}
