#![tactic(auto)]

// The conductances of an area's legs at a step, and how long they stay: "R and closed SW: i = g·u. Open SW: i = 0 and no conductance."
ghost use Rattle.std.specs.Prelude.{◌≤◌, ◌<◌, ◌≡◌};
ghost use Rattle.whole.specs.Plain.{length};
ghost use Rattle.paper.specs.Limits as Limits;
ghost use Rattle.step_conduct.specs.Conducted.{row_of_wire, opening_of, open_of, conducts_of, opening_at, Sooner, Stays};
ghost use Rattle.step_conduct.specs.Conducted.{Rated, RatedWire, conducted, Conducted};

use paper::{Switching, kinds, sections};
use plan_rows::{Row, Table};
use step_legs::Wire;

// Past the last step of any study, and past the last change of any switch: a number, for it stands among the steps at which switches open and is compared
// with them.
const NEVER: usize = Switching::MAX as usize + 1;

// The step from which a switch that has closed is open again: an SWT's own; an SW's the one after it has parted, which its latch tells, and none before.
// A row has its kind as a number, since C lends it (plan_rows::Row).
fn opening(r: Row, latch: i64) -> usize
    ensures { result ≡ opening_of r latch }
{
    if r.kind != kinds::SW {
        return r.opens;
    }
    if 0 < latch { latch as usize + 1 } else { NEVER }
}

// Whether it is open at step k: before its closing step, and from `opens` on.
fn is_open(r: Row, opens: usize, k: usize) -> bool
    ensures { result ≡ open_of k opens r }
{
    kinds::is_switch(r.kind) && (k < r.closes || opens <= k)
}

// "Open SW: i = 0 and no conductance."
fn conducting(r: Row, opens: usize, k: usize) -> usize
    ensures { result ≡ conducts_of k opens r }
{
    if is_open(r, opens, k) { 0 } else { r.g }
}

// the change, where it is after step k and before `until`
fn sooner(until: usize, k: usize, change: usize) -> usize
    ensures { Sooner until k change result }
{
    if k < change { until.min(change) } else { until }
}

// the first step after k at which the row's switch changes, or `until` where that comes first
fn next_change(r: Row, opens: usize, k: usize, until: usize) -> usize
    ensures { Stays k opens r until result }
{
    if !kinds::is_switch(r.kind) {
        return until;
    }
    let closing = sooner(until, k, r.closes);
    sooner(closing, k, opens)
}

// The leg's conductance at step k, into it; how long it and those before it stay, as far as the latches tell.
fn conduct_leg(plan: &Table, leg: &mut Wire, records: &[i64], k: usize, until: usize) -> usize
    requires leg_rated { RatedWire plan.now leg.old }
    requires records_len { length records.now ≡ Limits.record_words }
    ensures leg_value { leg.new ≡ conducted plan.now records.now k leg.old }
    ensures stays { Stays k (opening_at plan.now records.now leg.old) (row_of_wire plan.now leg.old) until result }
{
    let r = plan[leg.row];
    let opens = opening(r, records[sections::LATCHES + leg.row]);
    leg.g = conducting(r, opens, k) as i64;
    next_change(r, opens, k, until)
}

// All of them; the first step after k at which one of their switches changes.
pub fn conduct(plan: &Table, legs: &mut [Wire], records: &[i64], k: usize) -> usize
    requires rated { Rated plan.now legs.old × (k ≤ Limits.steps_end) }
    requires records_len { length records.now ≡ Limits.record_words }
    ensures { Conducted plan.now records.now k (length legs.old) legs.old legs.new result }
{
    let mut until = NEVER;
    for leg in legs.iter_mut() {
        until = conduct_leg(plan, leg, records, k, until);
    }
    until
}
