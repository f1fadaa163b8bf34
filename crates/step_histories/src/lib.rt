#![tactic(auto)]

// Each leg's history at a step: what an L or a C holds since the last one, what a line's end receives.
ghost use Rattle.std.specs.Prelude.{◌≤◌, ◌<◌, ◌≡◌};
ghost use Rattle.whole.specs.Plain.{map, nat_abs, length, word};
ghost use Rattle.paper.specs.Limits as Limits;
ghost use Rattle.paper.specs.Records as Records;
ghost use Rattle.plan_rows.specs.Planned.{row_in};
ghost use Rattle.step_legs.specs.Wires.{Wired};
ghost use Rattle.step_own.specs.Ends.{facing, Kept};
ghost use Rattle.step_histories.specs.Heard.{Ring, Sent, sent_by, received_by, history_of, heard_leg, Hears};

use paper::{Side, kinds, sections};
use plan_rows::{Row, Table};
use step_legs::Wire;

// What a leg's row holds, as its end sees it: "a history has the sign its current has in leaving that node".
fn held(records: &[i64], l: Wire) -> i64
    requires row_and_length { (l.row < Limits.row_end) × (length records.now ≡ Limits.record_words) }
    requires held_bound { nat_abs (word records.now (Records.history_at l.row)) ≤ Limits.history_end }
    ensures { result ≡ facing l.end (word records.now (Records.history_at l.row)) }
{
    let h = records[sections::HISTORIES + l.row];
    match l.side() {
        Side::From => h,
        Side::To => -h,
    }
}

// What a line's far end sent d steps before step k, 0 before step 1.
fn sent<'a>(r: Row, side: Side, froms: &'a [i64], tos: &'a [i64], k: usize, d: usize) -> i64
    requires ring { Ring r }
    requires store_lengths { (length froms.now ≡ Limits.store_words) × (length tos.now ≡ Limits.store_words) }
    ensures { result ≡ sent_by r side froms.now tos.now k d }
{
    step_received::received(froms, tos, side, r.place, r.slots, k, d)
}

// What a line's end receives at step k: "the value sent at step k - q plus (that of step k - q - 1 minus it) · r / step, rounded down". Where r is 0 the
// older value is not read.
fn received<'a>(r: Row, side: Side, froms: &'a [i64], tos: &'a [i64], k: usize) -> i64
    requires { Ring r × Sent froms.now tos.now }
    ensures { result ≡ received_by r side froms.now tos.now k }
{
    let newer = sent(r, side, froms, tos, k, r.delay);
    if r.rest == 0 {
        return newer;
    }
    let older = sent(r, side, froms, tos, k, r.delay + 1);
    num_share::mixed(newer, older, r.rest as u64, r.step as u64)
}

// One leg's history at step k. Of an R or a SW, which holds nothing, the records' 0 is read.
fn history<'a>(
    plan: &Table,
    l: Wire,
    records: &[i64],
    froms: &'a [i64],
    tos: &'a [i64],
    k: usize,
) -> i64
    requires wired { Wired l × Kept records.now froms.now tos.now }
    requires ring { l.kind ≡ 4 → Ring (row_in plan.now l.row) }
    ensures { result ≡ history_of plan.now records.now froms.now tos.now k l }
{
    if l.kind == kinds::LINE {
        received(plan[l.row], l.side(), froms, tos, k)
    } else {
        held(records, l)
    }
}

// All legs' histories at step k, each into its leg.
pub fn hear<'a>(
    plan: &Table,
    legs: &mut [Wire],
    records: &[i64],
    froms: &'a [i64],
    tos: &'a [i64],
    k: usize,
)
    requires { Hears plan.now legs.old records.now froms.now tos.now }
    ensures { legs.new ≡ map (heard_leg plan.now records.now froms.now tos.now k) legs.old }
{
    for leg in legs.iter_mut() {
        leg.h = history(plan, *leg, records, froms, tos, k);
    }
}
