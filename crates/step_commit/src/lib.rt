#![tactic(auto)]

// What an accepted step of one area writes: its count, its voltages and peaks, the words of its rows and latches, and what its line ends send. A leg has
// its current and what it passes on; nothing is worked out again.
ghost use Rattle.std.specs.Prelude.{◌≤◌, ◌≡◌};
ghost use Rattle.whole.specs.Plain.{length};
ghost use Rattle.paper.specs.Limits as Limits;
ghost use Rattle.step_records.specs.Records.{legs_put, records_put, Unparted, Recordable};
ghost use Rattle.step_send.specs.Stores.{is_from_end, is_to_end, sent_by, Sendable};

use paper::Node;
use plan_rows::Table;
use step_legs::Wire;

// What each leg writes, in one pass: its row's words, and "only the slots of its own line ends". Whether a breaker parted: where none did, every latch is as it was.
fn put_legs(
    plan: &Table,
    legs: &[Wire],
    records: &mut [i64],
    froms: &mut [i64],
    tos: &mut [i64],
    k: usize,
) -> bool
    requires sendable { Sendable plan.now legs.now froms.old tos.old }
    requires records_len { (length records.old ≡ Limits.record_words) × (k ≤ Limits.steps_end) }
    ensures records_value { records.new ≡ legs_put plan.now k legs.now records.old }
    ensures unparted { Unparted result records.old records.new }
    ensures froms_value { froms.new ≡ sent_by plan.now k is_from_end legs.now froms.old }
    ensures tos_value { tos.new ≡ sent_by plan.now k is_to_end legs.now tos.old }
{
    let mut parted = false;
    for &leg in legs {
        parted |= step_records::put_leg(plan, leg, records, k);
        step_send::send_leg(plan, leg, froms, tos, k);
    }
    parted
}

// All that an accepted step writes. Whether a breaker of the area parted: where none did, every latch is as it was.
pub fn commit(
    plan: &Table,
    legs: &[Wire],
    nodes: &[usize],
    v: &[i64; Node::PLACES],
    records: &mut [i64],
    froms: &mut [i64],
    tos: &mut [i64],
    area: usize,
    k: usize,
) -> bool
    requires recordable { Recordable legs.now nodes.now v.now records.old area k }
    requires sendable { Sendable plan.now legs.now froms.old tos.old }
    ensures records_value { records.new ≡ records_put plan.now legs.now nodes.now v.now area k records.old }
    ensures unparted { Unparted result records.old records.new }
    ensures froms_value { froms.new ≡ sent_by plan.now k is_from_end legs.now froms.old }
    ensures tos_value { tos.new ≡ sent_by plan.now k is_to_end legs.now tos.old }
{
    step_records::put_area(nodes, v, records, area, k);
    put_legs(plan, legs, records, froms, tos, k)
}
