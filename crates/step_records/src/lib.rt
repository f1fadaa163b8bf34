#![tactic(auto)]

// What an accepted step of one area writes into the records: its count, its nodes' voltages and peaks, the words of its rows, the latches of breakers that part. A leg's
// line has its current and what it passes on; nothing is worked out again.
ghost use Rattle.std.specs.Prelude.{◌≤◌, ◌<◌, ◌≡◌, ◌&&◌};
ghost use Rattle.whole.specs.Plain.{eqb, pos, nat_abs, length};
ghost use Rattle.paper.specs.Limits as Limits;
ghost use Rattle.step_legs.specs.Shares.{Volts};
ghost use Rattle.step_latch.specs.Parting.{leg_parts};
ghost use Rattle.step_records.specs.Records.{node_put, nodes_put, area_put, leg_put, Nodes};

use paper::{Node, Side, kinds, sections};
use plan_rows::Table;
use step_legs::Wire;

// A node's voltage; and its peak and the peak's step, at step 1 and where the magnitude is greater than any before.
fn put_node(n: usize, x: i64, records: &mut [i64], k: usize)
    requires n_bound { (n ≤ Limits.node_end) × (nat_abs x ≤ Limits.voltage_end) × (k ≤ Limits.steps_end) }
    requires records_len { length records.old ≡ Limits.record_words }
    ensures { records.new ≡ node_put k n x records.old }
{
    records[sections::VOLTS + n - 1] = x;
    let reached = x.abs();
    let peak = records[sections::PEAKS + n - 1];
    if (k == 1) | (peak < reached) {
        records[sections::PEAKS + n - 1] = reached;
        records[sections::PEAK_STEPS + n - 1] = k as i64;
    }
}

// The voltages and peaks of the area's nodes, in one pass.
fn put_nodes(nodes: &[usize], v: &[i64; Node::PLACES], records: &mut [i64], k: usize)
    requires nodes { Nodes nodes.now × Volts v.now × (k ≤ Limits.steps_end) }
    requires records_len { length records.old ≡ Limits.record_words }
    ensures { records.new ≡ nodes_put k v.now nodes.now records.old }
{
    for &n in nodes {
        put_node(n, v[n], records, k);
    }
}

// The area's count, and its nodes' voltages and peaks.
pub fn put_area(
    nodes: &[usize],
    v: &[i64; Node::PLACES],
    records: &mut [i64],
    area: usize,
    k: usize,
)
    requires nodes { Nodes nodes.now × Volts v.now × (length records.old ≡ Limits.record_words) }
    requires le_area { (1 ≤ area) × (area ≤ Limits.node_end) × (k ≤ Limits.steps_end) }
    ensures { records.new ≡ area_put k v.now nodes.now area records.old }
{
    records[sections::COUNTS + (area - 1)] = k as i64;
    put_nodes(nodes, v, records, k);
}

// A leg's part of its row's words: at the from end the current, the history of an L or a C, and the latch of an SW that parts; a line's current at its to
// end. Whether a breaker parted. An L or a C is asked for first: none of them is a breaker.
pub fn put_leg(plan: &Table, l: Wire, records: &mut [i64], k: usize) -> bool
    requires { (l.row < Limits.row_end) × (length records.old ≡ Limits.record_words) × (k ≤ Limits.steps_end) }
    ensures records_value { records.new ≡ leg_put plan.now k l records.old }
    ensures value { result ≡ (eqb l.end 1 && leg_parts plan.now k l records.old) }
{
    let row = l.row;
    match (l.side(), l.kind) {
        (Side::From, kinds::L | kinds::C) => {
            records[sections::CURRENTS + row] = l.current;
            records[sections::HISTORIES + row] = l.passed;
            false
        }
        (Side::From, _) => {
            let parted = step_latch::part(plan, l, records, k);
            records[sections::CURRENTS + row] = l.current;
            parted
        }
        (Side::To, kinds::LINE) => {
            records[sections::TO_CURRENTS + row] = l.current;
            false
        }
        (Side::To, _) => false,
    }
}
