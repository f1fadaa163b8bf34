#![tactic(auto)]

// A node's voltage, its largest magnitude and the first step where it came, asked by node number: 9, 8, 10 as far as it is of the records, 2 where there is
// no such node. Nothing is lent to be written.
ghost use Rattle.std.specs.Prelude.{Ok, ◌≤◌, ◌≡◌};
ghost use Rattle.whole.specs.Plain.{true, length};
ghost use Rattle.paper.specs.Limits as Limits;
ghost use Rattle.paper.specs.Areas.{Net};
ghost use Rattle.paper.specs.Network.{is_network};
ghost use Rattle.paper.specs.Looking as Paper;
ghost use Rattle.paper.specs.Looking.{look_net, Looks};
ghost use Rattle.laws_facts.specs.Nets.{net_in};

use paper::{Looking, Node, Room, Told, Unlooked, sections};
use plan_rows::Row;

// What the records say of a node that is there.
fn told(records: &[i64], n: usize) -> Told
    requires { (1 ≤ n) × (n ≤ Limits.node_end) × (length records.now ≡ Limits.record_words) }
    ensures { (N : Net) → Ok result ≡ Paper.told N records.now n }
{
    let voltage = records[sections::VOLTS + n - 1];
    let peak = records[sections::PEAKS + n - 1];
    let step = records[sections::PEAK_STEPS + n - 1];
    Told {
        voltage,
        peak: whole::magnitude(peak),
        step: whole::magnitude(step),
    }
}

// 10, 2, or what is asked for, of a network that passes.
fn on_network(net: &[i64], records: &[i64], n: usize) -> Looking
    requires { (is_network net.now ≡ true) × (length records.now ≡ Limits.record_words) }
    ensures { result ≡ look_net (net_in net.now) records.now n }
{
    let mut areas = [0; Node::PLACES];
    let mut plan = [Row::NONE; Room::ROWS];
    let totals = plan_rows::make(net, &mut areas, &mut plan);
    if !call_state::records_formed(&plan, &areas, totals, records) {
        return Err(Unlooked::State);
    }
    if n < 1 || totals.nodes < n {
        return Err(Unlooked::Node);
    }
    Ok(told(records, n))
}

pub fn node(network: &[i64], records: &[i64], n: usize) -> Looking
    ensures { Looks network.now records.now n result }
{
    if records.len() != Room::RECORDS {
        return Err(Unlooked::Store);
    }
    call_network::admit(network)?;
    on_network(network, records, n)
}
