#![tactic(auto)]

// What is judged before an area's step is tried: "Advancing: 9, 8, then 10 to 17", as far as 13. Nothing is written but the plan and the areas.
ghost use Rattle.std.specs.Prelude.{◌+◌, ◌≡◌};
ghost use Rattle.whole.specs.Plain.{true, length};
ghost use Rattle.paper.specs.Limits as Limits;
ghost use Rattle.paper.specs.Network.{is_network};
ghost use Rattle.paper.specs.One.{Advances};
ghost use Rattle.paper.specs.Advance.{memory};
ghost use Rattle.call_state.specs.Judged.{Long};
ghost use Rattle.call_judge.specs.Given.{turn_at};
ghost use Rattle.call_judge.specs.Judging.{OnNet, Judges};

use paper::{Node, Refusal};
use plan_rows::{Table, Totals};
use step_take::Turn;

// The step that the area may try, and the network's counts.
#[derive(Clone, Copy)]
pub struct Ready {
    pub totals: Totals,
    pub turn: Turn,
}

// Step k of an area, within the network's limit.
fn turn_at(totals: Totals, area: usize, k: usize) -> Turn
    ensures { result ≡ turn_at totals area k }
{
    Turn {
        area,
        k,
        limit: totals.limit,
    }
}

// 10, 11, 12 and 13 in turn, of a network that passes.
fn on_network(
    net: &[i64],
    records: &[i64],
    froms: &[i64],
    tos: &[i64],
    area: usize,
    areas: &mut [usize; Node::PLACES],
    plan: &mut Table,
) -> Result<Ready, Refusal>
    requires passes { (is_network net.now ≡ true) × Long records.now froms.now tos.now }
    requires long { (length areas.old ≡ Limits.node_end + 1) × (length plan.old ≡ Limits.row_end) }
    ensures { Judges (OnNet net.now area (memory records.now froms.now tos.now)) net.now area (memory records.now froms.now tos.now)
        result plan.new areas.new }
{
    let totals = plan_rows::make(net, areas, plan);
    if !call_state::well_formed(plan, areas, totals, records, froms, tos) {
        return Err(Refusal::State);
    }
    if area < 1 || totals.areas < area {
        return Err(Refusal::Area);
    }
    let taken = call_counts::count_of(records, area);
    if totals.steps <= taken {
        return Err(Refusal::Done);
    }
    let k = taken + 1;
    if let Some(late) = call_counts::first_late(plan, totals.rows, records, area, k) {
        let branch = plan[late].number;
        return Err(Refusal::Wait(branch as u64));
    }
    let turn = turn_at(totals, area, k);
    Ok(Ready { totals, turn })
}

// 9, 8, then the others.
pub fn judge(
    network: &[i64],
    records: &[i64],
    froms: &[i64],
    tos: &[i64],
    area: usize,
    areas: &mut [usize; Node::PLACES],
    plan: &mut Table,
) -> Result<Ready, Refusal>
    requires { (length areas.old ≡ Limits.node_end + 1) × (length plan.old ≡ Limits.row_end) }
    ensures { Judges (Advances network.now area (memory records.now froms.now tos.now)) network.now area
        (memory records.now froms.now tos.now) result plan.new areas.new }
{
    call_lent::admit(network, records, froms, tos)?;
    call_network::admit(network)?;
    on_network(network, records, froms, tos, area, areas, plan)
}
