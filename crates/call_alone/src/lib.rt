#![tactic(auto)]

// One area's step, from tables that hold this area alone: what a call that advances does once it has judged.
ghost use Rattle.std.specs.Prelude.{◌*◌, ◌≡◌};
ghost use Rattle.whole.specs.Plain.{length};
ghost use Rattle.paper.specs.Limits as Limits;
ghost use Rattle.paper.specs.Advance as Paper;
ghost use Rattle.paper.specs.Advance.{memory, advanced};
ghost use Rattle.laws_facts.specs.Nets.{net_in};
ghost use Rattle.step_factors.specs.Factors.{Square};
ghost use Rattle.step_take.specs.Stepping.{Stepping};
ghost use Rattle.call_judge.specs.Given.{Seen};

use call_judge::Ready;
use paper::{Advance, Node, Room};
use plan_own::Own;
use plan_record::Record;
use plan_rows::Table;
use step_factors::Matrix;
use step_legs::{Source, Wire};

// The step, 14 to 17 in turn.
pub fn alone(
    net: &[i64],
    plan: &Table,
    areas: &[usize; Node::PLACES],
    ready: Ready,
    records: &mut [i64],
    froms: &mut [i64],
    tos: &mut [i64],
    legs: &mut [Wire],
    factors: &mut Matrix,
) -> Advance
    requires seen { Seen net.now plan.now areas.now ready.totals }
    requires stepping { Stepping (net_in net.now) 1 ready.totals.areas ready.turn
        (memory records.old froms.old tos.old) }
    requires legs_len { (length legs.old ≡ 2 * Limits.row_end) × Square factors.old }
    ensures { advanced result (memory records.new froms.new tos.new)
        ≡ Paper.ready (net_in net.now) ready.turn.area ready.turn.k (memory records.old froms.old tos.old) }
{
    let totals = ready.totals;
    let turn = ready.turn;
    let net = Record { words: net };
    let fixed = plan_lay::fixed_nodes(net, totals.rows);
    let mut nodes = [0; Node::MAX as usize];
    let mut sources = [Source::NONE; Room::SOURCES];
    let mut owns = [Own::NOTHING; Node::PLACES];
    owns[turn.area] = plan_own::lay_area(
        net,
        plan,
        areas,
        &fixed,
        totals,
        turn.area,
        Own::NOTHING,
        legs,
        &mut nodes,
        &mut sources,
    );
    step_area::ready(
        plan, &mut owns, legs, &nodes, &sources, factors, records, froms, tos, turn,
    )
}
