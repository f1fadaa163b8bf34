#![tactic(auto)]

// An area's advance in lent tables. "Advancing: 9, 8, then 10 to 17"; "Every refusal leaves all lent memory unchanged."
ghost use Rattle.paper.specs.One.{Advances};
ghost use Rattle.paper.specs.Advance.{memory};

use paper::{Advance, Node, Room};
use plan_rows::{Row, Table};
use step_factors::Matrix;
use step_legs::Wire;

// two legs for each row
pub type Legs = [Wire; 2 * Room::ROWS];

// The tables lent: whatever stands in them is cleared first, and nothing is promised of what is left there. A call that is refused pays for the plan alone.
pub fn advance_in(
    network: &[i64],
    records: &mut [i64],
    froms: &mut [i64],
    tos: &mut [i64],
    area: usize,
    plan: &mut Table,
    legs: &mut Legs,
    factors: &mut Matrix,
) -> Advance
    ensures { Advances network.now area (memory records.old froms.old tos.old) result (memory records.new froms.new tos.new) }
{
    let mut areas = [0; Node::PLACES];
    *plan = [Row::NONE; Room::ROWS];
    let ready = call_judge::judge(network, records, froms, tos, area, &mut areas, plan)?;
    *legs = [Wire::NONE; 2 * Room::ROWS];
    *factors = [[0.0; Node::MAX as usize]; Node::MAX as usize];
    call_alone::alone(
        network, plan, &areas, ready, records, froms, tos, legs, factors,
    )
}
