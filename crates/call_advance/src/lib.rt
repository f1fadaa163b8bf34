#![tactic(auto)]

// An area's advance, with tables of its own. "Advancing: 9, 8, then 10 to 17"; "Every refusal leaves all lent memory unchanged."
ghost use Rattle.paper.specs.One.{Advances};
ghost use Rattle.paper.specs.Advance.{memory};

use paper::{Advance, Node, Room};
use plan_rows::Row;
use step_legs::Wire;

// A call that is refused pays for the plan alone: through call_room's, which clears lent tables, every call would pay for the legs and factors twice, a
// refused one too.
pub fn advance(
    network: &[i64],
    records: &mut [i64],
    froms: &mut [i64],
    tos: &mut [i64],
    area: usize,
) -> Advance
    ensures { Advances network.now area (memory records.old froms.old tos.old) result (memory records.new froms.new tos.new) }
{
    let mut areas = [0; Node::PLACES];
    let mut plan = [Row::NONE; Room::ROWS];
    let ready = call_judge::judge(network, records, froms, tos, area, &mut areas, &mut plan)?;
    let mut legs = [Wire::NONE; 2 * Room::ROWS];
    let mut factors = [[0.0; Node::MAX as usize]; Node::MAX as usize];
    call_alone::alone(
        network,
        &plan,
        &areas,
        ready,
        records,
        froms,
        tos,
        &mut legs,
        &mut factors,
    )
}
