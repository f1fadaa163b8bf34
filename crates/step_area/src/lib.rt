#![tactic(auto)]

// One step of one area, from the tables: 14 to 17 in turn, or the step is taken and written. What is kept for the positions of the area's switches is
// renewed where one has changed or parted.
ghost use Rattle.paper.specs.Advance.{memory};
ghost use Rattle.step_area.specs.Going.{Going, Steps};

use paper::Advance;
use plan_own::Owns;
use plan_rows::Table;
use step_factors::Matrix;
use step_legs::{Source, Wire};
use step_take::Turn;

// The area's step, once no far area is waited for. Where a breaker has parted, what was kept for the area serves no more.
// The tables are lent one by one and are no struct: each caller has each of them as an array of its own or as C lends it.
pub fn ready(
    plan: &Table,
    owns: &mut Owns,
    legs: &mut [Wire],
    nodes: &[usize],
    sources: &[Source],
    factors: &mut Matrix,
    records: &mut [i64],
    froms: &mut [i64],
    tos: &mut [i64],
    turn: Turn,
) -> Advance
    requires { Going plan.now owns.old legs.old nodes.now sources.now factors.old records.old
        froms.old tos.old turn }
    ensures { Steps plan.now nodes.now sources.now turn owns.old legs.old factors.old
        (memory records.old froms.old tos.old) result owns.new legs.new factors.new (memory records.new froms.new tos.new) }
{
    step_keep::renew(plan, owns, legs, nodes, factors, records, turn.area, turn.k)?;
    let o = owns[turn.area];
    let parted = step_take::stepped(
        plan, legs, nodes, sources, factors, records, froms, tos, o, turn,
    )?;
    if parted {
        owns[turn.area].until = 0;
    }
    Ok(turn.k as u64)
}
