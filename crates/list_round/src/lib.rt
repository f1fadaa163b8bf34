#![tactic(auto)]

// One step of all areas, in rising order: "advances areas in rising order step by step".
ghost use Rattle.std.specs.Prelude.{◌<◌, ◌≡◌};
ghost use Rattle.paper.specs.Limits as Limits;
ghost use Rattle.paper.specs.Advance.{memory};
ghost use Rattle.list_round.specs.Round.{turn_of, Startable, Runs};

use paper::Refusal;
use plan_own::Owns;
use plan_rows::Table;
use step_factors::Matrix;
use step_legs::{Source, Wire};
use step_take::Turn;

// The first area that did not take a step, and why.
#[derive(Clone, Copy)]
pub struct Stopped {
    pub area: u64,
    pub refusal: Refusal,
}

// Which step, by those that all areas have taken; how many areas there are; and the limit of what may be out of balance.
#[derive(Clone, Copy)]
pub struct Step {
    pub taken: usize,
    pub areas: usize,
    pub limit: i64,
}

// An area's turn in the step.
fn turn_of(step: Step, area: usize) -> Turn
    requires { step.taken < Limits.steps_end }
    ensures { result ≡ turn_of step area }
{
    Turn {
        area,
        k: step.taken + 1,
        limit: step.limit,
    }
}

// The areas of a state in step do not wait for one another.
pub fn all_areas(
    plan: &Table,
    owns: &mut Owns,
    legs: &mut [Wire],
    nodes: &[usize],
    sources: &[Source],
    factors: &mut Matrix,
    records: &mut [i64],
    froms: &mut [i64],
    tos: &mut [i64],
    step: Step,
) -> Result<(), Stopped>
    requires { Startable step plan.now owns.old legs.old nodes.now sources.now factors.old records.old
        froms.old tos.old }
    ensures { Runs step plan.now nodes.now sources.now owns.old legs.old factors.old
        (memory records.old froms.old tos.old) result owns.new legs.new factors.new (memory records.new froms.new tos.new) }
{
    for area in 1..=step.areas {
        let turn = turn_of(step, area);
        let answer = step_area::ready(
            plan, owns, legs, nodes, sources, factors, records, froms, tos, turn,
        );
        if let Err(refusal) = answer {
            let area = area as u64;
            return Err(Stopped { area, refusal });
        }
    }
    Ok(())
}
