#![tactic(auto)]

// What is kept for an area from step to step, for the positions of its switches: renewed where one has changed or parted.
ghost use Rattle.std.specs.Prelude.{◌≡◌};
ghost use Rattle.step_keep.specs.Tabled.{Known, Renews};

use plan_own::Owns;
use plan_rows::Table;
use step_factors::Matrix;
use step_legs::Wire;
use step_prepare::Floating;

// What is kept for the area then serves step k.
pub fn renew(
    plan: &Table,
    owns: &mut Owns,
    legs: &mut [Wire],
    nodes: &[usize],
    factors: &mut Matrix,
    records: &[i64],
    area: usize,
    k: usize,
) -> Result<(), Floating>
    requires { Known k records.now plan.now owns.old legs.old nodes.now factors.old area }
    ensures { Renews k area records.now plan.now nodes.now owns.old legs.old factors.old result owns.new
        legs.new factors.new }
{
    let o = owns[area];
    if k < o.until {
        return Ok(());
    }
    match step_prepare::prepare(
        plan,
        &mut legs[o.legs..o.legs_end],
        &nodes[o.base..o.free_end],
        o.base,
        factors,
        records,
        k,
    ) {
        Ok(until) => {
            owns[area].until = until;
            Ok(())
        }
        Err(floating) => Err(floating),
    }
}
