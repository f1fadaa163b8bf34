#![tactic(auto)]

// What a step of all areas lists: the lines of a full step; or, where an area was refused, the stop line.
ghost use Rattle.std.specs.Prelude.{◌+◌, ◌≤◌, ◌≡◌};
ghost use Rattle.whole.specs.Plain.{suc, length};
ghost use Rattle.paper.specs.Limits as Limits;
ghost use Rattle.paper.specs.Areas.{Net};
ghost use Rattle.list_digits.specs.Puts.{Puts};
ghost use Rattle.plan_net.specs.Of.{Of};
ghost use Rattle.list_turn.specs.Turned.{round_bytes, Listable};

use list_round::Stopped;
use plan_rows::{Table, Totals};

// After the step that follows the `taken` ones. Answers the next place in the buffer.
pub fn put_turn(
    plan: &Table,
    totals: Totals,
    records: &[i64],
    taken: usize,
    round: Result<(), Stopped>,
    out: &mut [u8],
    at: usize,
) -> usize
    requires listable { Listable plan.now totals records.now taken round }
    requires at_in_bounds { at + Limits.step_bytes ≤ length out.old }
    ensures { (N : Net) → Of N plan.now totals
        → Puts out.old at (round_bytes N (suc taken) records.now round) result out.new }
{
    let step = (taken + 1) as u64;
    match round {
        Ok(()) => list_step::put_step(plan, totals, records, step, out, at),
        Err(stopped) => {
            let number = call_answers::refusal_number(stopped.refusal);
            let place = call_answers::refusal_place(stopped.refusal);
            list_ends::put_stop(out, at, step, stopped.area, number, place)
        }
    }
}
