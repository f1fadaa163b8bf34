#![tactic(auto)]

// One step of one area tried, on what is kept for its switches' positions: 15, 16 and 17 in turn, or the voltages. Nothing lent for the study is written.
ghost use Rattle.std.specs.Prelude.{◌-◌, ◌≡◌};
ghost use Rattle.whole.specs.Plain.{ℕ, drop, nat};
ghost use Rattle.paper.specs.Areas.{Net};
ghost use Rattle.plan_rows.specs.Planned.{row_in};
ghost use Rattle.step_legs.specs.Sums.{none};
ghost use Rattle.step_legs.specs.Written.{SameBut};
ghost use Rattle.step_flow.specs.Past.{first_past};
ghost use Rattle.step_flow.specs.Beyond.{first_row};
ghost use Rattle.step_try.specs.Trying.{Trying, Known, Judging, in_flow, Tries};

use paper::{Advance, Node, Refusal};
use plan_rows::Table;
use step_factors::Matrix;
use step_legs::{Source, Wire};

// What a step is tried at: where the area's factors begin, the step, and the limit of what may be out of balance.
#[derive(Clone, Copy)]
pub struct At {
    pub base: usize,
    pub k: usize,
    pub limit: i64,
}

// 16 and 17, from what leaves each node and what is injected, that of node 1 in the place `one`, and from what each leg has of the step.
fn judged(
    plan: &Table,
    legs: &[Wire],
    free: &[usize],
    leaving: &[i64; Node::PLACES],
    injected: &[i64],
    one: usize,
    at: At,
) -> Advance
    requires { Judging legs.now free.now (drop 1 leaving.now) (drop one injected.now) at }
    ensures { result
        ≡ in_flow at.k
        (first_past (nat at.limit) (drop 1 leaving.now) (drop one injected.now) free.now) (first_row legs.now)
        (row_in plan.now (first_row legs.now - 1)).number }
{
    if let Some(node) = step_flow::balance(leaving, injected, one, free, at.limit) {
        return Err(Refusal::Unbalanced(node as u64));
    }
    if let Some(row) = step_flow::first_beyond(legs) {
        return Err(Refusal::History(plan[row].number as u64));
    }
    Ok(at.k as u64)
}

// The voltages go into v, by node: they hold where the step can be taken. What is injected, by node, serves twice: to find the voltages, and beside the
// currents that then leave, to judge them.
pub fn try_step<'a>(
    plan: &Table,
    sources: &[Source],
    free: &[usize],
    legs: &mut [Wire],
    factors: &Matrix,
    records: &[i64],
    froms: &'a [i64],
    tos: &'a [i64],
    at: At,
    v: &mut [i64; Node::PLACES],
) -> Advance
    requires { Known plan.now sources.now free.now legs.old factors.now records.now froms.now tos.now
        at × (v.old ≡ none) }
    ensures tries { (N : Net) (a : ℕ)
        → Trying N a plan.now sources.now free.now legs.old factors.now records.now froms.now tos.now at
        → Tries N a at.k records.now froms.now tos.now legs.new result v.new }
    ensures same_but { SameBut legs.old legs.new }
{
    let mut injected = [0; Node::PLACES];
    step_sources::drive(sources, at.k, v, &mut injected);
    step_histories::hear(plan, legs, records, froms, tos, at.k);
    step_solve::solve(legs, free, &injected, factors, at.base, v)?;
    let leaving = step_flow::flow(legs, v);
    judged(plan, legs, free, &leaving, &injected, 1, at)
}
