#![tactic(auto)]

// What an area keeps for a position of its switches: its legs' conductances, that no node floats, and the factors of its matrix. A breaker's position is by
// its latch in the records.
ghost use Rattle.std.specs.Prelude.{◌≤◌, ◌≡◌};
ghost use Rattle.whole.specs.Plain.{ℕ, length};
ghost use Rattle.paper.specs.Limits as Limits;
ghost use Rattle.paper.specs.Areas.{Net};
ghost use Rattle.step_factors.specs.Factors.{Square};
ghost use Rattle.step_factors.specs.Blocks.{Renewed};
ghost use Rattle.step_prepare.specs.Serving.{refused_of, Standing, Known, Prepares};

use paper::Refusal;
use plan_rows::Table;
use step_factors::Matrix;
use step_legs::Wire;

// the lowest node of an area that floats: 14
#[derive(Clone, Copy)]
pub struct Floating {
    pub node: usize,
}

impl From<Floating> for Refusal {
    ghost from_gives = { λ floating refusal. refusal ≡ refused_of floating };

    fn from(floating: Floating) -> Refusal {
        Refusal::Floating(floating.node as u64)
    }
}

// The step before which what is prepared serves.
pub fn prepare(
    plan: &Table,
    legs: &mut [Wire],
    free: &[usize],
    base: usize,
    a: &mut Matrix,
    records: &[i64],
    k: usize,
) -> Result<usize, Floating>
    requires known { Known plan.now legs.old free.now base × Square a.old × (k ≤ Limits.steps_end) }
    requires records_len { length records.now ≡ Limits.record_words }
    ensures prepares { (N : Net) (n : ℕ) → Standing N n plan.now legs.old free.now base
        → Prepares N n k records.now base result legs.new a.new }
    ensures renewed { Renewed base (length free.now) a.old a.new }
{
    let until = step_conduct::conduct(plan, legs, records, k);
    if let Some(node) = step_floating::floating(legs, free) {
        return Err(Floating { node });
    }
    step_matrix::prepare(legs, free, base, a);
    Ok(until)
}
