#![tactic(auto)]

// The listing by pieces: full step after full step into a lent buffer, until the next might not fit, an area is refused or the study is done.
ghost use Rattle.std.specs.Prelude.{◌≤◌, ◌≡◌, Ok};
ghost use Rattle.whole.specs.Plain.{length};
ghost use Rattle.paper.specs.Limits as Limits;
ghost use Rattle.paper.specs.Advance.{memory};
ghost use Rattle.list_pieces.specs.Begun.{step_of, Beginning, Pieces};

use list_round::{Step, Stopped};
use paper::{Node, Pause, Room};
use plan_own::Owns;
use plan_rows::{Table, Totals};
use step_legs::{Source, Wire};

// Where the listing leaves off, and how many bytes of it stand in the buffer.
#[derive(Clone, Copy)]
pub struct Piece {
    pub pause: Pause,
    pub count: usize,
}

// The step that follows the `taken` ones.
fn step_of(totals: Totals, taken: usize) -> Step
    ensures { result ≡ step_of totals taken }
{
    Step {
        taken,
        areas: totals.areas,
        limit: totals.limit,
    }
}

// From a state in step, with nothing prepared for any area: the factors are this call's own.
pub fn steps_on(
    plan: &Table,
    totals: Totals,
    owns: &mut Owns,
    legs: &mut [Wire],
    nodes: &[usize],
    sources: &[Source],
    records: &mut [i64],
    froms: &mut [i64],
    tos: &mut [i64],
    out: &mut [u8],
) -> Piece
    requires beginning { Beginning plan.now totals owns.old legs.old nodes.now sources.now records.old froms.old
        tos.old }
    requires in_bounds { Limits.step_bytes ≤ length out.old }
    ensures { Pieces plan.now totals owns.old legs.old nodes.now sources.now (memory records.old froms.old tos.old)
        out.old (Ok result.pause) result.count out.new (memory records.new froms.new tos.new) }
{
    let mut factors = [[0.0; Node::MAX as usize]; Node::MAX as usize];
    let mut at = 0;
    let taken = call_counts::steps_taken(records, totals.areas, totals.steps);
    for k in taken..totals.steps {
        if out.len() - at < Room::STEP_BYTES {
            return Piece {
                pause: Pause::More,
                count: at,
            };
        }
        let step = step_of(totals, k);
        let round = list_round::all_areas(
            plan,
            owns,
            legs,
            nodes,
            sources,
            &mut factors,
            records,
            froms,
            tos,
            step,
        );
        at = list_turn::put_turn(plan, totals, records, k, round, out, at);
        if let Err(Stopped { area, refusal }) = round {
            return Piece {
                pause: Pause::Stopped(area, refusal),
                count: at,
            };
        }
    }
    let count = list_ends::put_done(out, at, totals.steps as u64);
    Piece {
        pause: Pause::Done,
        count,
    }
}
