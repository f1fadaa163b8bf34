#![tactic(auto)]

// How a network is laid out, asked of its record alone: how many areas it has, a node's area, a branch's row. 9, 8, 2 where there is no such node or branch.
// Nothing is lent to be written.
ghost use Rattle.std.specs.Prelude.{◌≤◌, ◌≡◌};
ghost use Rattle.whole.specs.Plain.{suc, length};
ghost use Rattle.whole.specs.Named.{placed};
ghost use Rattle.paper.specs.Limits as Limits;
ghost use Rattle.plan_rows.specs.Planned as Plan;
ghost use Rattle.call_shape.specs.Asked as Paper;
ghost use Rattle.call_shape.specs.Asked.{asked_number, told_number, unasked_of, place_from};

use paper::{Node, Room, Unfit};
use plan_rows::{Row, Table};

// Why a question has no answer: there is no such node or branch; 8, 9.
#[derive(Clone, Copy)]
pub enum Unasked {
    Nothing,
    Network,
    Store,
}

// What a question comes to: a number, or why there is none.
pub type Asked = Result<u64, Unasked>;

impl From<Unfit> for Unasked {
    ghost from_gives = { λ unfit unasked. unasked ≡ unasked_of unfit };

    fn from(unfit: Unfit) -> Unasked {
        match unfit {
            Unfit::Network => Unasked::Network,
            Unfit::Store => Unasked::Store,
        }
    }
}

pub fn asked_number(answer: Asked) -> u64
    ensures { result ≡ asked_number answer }
{
    match answer {
        Ok(_) => 0,
        Err(Unasked::Nothing) => 2,
        Err(Unasked::Network) => 8,
        Err(Unasked::Store) => 9,
    }
}

pub fn told_number(answer: Asked) -> u64
    ensures { result ≡ told_number answer }
{
    answer.unwrap_or(0)
}

// The place of the first of so many rows up to which so many branches are counted.
fn place_of(plan: &Table, rows: usize, branch: usize) -> Option<usize>
    requires { rows ≤ Limits.row_end }
    ensures { result ≡ placed (place_from (λ i. (Plan.row_in plan.now i).number) branch 0 rows) }
{
    for i in 0..rows {
        if plan[i].number == branch {
            return Some(i);
        }
    }
    None
}

// The three lay the network out in tables of their own: answered by value, these would be copied.
pub fn areas(network: &[i64]) -> Asked
    ensures { result ≡ Paper.areas_asked network.now }
{
    call_network::admit(network)?;
    let mut areas = [0; Node::PLACES];
    let mut plan = [Row::NONE; Room::ROWS];
    let totals = plan_rows::make(network, &mut areas, &mut plan);
    Ok(totals.areas as u64)
}

pub fn area(network: &[i64], node: usize) -> Asked
    ensures { result ≡ Paper.area_asked network.now node }
{
    call_network::admit(network)?;
    let mut areas = [0; Node::PLACES];
    let mut plan = [Row::NONE; Room::ROWS];
    let totals = plan_rows::make(network, &mut areas, &mut plan);
    if node < 1 || totals.nodes < node {
        return Err(Unasked::Nothing);
    }
    let area = areas[node];
    Ok(area as u64)
}

pub fn row(network: &[i64], branch: usize) -> Asked
    ensures { result ≡ Paper.row_asked network.now branch }
{
    call_network::admit(network)?;
    let mut areas = [0; Node::PLACES];
    let mut plan = [Row::NONE; Room::ROWS];
    let totals = plan_rows::make(network, &mut areas, &mut plan);
    if branch < 1 {
        return Err(Unasked::Nothing);
    }
    let Some(place) = place_of(&plan, totals.rows, branch) else {
        return Err(Unasked::Nothing);
    };
    Ok(place as u64 + 1)
}
