#![tactic(auto)]

// What is an area's own, in tables that all areas share, area after area: its legs, its nodes, the free ones first, and its sources; and where each
// area's own stands.
ghost use Rattle.std.specs.Prelude.{◌+◌, ◌≤◌, ◌<◌, ◌≡◌};
ghost use Rattle.whole.specs.Plain.{length};
ghost use Rattle.paper.specs.Limits as Limits;
ghost use Rattle.laws_facts.specs.Nets.{net_in};
ghost use Rattle.plan_own.specs.Owns.{Given, Tables, Room, Ours, Behind, Laid};
ghost use Rattle.plan_own.specs.Owns.{Unprepared};

use paper::Node;
use plan_record::Record;
use plan_rows::{Table, Totals};
use step_legs::{Source, Wire};

// Where an area's own stands: legs, nodes (the free ones first), sources; and the step before which what is prepared for it serves, 0 where nothing is.
#[derive(Clone, Copy)]
pub struct Own {
    pub legs: usize,
    pub legs_end: usize,
    pub base: usize,
    pub free_end: usize,
    pub nodes_end: usize,
    pub sources: usize,
    pub sources_end: usize,
    pub until: usize,
}

impl Own {
    // nothing stands yet
    pub const NOTHING: Own = Own {
        legs: 0,
        legs_end: 0,
        base: 0,
        free_end: 0,
        nodes_end: 0,
        sources: 0,
        sources_end: 0,
        until: 0,
    };
}

// one for each area
pub type Owns = [Own; Node::PLACES];

// ---- areas

// The three tables are three arguments: each caller has them as arrays of its own or as C lends them, so a struct of the three is no plainer.
// Area a's own, behind what stands already: from an Own whose ends say how far the tables are filled to where area a's own stands.
pub fn lay_area(
    net: Record<'_>,
    plan: &Table,
    area: &[usize; Node::PLACES],
    fixed: &[bool; Node::PLACES],
    totals: Totals,
    a: usize,
    at: Own,
    legs: &mut [Wire],
    nodes: &mut [usize],
    sources: &mut [Source],
) -> Own
    requires given { Given net.words.now plan.now area.now fixed.now totals }
    requires tables { Tables legs.old nodes.old sources.old × ((1 ≤ a) × Room (net_in net.words.now) a at) }
    ensures ours { Ours (net_in net.entry.words.now) a result legs.new nodes.new sources.new }
    ensures behind { Behind at result legs.old nodes.old sources.old legs.new nodes.new sources.new }
{
    let legs_end = plan_lay::lay_legs(plan, totals.rows, a, at.legs_end, legs);
    let free_end = plan_lay::lay_nodes(area, fixed, false, totals.nodes, a, at.nodes_end, nodes);
    let nodes_end = plan_lay::lay_nodes(area, fixed, true, totals.nodes, a, free_end, nodes);
    let sources_end = plan_lay::lay_sources(net, area, totals.rows, a, at.sources_end, sources);
    Own {
        legs: at.legs_end,
        legs_end,
        base: at.nodes_end,
        free_end,
        nodes_end,
        sources: at.sources_end,
        sources_end,
        until: 0,
    }
}

// All areas in turn.
pub fn lay_all(
    net: Record<'_>,
    plan: &Table,
    area: &[usize; Node::PLACES],
    fixed: &[bool; Node::PLACES],
    totals: Totals,
    legs: &mut [Wire],
    nodes: &mut [usize],
    sources: &mut [Source],
    owns: &mut Owns,
)
    requires given { Given net.words.now plan.now area.now fixed.now totals }
    requires tables { Tables legs.old nodes.old sources.old × (length owns.old ≡ Limits.node_end + 1) }
    ensures laid { Laid (net_in net.entry.words.now) owns.new legs.new nodes.new sources.new }
    ensures unprepared { Unprepared (net_in net.entry.words.now) owns.new }
{
    let mut at = Own::NOTHING;
    for a in 1..=totals.areas {
        at = lay_area(net, plan, area, fixed, totals, a, at, legs, nodes, sources);
        owns[a] = at;
    }
}
