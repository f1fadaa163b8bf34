#![tactic(auto)]

// An area's own legs, nodes and sources, each put into a table behind what stands there already: its legs with what the network alone settles of them.
// A table and the place to fill next are two arguments: `plan_own` keeps the places of all tables in one `Own`, so a struct of the two is no plainer.
// Legs, nodes and sources each have their loop: what they go over differs, so one over a closure is no plainer.
ghost use Rattle.std.specs.Prelude.{◌+◌, ◌≤◌, ◌<◌, ◌≡◌};
ghost use Rattle.whole.specs.Plain.{true, eqb, length};
ghost use Rattle.paper.specs.Limits as Limits;
ghost use Rattle.paper.specs.Rows.{is_source};
ghost use Rattle.paper.specs.Sides.{side_number};
ghost use Rattle.laws_facts.specs.Nets.{net_in, row_at};
ghost use Rattle.plan_record.specs.Mapped.{Mapped};
ghost use Rattle.plan_ends.specs.Own.{pace_of};
ghost use Rattle.plan_rows.specs.Planned.{owner_in};
ghost use Rattle.plan_lay.specs.Grown.{Grown, Put};
ghost use Rattle.plan_lay.specs.Ends.{far_in, frame_in, legs_by};
ghost use Rattle.plan_lay.specs.Flags.{flag_row, Flagged};
ghost use Rattle.plan_lay.specs.Nodes.{node_by, nodes_by};
ghost use Rattle.plan_lay.specs.Sources.{source_by, line_by, sources_by};

use paper::{Kind, Node, Side, kinds};
use plan_record::Record;
use plan_rows::{Row, Table};
use step_legs::{Source, Wire};

// ---- legs

// One end of row i, at place m where it is the area's; the place to fill next.
fn lay_end(r: Row, i: usize, side: Side, a: usize, m: usize, legs: &mut [Wire]) -> usize
    requires { eqb (owner_in r (side_number side)) a ≡ true → m < length legs.old }
    ensures { Put (eqb (owner_in r (side_number side)) a) (frame_in r i (side_number side)) m
        legs.old result legs.new }
{
    if r.owner(side) != a {
        return m;
    }
    legs[m] = Wire {
        near: r.node(side),
        far: far_node(r, side),
        row: i,
        end: number(side),
        kind: r.kind,
        ..Wire::NONE
    };
    m + 1
}

// an end as the table has it, 1 the from end and 2 the to end
fn number(side: Side) -> usize
    ensures { result ≡ side_number side }
{
    match side {
        Side::From => 1,
        Side::To => 2,
    }
}

// the other node of an end; a line's end is a leg to ground
fn far_node(r: Row, side: Side) -> usize
    ensures { result ≡ far_in r (side_number side) }
{
    if r.kind == kinds::LINE {
        return 0;
    }
    match side {
        Side::From => r.to,
        Side::To => r.from,
    }
}

// The area's legs from place m on, in table order; where they end.
pub fn lay_legs(plan: &Table, rows: usize, a: usize, m: usize, legs: &mut [Wire]) -> usize
    requires rows_bound { rows ≤ Limits.row_end }
    requires rows_in_bounds { m + length (legs_by plan.now a rows) ≤ length legs.old }
    ensures { Grown legs.old m (legs_by plan.now a rows) result legs.new }
{
    let mut t = m;
    for i in 0..rows {
        let r = plan[i];
        t = lay_end(r, i, Side::From, a, t, legs);
        t = lay_end(r, i, Side::To, a, t, legs);
    }
    t
}

// ---- nodes

// row i's flag: "A node with a VS is fixed"; "A VC fixes its node like a VS."
fn flag_row(net: Record<'_>, i: usize, flags: &mut [bool; Node::PLACES])
    requires { i < length (net_in net.words.now).rows }
    ensures { flags.new ≡ flag_row (net_in net.entry.words.now) i flags.old }
{
    if net.kind(i).is_fixing() {
        let node = net.number(i, 1);
        flags[node] = true;
    }
}

// The fixed nodes, as flags by node.
pub fn fixed_nodes(net: Record<'_>, rows: usize) -> [bool; Node::PLACES]
    requires { rows ≡ length (net_in net.words.now).rows }
    ensures { Flagged (net_in net.entry.words.now) result }
{
    let mut flags = [false; Node::PLACES];
    for i in 0..rows {
        flag_row(net, i, &mut flags);
    }
    flags
}

// Node n at place m, where it is the area's and fixed or not as asked; the place to fill next.
fn lay_node(
    area: &[usize; Node::PLACES],
    fixed: &[bool; Node::PLACES],
    held: bool,
    a: usize,
    n: usize,
    m: usize,
    nodes: &mut [usize],
) -> usize
    requires n_bound { n ≤ Limits.node_end }
    requires m_in_bounds { node_by area.now fixed.now held a n ≡ true → m < length nodes.old }
    ensures { Put (node_by area.now fixed.now held a n) n m nodes.old result nodes.new }
{
    if area[n] != a || fixed[n] != held {
        return m;
    }
    nodes[m] = n;
    m + 1
}

// The area's fixed nodes, or its free ones, from place m on, "in rising order"; where they end.
pub fn lay_nodes(
    area: &[usize; Node::PLACES],
    fixed: &[bool; Node::PLACES],
    held: bool,
    count: usize,
    a: usize,
    m: usize,
    nodes: &mut [usize],
) -> usize
    requires count_bound { count ≤ Limits.node_end }
    requires count_in_bounds { m + length (nodes_by area.now fixed.now held a count) ≤ length nodes.old }
    ensures { Grown nodes.old m (nodes_by area.now fixed.now held a count) result nodes.new }
{
    let mut t = m;
    for n in 1..=count {
        t = lay_node(area, fixed, held, a, n, t, nodes);
    }
    t
}

// ---- sources

// The rise of row i, a source; a VC has minus its pace there: "step · frequency", by how much its phase goes on at each step.
fn pace(net: Record<'_>, i: usize) -> i64
    requires i_in_bounds { i < length (net_in net.words.now).rows }
    requires i_value { is_source (row_at (net_in net.words.now) i) ≡ true }
    ensures { result ≡ pace_of (net_in net.entry.words.now) (row_at (net_in net.entry.words.now) i) }
{
    let last = net.value(i, 4);
    match net.kind(i) {
        Kind::Vc => -(net.words[0] * last),
        _ => last,
    }
}

// Row i at place m, where it is a source of the area's; the place to fill next.
fn lay_source(
    net: Record<'_>,
    area: &[usize; Node::PLACES],
    a: usize,
    i: usize,
    m: usize,
    sources: &mut [Source],
) -> usize
    requires i_in_bounds { i < length (net_in net.words.now).rows }
    requires mapped { Mapped (net_in net.words.now) area.now
        × (source_by (net_in net.words.now) a i ≡ true → m < length sources.old) }
    ensures { Put (source_by (net_in net.entry.words.now) a i) (line_by (net_in net.entry.words.now) i) m
        sources.old result sources.new }
{
    let kind = net.kind(i);
    if !kind.is_source() {
        return m;
    }
    let node = net.number(i, 1);
    if area[node] != a {
        return m;
    }
    sources[m] = Source {
        kind,
        node,
        peak: net.value(i, 2),
        start: net.value(i, 3),
        pace: pace(net, i),
    };
    m + 1
}

// The area's sources from place m on, in table order; where they end.
pub fn lay_sources(
    net: Record<'_>,
    area: &[usize; Node::PLACES],
    rows: usize,
    a: usize,
    m: usize,
    sources: &mut [Source],
) -> usize
    requires rows_value { rows ≡ length (net_in net.words.now).rows }
    requires mapped { Mapped (net_in net.words.now) area.now
        × (m + length (sources_by (net_in net.words.now) a rows) ≤ length sources.old) }
    ensures { Grown sources.old m (sources_by (net_in net.entry.words.now) a rows) result sources.new }
{
    let mut t = m;
    for i in 0..rows {
        t = lay_source(net, area, a, i, t, sources);
    }
    t
}
