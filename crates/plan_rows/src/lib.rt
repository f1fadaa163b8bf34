#![tactic(auto)]

// What a step needs of a network record that passes refusal 8, and that follows from it alone: each row decoded once, the counts, and the areas by node.
ghost use Rattle.std.specs.Prelude.{◌+◌, ◌≤◌, ◌<◌, ◌≡◌};
ghost use Rattle.whole.specs.Plain.{suc, true, cond, length, word, nat};
ghost use Rattle.paper.specs.Limits as Limits;
ghost use Rattle.paper.specs.Rows as Rows;
ghost use Rattle.paper.specs.Kinds.{number};
ghost use Rattle.paper.specs.Sides.{side_number};
ghost use Rattle.paper.specs.Network.{is_network};
ghost use Rattle.paper.specs.Areas as Areas;
ghost use Rattle.paper.specs.Areas.{branch_number};
ghost use Rattle.paper.specs.Records.{offset, slot_count};
ghost use Rattle.laws_facts.specs.Nets.{net_in, row_at};
ghost use Rattle.plan_record.specs.Mapped.{Mapped};
ghost use Rattle.plan_rows.specs.Planned.{Planned, totals_of, row_of, owner_in, node_in};
ghost use Rattle.plan_rows.specs.Planned.{conductance_at, to_at};
ghost use Rattle.plan_rows.specs.ByKind.{slots_by, owner_by};
ghost use Rattle.plan_rows.specs.Switching.{may_part_by};

use paper::{Kind, Node, Room, Side};
use plan_record::Record;

// What a step needs of a row: its kind and its nodes, a source's other node being 0; its conductance; a line's travel time as whole steps and a rest of
// the step length, how many slots it has in each store and where they begin; the steps at which a switch closes and opens; the area of each end, 0 for a
// source; and the branch's number. C lends these fourteen words, so that a kind is a number here.
#[derive(Clone, Copy)]
#[repr(C)]
pub struct Row {
    pub kind: usize,
    pub from: usize,
    pub to: usize,
    pub g: usize,
    pub delay: usize,
    pub rest: usize,
    pub step: usize,
    pub slots: usize,
    pub place: usize,
    pub closes: usize,
    pub opens: usize,
    pub from_area: usize,
    pub to_area: usize,
    pub number: usize,
}

impl Row {
    pub const NONE: Row = Row {
        kind: 0,
        from: 0,
        to: 0,
        g: 0,
        delay: 0,
        rest: 0,
        step: 0,
        slots: 0,
        place: 0,
        closes: 0,
        opens: 0,
        from_area: 0,
        to_area: 0,
        number: 0,
    };

    // The area at one end.
    pub fn owner(self, end: Side) -> usize
        ensures { result ≡ owner_in self (side_number end) }
    {
        match end {
            Side::From => self.from_area,
            Side::To => self.to_area,
        }
    }

    // The node at one end.
    pub fn node(self, end: Side) -> usize
        ensures { result ≡ node_in self (side_number end) }
    {
        match end {
            Side::From => self.from,
            Side::To => self.to,
        }
    }

    // When a breaker may part: "at or after open - 1 and later than its closing step".
    pub fn may_part(self, k: usize) -> bool
        requires { k ≤ Limits.steps_end }
        ensures { result ≡ may_part_by k self }
    {
        (self.opens <= k + 1) & (self.closes < k)
    }
}

// a row for each row of the network; where there is none, no row
pub type Table = [Row; Room::ROWS];

// ---- counts

// How much of each thing there is: rows, nodes, areas, and slots of each store; the steps of the study, and the limit of what may be out of balance.
#[derive(Clone, Copy)]
pub struct Totals {
    pub rows: usize,
    pub nodes: usize,
    pub areas: usize,
    pub slots: usize,
    pub steps: usize,
    pub limit: i64,
}

// `study`: step length, steps, limit
fn study_word(net: Record<'_>, j: usize) -> i64
    requires { j < 3 }
    ensures { result ≡ word (net_in net.entry.words.now).head (suc j) }
{
    net.words[j]
}

fn study_number(net: Record<'_>, j: usize) -> usize
    requires { j < 3 }
    ensures { result ≡ nat (word (net_in net.entry.words.now).head (suc j)) }
{
    study_word(net, j) as usize
}

// the largest node that row i names
fn named(net: Record<'_>, i: usize) -> usize
    requires { i < length (net_in net.words.now).rows }
    ensures { result ≡ Areas.named (row_at (net_in net.entry.words.now) i) }
{
    let kind = net.kind(i);
    net.number(i, 1).max(to_at(net, i, kind))
}

// "The node count is the largest node named."
fn node_count(net: Record<'_>) -> usize
    ensures { result ≡ (net_in net.entry.words.now).nodes }
{
    let mut nodes: usize = 0;
    for i in 0..net.row_count() {
        nodes = nodes.max(named(net, i));
    }
    nodes
}

// ---- one row

// a branch's other node; a source has none
fn to_at(net: Record<'_>, i: usize, kind: Kind) -> usize
    requires i_in_bounds { i < length (net_in net.words.now).rows }
    requires kind_value { number kind ≡ Rows.kind (row_at (net_in net.words.now) i) }
    ensures { result ≡ to_at (net_in net.entry.words.now) i }
{
    if !kind.is_branch() {
        return 0;
    }
    net.number(i, 2)
}

// in nS, of one branch; a source has none
fn conductance_at(net: Record<'_>, i: usize, kind: Kind, step: usize) -> usize
    requires i_in_bounds { i < length (net_in net.words.now).rows }
    requires kind_value { (number kind ≡ Rows.kind (row_at (net_in net.words.now) i))
        × (step ≡ Areas.step (net_in net.words.now)) }
    ensures { result ≡ conductance_at (net_in net.entry.words.now) i }
{
    if !kind.is_branch() {
        return 0;
    }
    let size = net.number(i, 3);
    text_faults::conductance(step as u64, kind.number(), size as u64) as usize
}

// "a store needs 2q + 1 slots where r is not 0", and 2q where it is
#[tactic(auto, unfolding(crate::specs::ByKind::slots_by))]
fn slots_of(kind: Kind, delay: usize, rest: usize) -> usize
    requires { slots_by (number kind) delay rest ≤ Limits.store_words }
    ensures { result ≡ slots_by (number kind) delay rest }
{
    match kind {
        Kind::Line => 2 * delay + num_share::older(rest as u64),
        _ => 0,
    }
}

// The area at an end with node near: a line's ends are each their own node's; an R, L, C or SW is in its higher node's, ground being in none.
#[tactic(auto, unfolding(crate::specs::ByKind::owner_by, paper::specs::Rows::branch_kind, paper::specs::Rows::kinds))]
fn area_at(area: &[usize; Node::PLACES], kind: Kind, near: usize, far: usize) -> usize
    requires { (near ≤ Limits.node_end) × (far ≤ Limits.node_end) }
    ensures { result ≡ owner_by area.now (number kind) near far }
{
    match kind {
        Kind::Line => area[near],
        Kind::R | Kind::L | Kind::C | Kind::Sw | Kind::Swt => area[near.max(far)],
        _ => 0,
    }
}

// "Branches are numbered from 1 in table order, sources not counted"
fn number_of(kind: Kind, before: usize) -> usize
    requires { before ≤ Limits.branch_end }
    ensures { result ≡ before + cond (Rows.branch_kind (number kind)) 1 0 }
{
    if kind.is_branch() { before + 1 } else { before }
}

// Row i, with its slots behind those of the rows before it: "q whole steps and a rest r in ns"
fn planned(
    net: Record<'_>,
    area: &[usize; Node::PLACES],
    step: usize,
    i: usize,
    place: usize,
    before: usize,
) -> Row
    requires i_in_bounds { i < length (net_in net.words.now).rows }
    requires mapped { Mapped (net_in net.words.now) area.now × (step ≡ Areas.step (net_in net.words.now)) }
    requires place_value { (place ≡ offset (net_in net.words.now) i)
        × (before ≡ branch_number (net_in net.words.now) i) }
    ensures { result ≡ row_of (net_in net.entry.words.now) i }
{
    let kind = net.kind(i);
    let from = net.number(i, 1);
    let to = to_at(net, i, kind);
    let fourth = net.number(i, 4);
    let opens = net.number(i, 5);
    let delay = fourth / step;
    let rest = fourth % step;
    Row {
        kind: kind.number(),
        from,
        to,
        g: conductance_at(net, i, kind, step),
        delay,
        rest,
        step,
        slots: slots_of(kind, delay, rest),
        place,
        closes: fourth,
        opens,
        from_area: area_at(area, kind, from, to),
        to_area: area_at(area, kind, to, from),
        number: number_of(kind, before),
    }
}

// ---- all rows

// All rows, and how many slots there are: "slots stand in table order"
fn fill(net: Record<'_>, step: usize, area: &[usize; Node::PLACES], plan: &mut Table) -> usize
    requires plan_len { length plan.old ≡ Limits.row_end }
    requires mapped { Mapped (net_in net.words.now) area.now × (step ≡ Areas.step (net_in net.words.now)) }
    ensures { Planned (net_in net.entry.words.now) plan.new × (result ≡ slot_count (net_in net.entry.words.now)) }
{
    let mut slots = 0;
    let mut number = 0;
    for i in 0..net.row_count() {
        let r = planned(net, area, step, i, slots, number);
        plan[i] = r;
        slots = r.place + r.slots;
        number = r.number;
    }
    slots
}

// All of it, into lent arrays.
pub fn make(net: &[i64], area: &mut [usize; Node::PLACES], plan: &mut Table) -> Totals
    requires net_value { is_network net.now ≡ true }
    requires area_len { (length area.old ≡ Limits.node_end + 1) × (length plan.old ≡ Limits.row_end) }
    ensures planned { Planned (net_in net.now) plan.new × Mapped (net_in net.now) area.new }
    ensures value { result ≡ totals_of (net_in net.now) }
{
    let net = Record { words: net };
    let rows = net.row_count();
    let step = study_number(net, 0);
    let nodes = node_count(net);
    let areas = plan_areas::areas(net, nodes, area);
    let slots = fill(net, step, area, plan);
    Totals {
        rows,
        nodes,
        areas,
        slots,
        steps: study_number(net, 1),
        limit: study_word(net, 2),
    }
}
