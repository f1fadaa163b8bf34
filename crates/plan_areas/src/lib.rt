#![tactic(auto)]

// "Areas.": which nodes R, L, C, SW and SWT join, by rounds over the rows, and the areas numbered from 1 by their lowest node.
ghost use Rattle.std.specs.Prelude.{◌≤◌, ◌<◌, ◌+◌, ◌≡◌};
ghost use Rattle.whole.specs.Plain.{suc, cond, eqb, leb, length, get_or, filled, numbers};
ghost use Rattle.paper.specs.Limits as Limits;
ghost use Rattle.paper.specs.Kinds.{number};
ghost use Rattle.paper.specs.Spread.{joined};
ghost use Rattle.whole.specs.Turns.{turns};
ghost use Rattle.paper.specs.Areas.{area_count};
ghost use Rattle.laws_facts.specs.Nets.{net_in, row_at};
ghost use Rattle.plan_areas.specs.Marks.{mark_words, Moved, join_row, round_of};
ghost use Rattle.plan_areas.specs.Numbered.{count_at, number_at, low_in};

use paper::{Kind, Node};
use plan_record::Record;

// a node's first mark is its own number
fn own_mark(n: usize, nodes: usize) -> usize
    ensures { result ≡ cond (leb n nodes) n 0 }
{
    if n <= nodes { n } else { 0 }
}

fn start(area: &mut [usize; Node::PLACES], nodes: usize)
    requires { (length area.old ≡ Limits.node_end + 1) × (nodes < Limits.node_end + 1) }
    ensures { area.new ≡ filled mark_words 0 (numbers 0 (suc nodes)) }
{
    for n in 0..Node::PLACES {
        area[n] = own_mark(n, nodes);
    }
}

// Both ends take the lower of their two marks; whether the two were different.
fn join(area: &mut [usize; Node::PLACES], one: usize, two: usize) -> bool
    requires { (length area.old ≡ Limits.node_end + 1)
        × ((one < Limits.node_end + 1) × (two < Limits.node_end + 1)) }
    ensures { Moved area.old area.new (joined area.old (record { one = one; two = two })) result }
{
    let a = area[one];
    let b = area[two];
    let low = a.min(b);
    area[one] = low;
    area[two] = low;
    a != b
}

fn is_line(kind: Kind) -> bool
    ensures { result ≡ eqb (number kind) 4 }
{
    matches!(kind, Kind::Line)
}

// Row i's turn in a round. "Nodes joined by R, L, C or SW (open or closed) are in one area. Ground and lines join nothing."
fn join_row(net: Record<'_>, i: usize, area: &mut [usize; Node::PLACES]) -> bool
    requires { (i < length (net_in net.words.now).rows) × (length area.old ≡ Limits.node_end + 1) }
    ensures { Moved area.old area.new (join_row area.old (row_at (net_in net.entry.words.now) i)) result }
{
    let kind = net.kind(i);
    if is_line(kind) {
        return false;
    }
    if !kind.is_branch() {
        return false;
    }
    let one = net.number(i, 1);
    let two = net.number(i, 2);
    if one == 0 || two == 0 {
        return false;
    }
    join(area, one, two)
}

// One round over the rows; whether a mark changed.
fn round(net: Record<'_>, area: &mut [usize; Node::PLACES]) -> bool
    requires { length area.old ≡ Limits.node_end + 1 }
    ensures { Moved area.old area.new (round_of (net_in net.entry.words.now).rows 0 area.old) result }
{
    let mut moved = false;
    for i in 0..net.row_count() {
        let here = join_row(net, i, area);
        moved = moved | here;
    }
    moved
}

// All rounds: one that changes nothing is the last.
fn spread(net: Record<'_>, area: &mut [usize; Node::PLACES])
    requires { length area.old ≡ Limits.node_end + 1 }
    ensures { area.new ≡ turns 0 Limits.node_end (round_of (net_in net.entry.words.now).rows) area.old }
{
    for _turn in 0..Node::MAX as usize {
        if !round(net, area) {
            return;
        }
    }
}

// node n's turn, after the areas that the nodes below it lead
fn number_node(area: &mut [usize; Node::PLACES], n: usize, count: usize) -> usize
    requires { (n < Limits.node_end + 1)
        × ((get_or area.old n 0 < Limits.node_end + 1) × (count < Limits.node_end + 1)) }
    ensures { (area.new ≡ number_at area.old n count) × (result ≡ count_at area.old n count) }
{
    let low = area[n];
    if low == n {
        area[n] = count + 1;
        return count + 1;
    }
    area[n] = area[low];
    count
}

// "Areas are numbered from 1 by their lowest node": how many there are.
fn number_areas(net: Record<'_>, nodes: usize, area: &mut [usize; Node::PLACES]) -> usize
    requires { (nodes ≡ (net_in net.words.now).nodes) × (area.old ≡ filled mark_words 0 (low_in net.words.now)) }
    ensures { (area.new ≡ filled mark_words 0 (net_in net.entry.words.now).areas)
        × (result ≡ area_count (net_in net.entry.words.now)) }
{
    let mut count = 0;
    for n in 1..=nodes {
        count = number_node(area, n, count);
    }
    count
}

// The area of each node into `area`, ground's and those past the last node 0; and how many areas there are.
pub fn areas(net: Record<'_>, nodes: usize, area: &mut [usize; Node::PLACES]) -> usize
    requires { (nodes ≡ (net_in net.words.now).nodes) × (length area.old ≡ Limits.node_end + 1) }
    ensures { (area.new ≡ filled mark_words 0 (net_in net.entry.words.now).areas)
        × (result ≡ area_count (net_in net.entry.words.now)) }
{
    start(area, nodes);
    spread(net, area);
    number_areas(net, nodes, area)
}
