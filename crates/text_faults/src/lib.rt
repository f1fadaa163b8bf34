#![tactic(auto)]

// What may be wrong with a row whose spelling is right, after the rows before it: refusals 2 to 6. One function, for the reader's lines and for the rows of a
// lent network record.
ghost use Rattle.std.specs.Prelude.{◌≤◌, ◌≡◌};
ghost use Rattle.whole.specs.Plain.{false, cond, get_or};
ghost use Rattle.paper.specs.Limits as Limits;
ghost use Rattle.paper.specs.Kinds.{number};
ghost use Rattle.paper.specs.Rows.{is_study, step_length};
ghost use Rattle.paper.specs.Faults as Faults;
ghost use Rattle.paper.specs.Faulted.{fault_by};
ghost use Rattle.text_kinds.specs.Table.{in_range};
ghost use Rattle.text_faults.specs.Seen.{head_of, Held, conductance_of, seen_double, seen_full, seen_fault};
ghost use Rattle.text_faults.specs.Seen.{fixed_after};
ghost use Rattle.text_faults.specs.Seen.{seen_after, nothing_seen, Sized};

pub mod rows;

use num_quantity::Conductance;
use paper::{Fault, Node, Room, kinds};
pub use rows::Row;

// What the rows before tell: the study's step length, how many branches and sources there are, the line slots of one end, and the nodes with a VS or a VC.
// That it is `Held` stays a clause and no field: the definition `seen_after` is of any row, and only a row without fault keeps it so.
#[derive(Clone, Copy)]
pub struct Seen {
    pub step: u64,
    pub branches: usize,
    pub sources: usize,
    pub slots: usize,
    pub fixed: [bool; Node::PLACES],
}

// Before the study's row, whose faults go by no step length.
pub fn nothing_seen() -> Seen
    ensures { result ≡ nothing_seen }
{
    Seen {
        step: 1,
        branches: 0,
        sources: 0,
        slots: 0,
        fixed: [false; Node::PLACES],
    }
}

// 2 NODE: "node over 32, both ends equal, source or line end on ground"
fn node_fault(row: Row, passed: usize) -> bool
    requires { passed ≡ in_range (number row.kind) row.words }
    ensures { result ≡ Faults.node_fault row.words }
{
    let kind = row.kind;
    let a = row.field(1);
    let b = row.field(2);
    (passed < text_kinds::names(kind))
        | (kind.is_branch() & (a == b))
        | (kind.is_source() & (a == 0))
        | (row.is_line() & ((a == 0) | (b == 0)))
}

// "R, SW closed, LINE: 10^12 / mΩ."; "L: 10^9 · step / (2 · nH)."; "C: 2·10^6 · pF / step."
#[tactic(auto, unfolding(crate::specs::Seen::conductance_of))]
// The kind is a number, as in a network record: what is no L and no C counts as a resistor.
pub fn conductance(step: u64, kind: usize, size: u64) -> u64
    requires { Sized step kind size }
    ensures { result ≡ conductance_of step kind size }
{
    match kind {
        kinds::L => whole::nearest_quotient(1_000_000_000 * step, 2 * size),
        kinds::C => whole::nearest_quotient(2_000_000 * size, step),
        _ => whole::nearest_quotient(1_000_000_000_000, size),
    }
}

// 3 VALUE: "a field, or its conductance, out of range"; SW: "1 ≤ close < open"
fn value_fault(step: u64, row: Row, passed: usize) -> bool
    requires step_bound { (Limits.step_length_low ≤ step) × (step ≤ Limits.step_length_end) }
    requires passed_value { (passed ≡ in_range (number row.kind) row.words) × (Faults.node_fault row.words ≡ false) }
    ensures { result ≡ Faults.value_fault (head_of step) row.words }
{
    let kind = row.kind;
    if passed < text_kinds::fields(kind) {
        return true;
    }
    if !kind.is_branch() {
        return false;
    }
    let Some(_) = Conductance::new(conductance(step, kind.number(), row.field(3))) else {
        return true;
    };
    let close = row.field(4);
    let open = row.field(5);
    kind.is_switch() & (open <= close)
}

// 4 TRAVEL: "travel shorter than a step"
#[tactic(auto, unfolding(paper::specs::Faults::travel_fault))]
fn travel_fault(step: u64, row: Row) -> bool
    ensures { result ≡ Faults.travel_fault (head_of step) row.words }
{
    row.is_line() & (row.field(4) < step)
}

// 5 DOUBLE: "a second VS on a node"; "5 covers any two of VS and VC"
fn double_fault(seen: Seen, row: Row) -> bool
    ensures { result ≡ seen_double seen row.words }
{
    let fixed = seen.fixed;
    let node = row.field(1) as usize;
    row.kind.is_fixing() & fixed.get(node).copied().unwrap_or(false)
}

// "a store needs 2q + 1 slots where r is not 0", and 2q where it is
fn slots_of(step: u64, row: Row) -> usize
    requires { (1 ≤ step) × (Faults.value_fault (head_of step) row.words ≡ false) }
    ensures { result ≡ Faults.slots (head_of step) row.words }
{
    if row.is_line() {
        let travel = row.field(4);
        return 2 * (travel / step) as usize + num_share::older(travel % step);
    }
    0
}

// 6 FULL: "65th branch, 17th source, or" the slots "summed over lines past 4,096"
fn full_fault(seen: Seen, row: Row) -> bool
    requires { Held seen × (Faults.value_fault (head_of seen.step) row.words ≡ false) }
    ensures { result ≡ seen_full seen row.words }
{
    (row.kind.is_branch() & (Room::BRANCHES <= seen.branches))
        | (row.kind.is_source() & (Room::SOURCES <= seen.sources))
        | (Room::STORE < seen.slots + slots_of(seen.step, row))
}

// "in it 1 to 6 in turn": a row's first fault, where it has one.
#[tactic(auto, unfolding(crate::specs::Seen::seen_fault))]
pub fn line_fault(seen: Seen, row: Row) -> Option<Fault>
    requires { Held seen }
    ensures { result ≡ fault_by (seen_fault seen row.words) }
{
    // Once, for NODE and for VALUE: a kind's fields that name a node are its first.
    let passed = text_kinds::in_range(row.kind, row.words);
    if node_fault(row, passed) {
        return Some(Fault::Node);
    }
    if value_fault(seen.step, row, passed) {
        return Some(Fault::Value);
    }
    if travel_fault(seen.step, row) {
        return Some(Fault::Travel);
    }
    if double_fault(seen, row) {
        return Some(Fault::Double);
    }
    if full_fault(seen, row) {
        return Some(Fault::Full);
    }
    None
}

fn step_after(step: u64, row: Row) -> u64
    ensures { result ≡ cond (is_study row.words) (step_length row.words) step }
{
    if row.is_study() {
        return row.field(1);
    }
    step
}

// "A node with a VS is fixed"; "A VC fixes its node like a VS."
fn fixed_after(fixed: [bool; Node::PLACES], row: Row) -> [bool; Node::PLACES]
    ensures { result ≡ fixed_after fixed row.words }
{
    let mut next = fixed;
    let node = row.field(1) as usize;
    if row.kind.is_fixing() & (node < Node::PLACES) {
        next[node] = true;
    }
    next
}

// What the rows tell with one more, which has no fault.
pub fn seen_after(seen: Seen, row: Row) -> Seen
    requires { Held seen × (seen_fault seen row.words ≡ 0) }
    ensures { result ≡ seen_after seen row.words }
{
    Seen {
        step: step_after(seen.step, row),
        branches: seen.branches + usize::from(row.kind.is_branch()),
        sources: seen.sources + usize::from(row.kind.is_source()),
        slots: seen.slots + slots_of(seen.step, row),
        fixed: fixed_after(seen.fixed, row),
    }
}
