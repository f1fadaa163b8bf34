#![tactic(auto)]

// The table of kinds: the ranges of each kind's fields, of which those that name a node come first.
ghost use Rattle.std.specs.Prelude.{◌≡◌};
ghost use Rattle.whole.specs.Plain.{length, between};
ghost use Rattle.paper.specs.Kinds.{number};
ghost use Rattle.paper.specs.Rows.{fields_of};
ghost use Rattle.text_kinds.specs.Table.{names_of, ranges_of, in_range};

use paper::{
    Balance, Farads, Frequency, Henries, Injection, Kind, Node, Ohms, Rise, Start, StepLength,
    Steps, Switching, Travel, Voltage,
};

// The least that a field may be, and the most.
#[derive(Clone, Copy)]
pub struct Range {
    pub low: i64,
    pub high: i64,
}

impl Range {
    pub fn holds(&self, x: i64) -> bool
        ensures { result ≡ between self.now.low self.now.high x }
    {
        (self.low <= x) & (x <= self.high)
    }
}

const STEP_LENGTH: Range = Range {
    low: StepLength::MIN,
    high: StepLength::MAX,
};

const STEPS: Range = Range {
    low: Steps::MIN,
    high: Steps::MAX,
};

const LIMIT: Range = Range {
    low: Balance::MIN,
    high: Balance::MAX,
};

const NODE: Range = Range {
    low: Node::MIN,
    high: Node::MAX,
};

const OHMS: Range = Range {
    low: Ohms::MIN,
    high: Ohms::MAX,
};

const HENRIES: Range = Range {
    low: Henries::MIN,
    high: Henries::MAX,
};

const FARADS: Range = Range {
    low: Farads::MIN,
    high: Farads::MAX,
};

const TRAVEL: Range = Range {
    low: Travel::MIN,
    high: Travel::MAX,
};

const SWITCHING: Range = Range {
    low: Switching::MIN,
    high: Switching::MAX,
};

const VOLTAGE: Range = Range {
    low: Voltage::MIN,
    high: Voltage::MAX,
};

const INJECTION: Range = Range {
    low: Injection::MIN,
    high: Injection::MAX,
};

const START: Range = Range {
    low: Start::MIN,
    high: Start::MAX,
};

const RISE: Range = Range {
    low: Rise::MIN,
    high: Rise::MAX,
};

const FREQUENCY: Range = Range {
    low: Frequency::MIN,
    high: Frequency::MAX,
};

// The range of each field of a kind.
#[tactic(auto, unfolding(crate::specs::Table::ranges_of, paper::specs::Rows::fields_of, paper::specs::Rows::kinds, paper::specs::Rows::bytes))]
pub fn ranges(kind: Kind) -> &'static [Range]
    ensures { result.now ≡ ranges_of (number kind) }
{
    match kind {
        Kind::Study => &[STEP_LENGTH, STEPS, LIMIT],
        Kind::R => &[NODE, NODE, OHMS],
        Kind::L => &[NODE, NODE, HENRIES],
        Kind::C => &[NODE, NODE, FARADS],
        Kind::Line => &[NODE, NODE, OHMS, TRAVEL],
        Kind::Sw => &[NODE, NODE, OHMS, SWITCHING, SWITCHING],
        Kind::Vs => &[NODE, VOLTAGE, START, RISE],
        Kind::Is => &[NODE, INJECTION, START, RISE],
        Kind::Vc => &[NODE, VOLTAGE, START, FREQUENCY],
        Kind::Swt => &[NODE, NODE, OHMS, SWITCHING, SWITCHING],
    }
}

// How many fields a kind has.
#[tactic(auto, using(crate::specs::Table::ranges_count))]
pub fn fields(kind: Kind) -> usize
    ensures { result ≡ length (fields_of (number kind)) }
{
    ranges(kind).len()
}

// How many of them name a node.
#[tactic(auto, unfolding(crate::specs::Table::names_of, paper::specs::Rows::fields_of, paper::specs::Rows::kinds, paper::specs::Rows::bytes, whole::specs::Lists::count))]
pub fn names(kind: Kind) -> usize
    ensures { result ≡ names_of (number kind) }
{
    match kind {
        Kind::Study => 0,
        Kind::Vs | Kind::Is | Kind::Vc => 1,
        _ => 2,
    }
}

// How many of a kind's fields, from the first on, are in their ranges: all of them, or those before the first that is not.
pub fn in_range(kind: Kind, row: [i64; 8]) -> usize
    ensures { result ≡ in_range (number kind) row }
{
    let all = ranges(kind);
    for (i, range) in all.iter().enumerate() {
        if !range.holds(row[1 + i]) {
            return i;
        }
    }
    all.len()
}
