#![tactic(auto)]

// "The limits belong to the quantity they limit and are named once": each quantity of document 01 with its unit and its ends. What is worked out becomes a
// quantity by a constructor that refuses a number outside them; a voltage, which is worked out in doubles, does so by `num_double::nearest`.
ghost use Rattle.std.specs.Prelude.{Some, None, ◌≡◌, ◌&&◌};
ghost use Rattle.whole.specs.Plain.{cond, leb, between};

// 0.1 V
#[derive(Clone, Copy)]
pub struct Voltage {
    pub tenths: i64,
}

impl Voltage {
    pub const MAX: i64 = 20_000_000;

    pub const MIN: i64 = -Voltage::MAX;
}

// nS, of one branch
#[derive(Clone, Copy)]
pub struct Conductance {
    pub nanos: u64,
}

impl Conductance {
    pub const MAX: u64 = 1_000_000_000;

    pub const MIN: u64 = 1;

    pub fn new(x: u64) -> Option<Conductance>
        ensures { result ≡ cond (leb Conductance.MIN x && leb x Conductance.MAX)
            (Some (record { nanos = x })) None }
    {
        if (Conductance::MIN <= x) & (x <= Conductance::MAX) {
            return Some(Conductance { nanos: x });
        }
        None
    }
}

// 0.1 nA, a history or a sent line value
#[derive(Clone, Copy)]
pub struct History {
    pub value: i64,
}

impl History {
    pub const MAX: i64 = 100_000_000_000_000_000;

    pub const MIN: i64 = -History::MAX;

    pub fn new(x: i64) -> Option<History>
        ensures { result ≡ cond (between History.MIN History.MAX x)
            (Some (record { value = x })) None }
    {
        if (History::MIN <= x) & (x <= History::MAX) {
            return Some(History { value: x });
        }
        None
    }
}

// 0.1 nA, of one branch end
#[derive(Clone, Copy)]
pub struct Current;

impl Current {
    pub const MAX: i64 = 140_000_000_000_000_000;

    pub const MIN: i64 = -Current::MAX;
}

// 0.1 nA, into a node
#[derive(Clone, Copy)]
pub struct Injection;

impl Injection {
    pub const MAX: i64 = 2_000_000_000_000_000;

    pub const MIN: i64 = -Injection::MAX;
}

// 0 is ground
#[derive(Clone, Copy)]
pub struct Node;

impl Node {
    pub const MAX: i64 = 32;

    pub const MIN: i64 = 0;

    // how many words a table by node has, ground's among them
    pub const PLACES: usize = Node::MAX as usize + 1;
}

// ns
#[derive(Clone, Copy)]
pub struct StepLength;

impl StepLength {
    pub const MAX: i64 = 1_000_000;

    pub const MIN: i64 = 1;
}

// how many steps a study has
#[derive(Clone, Copy)]
pub struct Steps;

impl Steps {
    pub const MAX: i64 = 1_000_000;

    pub const MIN: i64 = 1;
}

// 0.1 nA, what the currents leaving a node may miss its injection by
#[derive(Clone, Copy)]
pub struct Balance;

impl Balance {
    pub const MAX: i64 = 1_000_000_000_000_000;

    pub const MIN: i64 = 0;
}
