// The ends of the study text's fields, how much of each thing there may be, and how long what is lent is. The definitions' numbers (specs/Limits)
// are held to these constants once (crate paper_ends).

// mΩ, of R, LINE and SW
#[derive(Clone, Copy)]
pub struct Ohms;

impl Ohms {
    pub const MIN: i64 = 1_000;

    pub const MAX: i64 = 1_000_000_000_000;
}

// nH
#[derive(Clone, Copy)]
pub struct Henries;

impl Henries {
    pub const MIN: i64 = 1;

    pub const MAX: i64 = 1_000_000_000_000;
}

// pF
#[derive(Clone, Copy)]
pub struct Farads;

impl Farads {
    pub const MIN: i64 = 1;

    pub const MAX: i64 = 1_000_000_000;
}

// ns, of a line
#[derive(Clone, Copy)]
pub struct Travel;

impl Travel {
    pub const MIN: i64 = 1;

    pub const MAX: i64 = 1_000_000_000;
}

// the step at which a switch closes or opens
#[derive(Clone, Copy)]
pub struct Switching;

impl Switching {
    pub const MIN: i64 = 1;

    pub const MAX: i64 = 1_000_001;
}

// the first step of a source
#[derive(Clone, Copy)]
pub struct Start;

impl Start {
    pub const MIN: i64 = 1;

    pub const MAX: i64 = 1_000_000;
}

// how many steps a source takes to its peak
#[derive(Clone, Copy)]
pub struct Rise;

impl Rise {
    pub const MIN: i64 = 0;

    pub const MAX: i64 = 1_000;
}

// mHz, of a VC
#[derive(Clone, Copy)]
pub struct Frequency;

impl Frequency {
    pub const MIN: i64 = 1;

    pub const MAX: i64 = 100_000;
}

// how many of each a study may have, and how many words or bytes of each are lent
#[derive(Clone, Copy)]
pub struct Room;

impl Room {
    pub const BRANCHES: usize = 64;

    pub const SOURCES: usize = 16;

    pub const ROWS: usize = Room::BRANCHES + Room::SOURCES;

    pub const TEXT: usize = 65_536;

    pub const NETWORK: usize = 1_024;

    pub const RECORDS: usize = 1_024;

    pub const STORE: usize = 4_096;

    // what a buffer for the listing has at least
    pub const STEP_BYTES: usize = 4_160;

    // what an output area for a study's text has at least
    pub const STUDY_BYTES: usize = 8_192;
}
