// The kinds of a row. What each is for, and its class, stands in specs/Rows.antt; word 0 of a row of the network record is the kind's number.
ghost use Rattle.std.specs.Prelude.{◌≡◌, ◌||◌};
ghost use Rattle.whole.specs.Plain.{eqb};
ghost use Rattle.paper.specs.Rows.{branch_kind, source_kind, fixing_kind};
ghost use Rattle.paper.specs.Kinds.{number, kind_by};

// how many there are, the study's among them
pub const COUNT: usize = 10;

// In the order of their numbers, 0 to 9.
#[derive(Clone, Copy, PartialEq, Eq)]
pub enum Kind {
    Study,
    R,
    L,
    C,
    Line,
    Sw,
    Vs,
    Is,
    Vc,
    Swt,
}

impl Kind {
    pub const ALL: [Kind; COUNT] = [
        Kind::Study,
        Kind::R,
        Kind::L,
        Kind::C,
        Kind::Line,
        Kind::Sw,
        Kind::Vs,
        Kind::Is,
        Kind::Vc,
        Kind::Swt,
    ];

    // The kind of a number, where one has it.
    pub fn of(number: usize) -> Option<Kind>
        ensures { result ≡ kind_by number }
    {
        Kind::ALL.get(number).copied()
    }

    pub fn number(self) -> usize
        ensures { result ≡ number self }
    {
        self as usize
    }

    #[tactic(auto, unfolding(crate::specs::Rows::branch_kind, crate::specs::Rows::kinds))]
    pub fn is_branch(self) -> bool
        ensures { result ≡ branch_kind (number self) }
    {
        matches!(
            self,
            Kind::R | Kind::L | Kind::C | Kind::Line | Kind::Sw | Kind::Swt
        )
    }

    pub fn is_switch(self) -> bool
        ensures { result ≡ (eqb (number self) 5 || eqb (number self) 9) }
    {
        matches!(self, Kind::Sw | Kind::Swt)
    }

    #[tactic(auto, unfolding(crate::specs::Rows::source_kind, crate::specs::Rows::kinds))]
    pub fn is_source(self) -> bool
        ensures { result ≡ source_kind (number self) }
    {
        matches!(self, Kind::Vs | Kind::Is | Kind::Vc)
    }

    // "A node with a VS is fixed"; "A VC fixes its node like a VS."
    #[tactic(auto, unfolding(crate::specs::Rows::fixing_kind, crate::specs::Rows::kinds))]
    pub fn is_fixing(self) -> bool
        ensures { result ≡ fixing_kind (number self) }
    {
        matches!(self, Kind::Vs | Kind::Vc)
    }
}

// ---- as numbers: rows of the plan and legs are lent to C, which holds a kind by its number

pub const R: usize = Kind::R as usize;

pub const L: usize = Kind::L as usize;

pub const C: usize = Kind::C as usize;

pub const LINE: usize = Kind::Line as usize;

pub const SW: usize = Kind::Sw as usize;

pub const VS: usize = Kind::Vs as usize;

pub const IS: usize = Kind::Is as usize;

pub const VC: usize = Kind::Vc as usize;

pub const SWT: usize = Kind::Swt as usize;

#[tactic(auto, using(crate::specs::Classes::branch_kinds))]
pub fn is_branch(kind: usize) -> bool
    ensures { result ≡ branch_kind kind }
{
    (kind == R) | (kind == L) | (kind == C) | (kind == LINE) | (kind == SW) | (kind == SWT)
}

pub fn is_switch(kind: usize) -> bool
    ensures { result ≡ (eqb kind 5 || eqb kind 9) }
{
    (kind == SW) | (kind == SWT)
}

#[tactic(auto, using(crate::specs::Classes::source_kinds))]
pub fn is_source(kind: usize) -> bool
    ensures { result ≡ source_kind kind }
{
    (kind == VS) | (kind == IS) | (kind == VC)
}

#[tactic(auto, using(crate::specs::Classes::fixing_kinds))]
pub fn is_fixing(kind: usize) -> bool
    ensures { result ≡ fixing_kind kind }
{
    (kind == VS) | (kind == VC)
}
