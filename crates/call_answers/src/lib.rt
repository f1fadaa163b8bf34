#![tactic(auto)]

// "When an answer is an enum, a definition gives this paper's number and values for each of its cases": the same in code.
ghost use Rattle.std.specs.Prelude.{◌≡◌, ◌+◌};
ghost use Rattle.paper.specs.Answers.{unread_number, unread_line, unfit_number, refusal_number, refusal_place};
ghost use Rattle.paper.specs.Answers.{reading_number, reading_line, resetting_number, advance_number, advance_place, advance_count};
ghost use Rattle.paper.specs.Faulted.{fault_number};

use paper::{Advance, Fault, Reading, Refusal, Resetting, Unfit, Unread};

// ---- of a refusal

fn fault_number(fault: Fault) -> u64
    ensures { result ≡ fault_number fault }
{
    match fault {
        Fault::Form => 1,
        Fault::Node => 2,
        Fault::Value => 3,
        Fault::Travel => 4,
        Fault::Double => 5,
        Fault::Full => 6,
    }
}

pub fn unread_number(unread: Unread) -> u64
    ensures { result ≡ unread_number unread }
{
    match unread {
        Unread::Line(_, fault) => fault_number(fault),
        Unread::Size => 7,
        Unread::Store => 9,
    }
}

// "the answer carries the line number (0 for 7 and 9)"
pub fn unread_line(unread: Unread) -> u64
    ensures { result ≡ unread_line unread }
{
    match unread {
        Unread::Line(line, _) => line,
        Unread::Size | Unread::Store => 0,
    }
}

pub fn unfit_number(unfit: Unfit) -> u64
    ensures { result ≡ unfit_number unfit }
{
    match unfit {
        Unfit::Network => 8,
        Unfit::Store => 9,
    }
}

pub fn refusal_number(refusal: Refusal) -> u64
    ensures { result ≡ refusal_number refusal }
{
    match refusal {
        Refusal::Network => 8,
        Refusal::Store => 9,
        Refusal::State => 10,
        Refusal::Area => 11,
        Refusal::Done => 12,
        Refusal::Wait(_) => 13,
        Refusal::Floating(_) => 14,
        Refusal::Range(_) => 15,
        Refusal::Unbalanced(_) => 16,
        Refusal::History(_) => 17,
    }
}

// "14 to 16 carry the lowest such node, 13 and 17 the first such branch in table order, the rest 0"
pub fn refusal_place(refusal: Refusal) -> u64
    ensures { result ≡ refusal_place refusal }
{
    match refusal {
        Refusal::Wait(branch) | Refusal::History(branch) => branch,
        Refusal::Floating(node) | Refusal::Range(node) | Refusal::Unbalanced(node) => node,
        Refusal::Network | Refusal::Store | Refusal::State | Refusal::Area | Refusal::Done => 0,
    }
}

// ---- of an answer: 0 of a call that is accepted

pub fn reading_number(answer: Reading) -> u64
    ensures { result ≡ reading_number answer }
{
    match answer {
        Ok(()) => 0,
        Err(unread) => unread_number(unread),
    }
}

pub fn reading_line(answer: Reading) -> u64
    ensures { result ≡ reading_line answer }
{
    match answer {
        Ok(()) => 0,
        Err(unread) => unread_line(unread),
    }
}

pub fn resetting_number(answer: Resetting) -> u64
    ensures { result ≡ resetting_number answer }
{
    match answer {
        Ok(()) => 0,
        Err(unfit) => unfit_number(unfit),
    }
}

pub fn advance_number(answer: Advance) -> u64
    ensures { result ≡ advance_number answer }
{
    match answer {
        Ok(_) => 0,
        Err(refusal) => refusal_number(refusal),
    }
}

pub fn advance_place(answer: Advance) -> u64
    ensures { result ≡ advance_place answer }
{
    match answer {
        Ok(_) => 0,
        Err(refusal) => refusal_place(refusal),
    }
}

// The new count of an area that has advanced, or the place: no answer has both, so that their sum is the one that it has.
pub fn place_or_count(answer: Advance) -> u64
    ensures { result ≡ advance_place answer + advance_count answer }
{
    match answer {
        Ok(count) => count,
        Err(_) => advance_place(answer),
    }
}
