#![tactic(auto)]

// The numbers and values of what the other calls answer, as call_answers has them of reading, resetting and advancing: asking for a node, listing, writing.
ghost use Rattle.std.specs.Prelude.{◌≡◌};
ghost use Rattle.paper.specs.Answers.{writing_number, writing_bytes};
ghost use Rattle.paper.specs.Looking.{looking_number, told_voltage, told_peak, told_step};
ghost use Rattle.paper.specs.Pieces.{listing_number, stop_area, stop_number, stop_place};

use paper::{Listing, Looking, Pause, Unlisted, Unlooked, Writing};

pub fn looking_number(answer: Looking) -> u64
    ensures { result ≡ looking_number answer }
{
    match answer {
        Ok(_) => 0,
        Err(Unlooked::Node) => 2,
        Err(Unlooked::Network) => 8,
        Err(Unlooked::Store) => 9,
        Err(Unlooked::State) => 10,
    }
}

// What is told of a node; 0 of a refusal.
pub fn told_voltage(answer: Looking) -> i64
    ensures { result ≡ told_voltage answer }
{
    match answer {
        Ok(told) => told.voltage,
        Err(_) => 0,
    }
}

pub fn told_peak(answer: Looking) -> u64
    ensures { result ≡ told_peak answer }
{
    match answer {
        Ok(told) => told.peak,
        Err(_) => 0,
    }
}

pub fn told_step(answer: Looking) -> u64
    ensures { result ≡ told_step answer }
{
    match answer {
        Ok(told) => told.step,
        Err(_) => 0,
    }
}

// Beside the paper's numbers, two for a listing that goes on and one that a refused area has ended.
pub fn listing_number(answer: Listing) -> u64
    ensures { result ≡ listing_number answer }
{
    match answer {
        Ok(Pause::Done) => 0,
        Ok(Pause::More) => 100,
        Ok(Pause::Stopped(_, _)) => 101,
        Err(Unlisted::Network) => 8,
        Err(Unlisted::Store) => 9,
        Err(Unlisted::State) => 10,
    }
}

// The area whose refusal ended a listing; 0 where none did.
pub fn stop_area(answer: Listing) -> u64
    ensures { result ≡ stop_area answer }
{
    match answer {
        Ok(Pause::Stopped(area, _)) => area,
        Ok(Pause::More | Pause::Done) | Err(_) => 0,
    }
}

// Its refusal's number.
pub fn stop_number(answer: Listing) -> u64
    ensures { result ≡ stop_number answer }
{
    match answer {
        Ok(Pause::Stopped(_, refusal)) => call_answers::refusal_number(refusal),
        Ok(Pause::More | Pause::Done) | Err(_) => 0,
    }
}

// The node or branch that its refusal carries.
pub fn stop_place(answer: Listing) -> u64
    ensures { result ≡ stop_place answer }
{
    match answer {
        Ok(Pause::Stopped(_, refusal)) => call_answers::refusal_place(refusal),
        Ok(Pause::More | Pause::Done) | Err(_) => 0,
    }
}

pub fn writing_number(answer: Writing) -> u64
    ensures { result ≡ writing_number answer }
{
    match answer {
        Ok(_) => 0,
        Err(unfit) => call_answers::unfit_number(unfit),
    }
}

// How many bytes a study's text has; 0 where nothing is written.
pub fn writing_bytes(answer: Writing) -> u64
    ensures { result ≡ writing_bytes answer }
{
    match answer {
        Ok(bytes) => bytes,
        Err(_) => 0,
    }
}
