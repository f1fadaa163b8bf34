#![tactic(auto)]

// What a line's end sends, into that end's store: "step s in place s mod 2d".
ghost use Rattle.std.specs.Prelude.{◌+◌, ◌≤◌, ◌<◌, ◌%◌, ◌≡◌};
ghost use Rattle.whole.specs.Plain.{length, set};
ghost use Rattle.paper.specs.Limits as Limits;
ghost use Rattle.step_send.specs.Stores.{is_from_end, is_to_end, sent_put, Slotted};

use paper::{Side, kinds};
use plan_rows::Table;
use step_legs::Wire;

// The value of step s in place s mod the slots of one line end.
fn put_slot(ring: &mut [i64], k: usize, x: i64)
    requires { 0 < length ring.old }
    ensures { ring.new ≡ set ring.old (k % length ring.old) x }
{
    let at = k % ring.len();
    ring[at] = x;
}

// "the line's 2d words, starting in mid-store, lent on to be written": so the slot is put by a function of its own.
fn put_sent(store: &mut [i64], start: usize, slots: usize, k: usize, x: i64)
    requires { (start + slots ≤ length store.old) × (0 < slots) }
    ensures { store.new ≡ set store.old (start + k % slots) x }
{
    let end = start + slots;
    put_slot(&mut store[start..end], k, x);
}

// What a leg passes on, where it is a line's end, into that end's store.
pub fn send_leg(plan: &Table, l: Wire, froms: &mut [i64], tos: &mut [i64], k: usize)
    requires slotted { Slotted plan.now l }
    requires froms_len { (length froms.old ≡ Limits.store_words) × (length tos.old ≡ Limits.store_words) }
    ensures froms_value { froms.new ≡ sent_put plan.now k is_from_end l froms.old }
    ensures tos_value { tos.new ≡ sent_put plan.now k is_to_end l tos.old }
{
    if l.kind == kinds::LINE {
        let r = plan[l.row];
        match l.side() {
            Side::From => put_sent(froms, r.place, r.slots, k, l.passed),
            Side::To => put_sent(tos, r.place, r.slots, k, l.passed),
        }
    }
}
