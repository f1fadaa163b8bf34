#![tactic(auto)]

// "The from-end stores are one lent slice and the to-end stores another; a reader is handed the far end's part of one of them, no copy."

ghost use Rattle.std.specs.Prelude.{◌+◌, ◌≤◌, ◌<◌, ◌≡◌};
ghost use Rattle.whole.specs.Plain.{length};
ghost use Rattle.step_received.specs.Received.{far_store, far_part, heard_from};

use paper::Side;

// The far end's part, by the end that reads.
fn far<'a>(froms: &'a [i64], tos: &'a [i64], side: Side, start: usize, end: usize) -> &'a [i64]
    requires { (start ≤ end) × ((end ≤ length froms.now) × (end ≤ length tos.now)) }
    ensures { result.now ≡ far_part side froms.now tos.now start end }
{
    match side {
        Side::From => &tos[start..end],
        Side::To => &froms[start..end],
    }
}

// What the far end sent "at step k - d, or 0 where k - d < 1": of the far end's part. A line's end asks for q steps before, and between steps also for q + 1.
fn sent(part: &[i64], k: usize, d: usize) -> i64
    requires { 0 < length part.now }
    ensures { result ≡ heard_from part.now 0 (length part.now) k d }
{
    if k <= d {
        return 0;
    }
    part[(k - d) % part.len()]
}

pub fn received<'a>(
    froms: &'a [i64],
    tos: &'a [i64],
    side: Side,
    start: usize,
    slots: usize,
    k: usize,
    d: usize,
) -> i64
    requires { (0 < slots) × ((start + slots ≤ length froms.now) × (start + slots ≤ length tos.now)) }
    ensures { result ≡ heard_from (far_store side froms.now tos.now) start slots k d }
{
    let end = start + slots;
    let part = far(froms, tos, side, start, end);
    sent(part, k, d)
}
