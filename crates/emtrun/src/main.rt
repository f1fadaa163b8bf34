#![tactic(auto)]

// emtrun: a study text on standard input, its listing on standard output. Between the two stands nothing but functions on slices, each held to the definitions.
ghost use Rattle.std.specs.Prelude.{◌≡◌};
ghost use Rattle.whole.specs.Plain.{suc, length};
ghost use Rattle.paper.specs.Limits as Limits;

mod noting;

use noting::Noting;
use paper::Room;
use std::io::{Error, Read, Write};

const INPUT: usize = Room::TEXT + 1;

// One byte more than a text may have: that is enough to refuse a longer one.
fn text_room() -> [u8; INPUT]
    ensures { suc Limits.text_end ≡ length result }
{
    [0; INPUT]
}

// What failed, and how: a line to standard error. Where that is not taken either, there is nothing left to say.
fn fail(rt: &HostRuntime, what: &str, error: Error) {
    let told = match format!(in rt.alloc(); "{error}") {
        Ok(text) => {
            // the words alone, without the number that stands behind them
            let words = text.split(" (os error").next().unwrap_or("");
            eprintln!(rt; "emtrun: {what}: {words}")
        }
        // no memory to spell the error: what failed is said all the same
        Err(_) => eprintln!(rt; "emtrun: {what}"),
    };
    told.unwrap_or(());
}

// All that is read is answered; nothing is, where a read fails. A write that takes nothing is told by the last error that the output met, if it met one.
fn serve<R: Read, W: Write>(
    rt: &HostRuntime,
    reader: &mut R,
    writer: &mut Noting<W>,
    text: &mut [u8],
)
    requires { suc Limits.text_end ≡ length text.old }
{
    let count = match run_bytes::read_all(reader, text) {
        Ok(count) => count,
        Err(error) => return fail(rt, "standard input", error),
    };
    if run_study::run(writer, &text[..count]).is_err() {
        fail(rt, "standard output", Error::from_raw_os_error(writer.code));
    }
}

fn main(rt: HostRuntime) {
    let mut text = text_room();
    let mut writer = Noting::of(rt.stdout());
    serve(&rt, &mut rt.stdin(), &mut writer, &mut text);
}
