#![tactic(auto)]

// A reader's and a writer's bytes, as standard input and output: a call that a signal interrupts is made again, and a failure is never taken for the end.
ghost use Rattle.std.specs.Prelude.{◌≤◌, ◌≡◌, ◌-◌};
ghost use Rattle.whole.specs.Plain.{length, take};
ghost use Rattle.run_bytes.specs.Moving.{Answers, Most, Brings, Held};

use std::io;
use std::io::{Error, ErrorKind, Read, Write};

// How often a call is made that a signal interrupts; the last answer counts, whatever it is.
const TRIES: u64 = 1_000_000;

// What a call answers that moves bytes, made again where a signal interrupts it before any was moved.
fn again<F: FnMut() -> io::Result<usize>>(call: &mut F) -> io::Result<usize>
    requires { F.IsAlwaysCallable call.old }
    ensures { Answers F.step call.old result call.new }
{
    for _ in 1..TRIES {
        let answer = call();
        match &answer {
            Err(error) if error.kind() == ErrorKind::Interrupted => {}
            _ => return answer,
        }
    }
    call()
}

// A read from a place on. What stands before it stays, however often the read is made.
fn read_on<R: Read>(reader: &mut R, text: &mut [u8], from: usize) -> io::Result<usize>
    requires { from ≤ length text.old }
    ensures { Brings text.old from result text.new }
{
    let mut read = ||
        requires { from ≤ length text.now }
        ensures same { text.exit.ghost_name ≡ text.entry.ghost_name }
        ensures long { length text.exit.now ≡ length text.entry.now }
        ensures brings { Brings text.entry.now from result text.exit.now }
    { reader.read(&mut text[from..]) };
    again(&mut read)
}

// The reader's bytes to their end, or as much of it as there is room for: how many they are.
pub fn read_all<R: Read>(reader: &mut R, text: &mut [u8]) -> io::Result<usize>
    ensures { Held text.new result }
{
    let mut done = 0;
    while done < text.len() {
        let more = read_on(reader, text, done)?;
        if more == 0 {
            break;
        }
        done += more;
    }
    Ok(done)
}

// A write from a place on.
fn write_on<W: Write>(writer: &mut W, bytes: &[u8], from: usize) -> io::Result<usize>
    requires { from ≤ length bytes.now }
    ensures { Most (length bytes.now - from) result }
{
    let mut write = || writer.write(&bytes[from..]);
    again(&mut write)
}

// All bytes to the writer. A write that takes nothing is one that failed, with no number of the system's.
pub fn write_all<W: Write>(writer: &mut W, bytes: &[u8]) -> io::Result<()> {
    let mut done = 0;
    while done < bytes.len() {
        let more = write_on(writer, bytes, done)?;
        if more == 0 {
            return Err(Error::from_raw_os_error(0));
        }
        done += more;
    }
    Ok(())
}
