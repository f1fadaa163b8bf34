// A writer that keeps the system's number of the last error that it met, for the line that tells of it.
use std::io::{Error, Write};

#[derive(Drop)]
pub struct Noting<S> {
    stream: S,
    pub code: i32,
}

impl<S> Noting<S> {
    pub fn of(stream: S) -> Noting<S> {
        Noting { stream, code: 0 }
    }
}

impl<W: Write> Write for Noting<W> {
    fn write(&mut self, buf: &[u8]) -> Result<usize, Error> {
        let answer = self.stream.write(buf);
        if let Err(error) = &answer {
            self.code = error.raw_os_error().unwrap_or(0);
        }
        answer
    }

    fn flush(&mut self) -> Result<(), Error> {
        self.stream.flush()
    }
}
