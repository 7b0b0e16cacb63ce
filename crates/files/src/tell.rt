// Tells what is wrong in a file: its name, the line's number, what was found and what should stand there.
use crate::{Reading, Turn};
use hex_fault::{Count, Finding};
use hex_text::{LONGEST, Stream};
use std::io;
use std::io::{ErrorKind, Write};

// What was found in the characters that a stream holds.
fn held_finding(stream: &Stream, length: usize) -> Finding {
    let held = &stream.held[..stream.count.min(LONGEST)];
    hex_fault::find(held, length, stream.reader)
}

// Tells on a writer, in one line, what is wrong in the file of a name.
#[derive(Drop)]
pub struct Teller<'a, 'b, W> {
    pub errors: &'a mut W,
    pub name: &'b [u8],
}

impl<'a, 'b, W: Write> Teller<'a, 'b, W> {
    fn no_end(&mut self, lines: u64) -> io::Result<()> {
        self.errors.write_all(self.name)?;
        writeln!(self.errors, ": {}, no end line", Count(lines, "line"))
    }

    fn finding(&mut self, line: u64, finding: Finding) -> io::Result<()> {
        self.errors.write_all(self.name)?;
        writeln!(self.errors, ":{line}: {finding}")
    }

    // The held line is refused; or it is none or right, and the end line is missing.
    fn held(&mut self, turn: &Turn, length: usize) -> io::Result<()> {
        let stream = &turn.stream;
        if stream.count == 0 {
            return self.no_end(u64::from(turn.lines));
        }
        let line = u64::from(turn.lines) + 1;
        match held_finding(stream, length) {
            Finding::Right => self.no_end(line),
            found => self.finding(line, found),
        }
    }

    // Tells why the file was not opened.
    pub fn unopened(&mut self, error: io::Error) -> io::Result<()> {
        self.errors.write_all(self.name)?;
        match error.kind() {
            ErrorKind::NotFound => writeln!(self.errors, ": no such file, counts as empty"),
            _ => writeln!(self.errors, ": cannot be opened, counts as empty"),
        }
    }

    // Tells why the file is refused, for a buffer of this length; nothing of one that is read.
    pub fn refusal(&mut self, turn: &Turn, length: usize) -> io::Result<()> {
        if turn.state == Reading::Failed {
            self.errors.write_all(self.name)?;
            return writeln!(self.errors, ": cannot be read, counts as empty");
        }
        match hex_text::finish(turn.stream, length) {
            Ok(()) => Ok(()),
            Err(_) => self.held(turn, length),
        }
    }
}
