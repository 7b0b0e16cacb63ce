// Reads Intel HEX: a whole lent text, or a file that is fed in pieces.
#![tactic(auto)]

ghost use Rattle.std.specs.Prelude.{◌≡◌, ◌+◌, ◌<◌, ◌==◌, length, drop, position};
ghost use Rattle.std.specs.Iterator.{YieldsFirstRef, item_count};
ghost use Rattle.hex_line.specs.Line.{begun, fault_number};
ghost use Rattle.hex_text.specs.Text.{lines, first_length, text_outcome, end_answer, lines_answer, lines_buffer, text_answer, text_buffer};
ghost use Rattle.hex_text.specs.Stream.{started, long_number, push_stream, push_buffer, feed_stream, feed_buffer, told_number, finish_answer};

use hex_line::{Fault, Reader};

// The answer behind the last line: 6 where no end line was read.
fn end_answer(reader: Reader) -> Result<(), Fault>
    ensures { text_outcome result ≡ end_answer reader }
{
    if reader.ended {
        Ok(())
    } else {
        Err(Fault::AfterEnd)
    }
}

// Where the first LF of a text stands.
fn line_feed(text: &[u8]) -> Option<usize>
    ensures { result ≡ position (λ c. c == 10) text.now }
{
    text.iter().position(|c| *c == b'\n')
}

// The position behind the line that starts at a position, its LF included; a position at or past the text's end is handed back.
pub fn line_behind(text: &[u8], at: usize) -> usize
    ensures { result ≡ at + first_length (drop at text.now) }
{
    if at >= text.len() {
        return at;
    }
    match line_feed(&text[at..]) {
        Some(length) => at + length + 1,
        None => text.len(),
    }
}

// The lines of a text in turn, each with its LF.
#[derive(Drop)]
pub struct Lines<'a>(pub &'a [u8]);

impl<'a> Iterator for Lines<'a> {
    type Item = &'a [u8];

    ghost next_gives = { YieldsFirstRef (λ s. lines s.0.now) };

    ghost remaining = { item_count (λ s. lines s.0.now) };

    fn next(&mut self) -> Option<&'a [u8]> {
        if self.0.is_empty() {
            return None;
        }
        let (line, rest) = self.0.split_at(line_behind(self.0, 0));
        self.0 = rest;
        Some(line)
    }
}

// The answer to the lines of a text for a buffer of this length. It writes nothing.
#[tactic(auto, unfolding(crate::specs::Text::lines_answer))]
fn check_lines(text: &[u8], length: usize) -> Result<(), Fault>
    ensures { text_outcome result ≡ lines_answer (lines text.now) begun length }
{
    let mut reader = hex_line::new_reader();
    for line in Lines(text) {
        reader = hex_line::check_line(line, length, reader)?;
    }
    end_answer(reader)
}

// Writes the data of the lines of a text, up to the first that is refused.
#[tactic(auto, unfolding(crate::specs::Text::lines_buffer, hex_line::specs::Line::buffer_by))]
fn write_lines(text: &[u8], buffer: &mut [u8])
    ensures { buffer.new ≡ lines_buffer (lines text.now) begun buffer.old }
{
    let mut reader = hex_line::new_reader();
    for line in Lines(text) {
        let Ok(next) = hex_line::read_line(line, buffer, reader) else {
            return;
        };
        reader = next;
    }
}

// Reads a whole text into a buffer. A refusal leaves the buffer as it was: the lines are checked first, then written.
#[tactic(auto, unfolding(crate::specs::Text::text_answer, crate::specs::Text::text_buffer))]
pub fn read_text(text: &[u8], buffer: &mut [u8]) -> Result<(), Fault>
    ensures result_value { text_outcome result ≡ text_answer text.now (length buffer.old) }
    ensures buffer_after { buffer.new ≡ text_buffer text.now buffer.old }
{
    if !hex_line::is_buffer_length(buffer.len()) {
        return Err(Fault::WrongLength);
    }
    check_lines(text, buffer.len())?;
    write_lines(text, buffer);
    Ok(())
}

// The longest valid line: a colon, 260 pairs of digits, CR LF.
pub const LONGEST: usize = 523;

// A file that is being read: the reader, the characters of the unfinished line, how many they are, and the number of the refusal, 0 while there is none.
// Held characters and their count are no `Vec`: no heap. A number, and no `Option<Fault>`, which would ask more of a caller: `finish_answer` answers a stream with any number.
#[derive(Clone, Copy, Debug, PartialEq, Eq)]
pub struct Stream {
    pub reader: Reader,
    pub held: [u8; LONGEST],
    pub count: usize,
    pub number: u8,
}

// Before the first piece.
pub fn start() -> Stream
    ensures { result ≡ started }
{
    Stream {
        reader: hex_line::new_reader(),
        held: [0; LONGEST],
        count: 0,
        number: 0,
    }
}

// The refusal of a line that is longer than any valid one.
fn long_line(reader: Reader, length: usize) -> Fault
    ensures { fault_number result ≡ long_number reader length }
{
    if !hex_line::is_buffer_length(length) {
        Fault::WrongLength
    } else if reader.ended {
        Fault::AfterEnd
    } else {
        Fault::Malformed
    }
}

// Reads the next piece of a file, cut anywhere. A character is held, and LF ends the line. Behind a refusal all is ignored. The count is kept apart from the
// stream until the end: in it, it would be stored at each character.
#[tactic(auto, unfolding(crate::specs::Stream::push_stream, crate::specs::Stream::push_buffer))]
pub fn feed(mut s: Stream, piece: &[u8], buffer: &mut [u8]) -> Stream
    ensures value { result ≡ feed_stream (length buffer.old) s piece.now }
    ensures buffer_after { buffer.new ≡ feed_buffer s piece.now buffer.old }
{
    if s.number != 0 {
        return s;
    }
    let mut count = s.count;
    for c in piece {
        if count >= LONGEST {
            s.number = u8::from(long_line(s.reader, buffer.len()));
            s.count = count;
            return s;
        }
        s.held[count] = *c;
        count += 1;
        if *c == b'\n' {
            match hex_line::read_line(&s.held[..count], buffer, s.reader) {
                Ok(next) => {
                    s.reader = next;
                    count = 0;
                }
                Err(fault) => {
                    s.number = u8::from(fault);
                    s.count = count;
                    return s;
                }
            }
        }
    }
    s.count = count;
    s
}

// The refusal by which a refused file is told. A stream that `start` and `feed` did not make can hold another number than 1 to 7, which counts as 1.
fn told_fault(number: u8) -> Fault
    requires { 0 < number }
    ensures { fault_number result ≡ told_number number }
{
    Fault::try_from(number).unwrap_or(Fault::Malformed)
}

// The file ends: the answer for a buffer of this length. Nothing is left to write: a last line without LF is the end line, or the file is refused.
#[tactic(auto, unfolding(crate::specs::Stream::finish_answer))]
pub fn finish(s: Stream, length: usize) -> Result<(), Fault>
    ensures { text_outcome result ≡ finish_answer length s }
{
    if s.number != 0 {
        return Err(told_fault(s.number));
    }
    if !hex_line::is_buffer_length(length) {
        return Err(Fault::WrongLength);
    }
    if s.count == 0 {
        return end_answer(s.reader);
    }
    if s.count > LONGEST {
        return Err(long_line(s.reader, length));
    }
    end_answer(hex_line::check_line(&s.held[..s.count], length, s.reader)?)
}
