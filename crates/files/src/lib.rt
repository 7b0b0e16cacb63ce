// Reads an image file and a certificate file, and writes the text of their judgement. What is wrong in a file is told on a writer.
#![tactic(auto)]

mod tell;

ghost use Rattle.std.specs.Prelude.{◌≡◌, ◌<◌};
ghost use Rattle.hex_text.specs.Text.{text_outcome};
ghost use Rattle.hex_text.specs.Stream.{started};
ghost use Rattle.hex_write.specs.ImageText.{written_outcome};
ghost use Rattle.files.specs.Reading.{reading_number, counted, line_end, Turned, turns_left, answer_of, Reads, Judges};

use base::{InvalidArgument, Profile, byte_at};
use hex_line::Fault;
use hex_text::{Lines, Stream};
use std::io::{Read, Write};
use std::rt::Files;
use tell::Teller;

// How the reading of a file stands.
#[derive(Clone, Copy, Debug, PartialEq, Eq)]
pub enum Reading {
    GoesOn,
    Ended,
    Failed,
    // A line is refused, so the answer is settled, whatever stands behind it.
    Refused,
}

// What was read of a file: the stream, how many lines ended before a refused one, and how the reading stands.
#[derive(Clone, Copy)]
pub struct Turn {
    pub stream: Stream,
    pub lines: u32,
    pub state: Reading,
}

// One more line if this character ends one. The count stays at its greatest value.
#[tactic(auto, unfolding(crate::specs::Reading::counted))]
fn count_line(lines: u32, last: u8) -> u32
    ensures { result ≡ counted lines (line_end last) }
{
    if last == b'\n' {
        lines.saturating_add(1)
    } else {
        lines
    }
}

// Feeds a piece line by line, up to the first refused one, which is not counted.
fn feed_lines(s: Stream, lines: u32, piece: &[u8], buffer: &mut [u8]) -> Turn
    requires { s.number ≡ 0 }
    ensures { Turned s result.stream lines result.lines (reading_number result.state) buffer.old buffer.new }
{
    let mut stream = s;
    let mut count = lines;
    for line in Lines(piece) {
        let next = hex_text::feed(stream, line, buffer);
        if next.number != 0 {
            return Turn {
                stream: next,
                lines: count,
                state: Reading::Refused,
            };
        }
        stream = next;
        count = count_line(count, byte_at(line, line.len().saturating_sub(1)));
    }
    Turn {
        stream,
        lines: count,
        state: Reading::GoesOn,
    }
}

// Reads once, and feeds what came.
fn read_piece(file: &mut impl Read, stream: Stream, lines: u32, buffer: &mut [u8]) -> Turn
    requires { stream.number ≡ 0 }
    ensures { Turned stream result.stream lines result.lines (reading_number result.state) buffer.old buffer.new }
{
    let mut piece = [0u8; 4096];
    match file.read(&mut piece) {
        Ok(0) => Turn {
            stream,
            lines,
            state: Reading::Ended,
        },
        Ok(n) => feed_lines(stream, lines, &piece[..n], buffer),
        Err(_) => Turn {
            stream,
            lines,
            state: Reading::Failed,
        },
    }
}

// How many turns are left behind one: none once the file ended, failed or is refused.
fn turns_left(turns: u64, state: Reading) -> u64
    requires { 0 < turns }
    ensures { result ≡ turns_left turns (reading_number state) }
{
    if state == Reading::GoesOn {
        turns - 1
    } else {
        0
    }
}

// Reads an open file to its end or to its first refused line. The turns are more than any file has pieces. They are counted by hand: S`turns_left` says how
// many are left.
fn read_open(file: &mut impl Read, buffer: &mut [u8]) -> Turn
    ensures { Turned started result.stream 0 result.lines (reading_number result.state) buffer.old buffer.new }
{
    let mut turn = Turn {
        stream: hex_text::start(),
        lines: 0,
        state: Reading::GoesOn,
    };
    let mut turns = u64::MAX;
    while turns > 0 {
        turn = read_piece(file, turn.stream, turn.lines, buffer);
        turns = turns_left(turns, turn.state);
    }
    turn
}

// The answer to what was read, for a buffer of this length. A file that cannot be read to its end counts as empty.
fn answer_of(turn: Turn, length: usize) -> Result<(), Fault>
    ensures { text_outcome result ≡ answer_of turn.stream (reading_number turn.state) length }
{
    match turn.state {
        Reading::Failed => hex_text::finish(hex_text::start(), length),
        Reading::GoesOn | Reading::Ended | Reading::Refused => {
            hex_text::finish(turn.stream, length)
        }
    }
}

// Reads a file by its name into a buffer, as the HEX readers go by its length. A missing file counts as empty. When a line is refused, the lines before it
// are in the buffer. What is wrong in the file is told in one line on the writer `errors`; what that cannot take changes no answer.
pub fn read_file(
    rt: &impl Files,
    name: &[u8],
    buffer: &mut [u8],
    errors: &mut impl Write,
) -> Result<(), Fault>
    ensures { Reads (text_outcome result) buffer.old buffer.new }
{
    match reading::open(rt, name) {
        Ok(mut file) => {
            let turn = read_open(&mut file, buffer);
            let _ = Teller { errors, name }.refusal(&turn, buffer.len());
            answer_of(turn, buffer.len())
        }
        Err(error) => {
            let _ = Teller { errors, name }.unopened(error);
            hex_text::finish(hex_text::start(), buffer.len())
        }
    }
}

// Reads an image file and a certificate file by their names, writes the text of their judgement at the front of a buffer, and answers how many bytes were
// written. What is wrong in a file is told in one line on the writer `errors`.
pub fn judge_files(
    rt: &impl Files,
    image_name: &[u8],
    certificate_name: &[u8],
    out: &mut [u8],
    errors: &mut impl Write,
) -> Result<usize, InvalidArgument>
    ensures { Judges (written_outcome result) out.old out.new }
{
    let mut image = judge::blank_image();
    let mut cert = judge::blank_certificate();
    let image_read = read_file(rt, image_name, &mut image, errors);
    let certificate_read = read_file(rt, certificate_name, &mut cert, errors);
    let verdict = checker::check(Profile::Rom4K, &image, &cert);
    let image_number = judge::numbered(image_read);
    let certificate_number = judge::numbered(certificate_read);
    judge::write_judgement(image_number, certificate_number, verdict, &cert, out)
}
