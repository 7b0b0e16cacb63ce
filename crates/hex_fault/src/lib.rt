// What was found in a refused line of Intel HEX, and what should stand there.
#![tactic(auto)]

ghost use Rattle.std.specs.Prelude.{◌≡◌, ◌+◌, ◌<◌, ◌≤◌, length, drop};
ghost use Rattle.hex_line.specs.Line.{fault_number};
ghost use Rattle.hex_fault.specs.Finding.{digits_from, called_for, wrong_count, malformed, last_pair, bad_sum, line_finding, refusal_finding, finding_of};

use base::byte_at;
use hex_line::{Fault, LONGEST_BODY, Reader};
use std::fmt;

// Right: the line is read; no `Option`, since `finding_number` has it as 0. Two numbers are what was found and what should stand there.
#[derive(Clone, Copy, Debug, PartialEq, Eq)]
pub enum Finding {
    Right,
    OtherBuffer,
    BehindEnd,
    Empty,
    // another first character than a colon
    NoColon(u8),
    // the number of a character, from 1, and the character
    NoDigit(usize, u8),
    // too few characters for a length byte
    Cut(usize),
    // characters
    Characters(usize, usize),
    // a type 01 line other than the end line
    NoEndLine,
    // the sum byte
    Sum(u16, u16),
    // the record type
    Type(u16),
    // the record's address, and the least that it may have
    Address(usize, usize),
    // the record's end, and the most that it may be
    End(usize, usize),
}

// A number of things, as `1 line` and `2 lines`.
#[derive(Clone, Copy, Debug, PartialEq, Eq)]
pub struct Count<'a>(pub u64, pub &'a str);

impl<'a> fmt::Display for Count<'a> {
    fn fmt<W: fmt::Write>(&self, f: &mut fmt::Formatter<W>) -> fmt::Result {
        let ending = if self.0 == 1 { "" } else { "s" };
        write!(f, "{} {}{ending}", self.0, self.1)
    }
}

// A character that can be seen in quotes, another by its code.
#[derive(Clone, Copy)]
struct Character(u8);

impl fmt::Display for Character {
    fn fmt<W: fmt::Write>(&self, f: &mut fmt::Formatter<W>) -> fmt::Result {
        if self.0.is_ascii_graphic() {
            write!(f, "'{}'", char::from(self.0))
        } else {
            write!(f, "{:02X}H", self.0)
        }
    }
}

// How many characters a line has. More than any valid line has are not counted on.
#[derive(Clone, Copy)]
struct Characters(usize);

impl fmt::Display for Characters {
    fn fmt<W: fmt::Write>(&self, f: &mut fmt::Formatter<W>) -> fmt::Result {
        if self.0 > LONGEST_BODY {
            f.write_str("more than ")?;
        }
        write!(f, "{}", Count(self.0.min(LONGEST_BODY) as u64, "character"))
    }
}

// What was found, and what should stand there: bytes have two digits, addresses four or five.
impl fmt::Display for Finding {
    fn fmt<W: fmt::Write>(&self, f: &mut fmt::Formatter<W>) -> fmt::Result {
        match *self {
            Finding::Right | Finding::OtherBuffer => Ok(()),
            Finding::BehindEnd => f.write_str("line behind the end line"),
            Finding::Empty => f.write_str("empty line"),
            Finding::NoColon(c) => write!(f, "character 1 is {}, should be ':'", Character(c)),
            Finding::NoDigit(number, c) => write!(
                f,
                "character {number} is {}, should be 0 to 9 or A to F",
                Character(c)
            ),
            Finding::Cut(found) => write!(f, "{}, should be 11 or more", Characters(found)),
            Finding::Characters(found, right) => {
                write!(f, "{}, should be {right}", Characters(found))
            }
            Finding::NoEndLine => f.write_str("type 01, but not the end line :00000001FF"),
            Finding::Sum(found, right) => {
                write!(f, "sum {:02X}, should be {right:02X}", found % 256)
            }
            Finding::Type(found) => write!(f, "type {:02X}, should be 00 or 01", found % 256),
            Finding::Address(found, right) => {
                write!(f, "address {found:04X}, should be {right:04X} or more")
            }
            Finding::End(found, right) => {
                write!(f, "ends at {found:04X}, should be {right:04X} at most")
            }
        }
    }
}

// Where the digits behind the colon end: the position of the first character that is none, or the length.
fn digits_end(body: &[u8]) -> usize
    requires { 0 < length body.now }
    ensures { (result ≡ 1 + digits_from (drop 1 body.now)) × (result ≤ length body.now) }
{
    // By index: the position is the answer. With `is_none` in place of `let .. else` it is not proved (tried).
    for i in 1..body.len() {
        let Some(_) = hex_line::digit(body[i]) else {
            return i;
        };
    }
    body.len()
}

// How many characters the length byte calls for. One that is no pair counts as 256, as in S`last_pair`: `Finding::Sum` tells it.
#[tactic(auto, unfolding(hex_line::specs::Record::count_by, hex_line::specs::Record::pair_by))]
fn called_for(body: &[u8]) -> usize
    ensures { result ≡ called_for body.now }
{
    match hex_line::pair(byte_at(body, 1), byte_at(body, 2)) {
        Some(count) => usize::from(count) * 2 + 11,
        None => 256 * 2 + 11,
    }
}

// Not as many characters as the length byte calls for.
fn count_finding(body: &[u8]) -> Finding
    ensures { result ≡ wrong_count body.now }
{
    let n = body.len();
    if n < 3 {
        return Finding::Cut(n);
    }
    Finding::Characters(n, called_for(body))
}

// A line that is no colon with the pairs that its length byte calls for.
#[tactic(auto, unfolding(crate::specs::Finding::malformed))]
fn malformed_finding(body: &[u8]) -> Finding
    ensures { result ≡ malformed body.now }
{
    if body.is_empty() {
        return Finding::Empty;
    }
    if body[0] != b':' {
        return Finding::NoColon(body[0]);
    }
    let end = digits_end(body);
    if end < body.len() && end < called_for(body) {
        return Finding::NoDigit(end + 1, body[end]);
    }
    count_finding(body)
}

// The pair that a line ends with, the sum byte. One that is no pair counts as 256.
#[tactic(auto, unfolding(crate::specs::Finding::last_pair, hex_line::specs::Record::pair_by))]
fn last_pair(body: &[u8]) -> u16
    ensures { (result ≡ last_pair body.now) × (result < 257) }
{
    let at = body.len().saturating_sub(2);
    match hex_line::pair(byte_at(body, at), byte_at(body, at + 1)) {
        Some(sum) => u16::from(sum),
        None => 256,
    }
}

// The sum byte, and the one that makes the sum 0 modulo 256.
fn sum_finding(body: &[u8], sum: u16) -> Finding
    requires { sum < 257 }
    ensures { result ≡ bad_sum body.now sum }
{
    let found = last_pair(body);
    Finding::Sum(found, (found + 256 - sum) % 256)
}

// What was found in a line that is refused for itself.
fn line_finding(fault: Fault, body: &[u8], length: usize, reader: Reader) -> Finding
    ensures { result ≡ line_finding body.now length reader (fault_number fault) }
{
    match (fault, hex_line::parse(body)) {
        (_, None) => malformed_finding(body),
        (Fault::BadSum, Some(f)) => sum_finding(body, f.sum),
        (Fault::BadType, Some(f)) => Finding::Type(f.kind),
        (Fault::Overlap, Some(f)) => Finding::Address(f.address, reader.next),
        (Fault::PastEnd, Some(f)) => Finding::End(f.address + f.count, length),
        (_, Some(_)) => Finding::NoEndLine,
    }
}

// What was found in a line without its end, by its refusal. 7 and 6 are no fault of the line itself, so it is not parsed for them.
fn refusal_finding(fault: Fault, body: &[u8], length: usize, reader: Reader) -> Finding
    ensures { result ≡ refusal_finding body.now length reader (fault_number fault) }
{
    match fault {
        Fault::WrongLength => Finding::OtherBuffer,
        Fault::AfterEnd => Finding::BehindEnd,
        _ => line_finding(fault, body, length, reader),
    }
}

// What was found in a line, with or without its LF or CR LF, for a buffer of this length.
#[tactic(auto, unfolding(crate::specs::Finding::finding_of))]
pub fn find(line: &[u8], length: usize, reader: Reader) -> Finding
    ensures { result ≡ finding_of reader length line.now }
{
    match hex_line::check_line(line, length, reader) {
        Ok(_) => Finding::Right,
        Err(fault) => {
            let body = &line[..hex_line::body_length(line)];
            refusal_finding(fault, body, length, reader)
        }
    }
}
