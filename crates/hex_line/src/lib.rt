// Reads one line of Intel HEX into a lent image or certificate.
#![tactic(auto)]

ghost use Rattle.std.specs.Prelude.{◌≡◌, ◌+◌, ◌*◌, ◌%◌, ◌<◌, ◌≤◌, ◌++◌, IfSome, length, drop};
ghost use Rattle.hex_line.specs.Record.{digit_of, digit_value, joined, pair_value, sum_of, parse_body, parsed_outcome, Small, body_length, body_of};
ghost use Rattle.hex_line.specs.Sum.{AllPairs, total_of};
ghost use Rattle.hex_line.specs.Pairs.{Kept, count_in, address_in, fields_in, stored_from, KeptUnless};
ghost use Rattle.hex_line.specs.Line.{buffer_length, begun, fault_number, HasNumber, line_outcome, checked_outcome, check_fields, check_body, place_fields, read_fields, read_line, line_buffer};

use base::{InvalidArgument, byte_at};
use std::error::Error;
use std::fmt;

// Where the last record ended, and whether the end line was read. No `Option`: the place stays behind the end line (S`place_fields`).
#[derive(Clone, Copy, Debug, PartialEq, Eq)]
pub struct Reader {
    pub next: usize,
    pub ended: bool,
}

// The refusals 1 to 7, by their numbers in the table of answers.
#[derive(Clone, Copy, Debug, PartialEq, Eq)]
pub enum Fault {
    Malformed = 1,
    BadSum = 2,
    BadType = 3,
    Overlap = 4,
    PastEnd = 5,
    AfterEnd = 6,
    WrongLength = 7,
}

impl fmt::Display for Fault {
    fn fmt<W: fmt::Write>(&self, f: &mut fmt::Formatter<W>) -> fmt::Result {
        f.write_str(match self {
            Fault::Malformed => "no record of Intel HEX",
            Fault::BadSum => "a sum that is not 0 modulo 256",
            Fault::BadType => "a record type other than 00 and 01",
            Fault::Overlap => "a record that begins before the last record's end",
            Fault::PastEnd => "a record that ends past the buffer",
            Fault::AfterEnd => "a line behind the end line, or no end line",
            Fault::WrongLength => "a buffer of wrong length",
        })
    }
}

impl Error for Fault {}

// The number of a refusal in the table of answers.
impl From<Fault> for u8 {
    ghost from_gives = { λ fault number. number ≡ fault_number fault };

    fn from(fault: Fault) -> u8 {
        number(fault)
    }
}

// The refusal with a number, 1 to 7.
impl TryFrom<u8> for Fault {
    type Error = InvalidArgument;

    ghost try_from_gives = { HasNumber };

    fn try_from(number: u8) -> Result<Fault, InvalidArgument> {
        match number {
            1 => Ok(Fault::Malformed),
            2 => Ok(Fault::BadSum),
            3 => Ok(Fault::BadType),
            4 => Ok(Fault::Overlap),
            5 => Ok(Fault::PastEnd),
            6 => Ok(Fault::AfterEnd),
            7 => Ok(Fault::WrongLength),
            _ => Err(InvalidArgument),
        }
    }
}

// The fields of a well-formed line: number of data bytes, address, record type, and the sum of all bytes modulo 256. The type is the byte that
// stands there: `hex_fault` tells of each.
#[derive(Clone, Copy, Debug, PartialEq, Eq)]
pub struct Fields {
    pub count: usize,
    pub address: usize,
    pub kind: u16,
    pub sum: u16,
}

// The reader before the first line.
pub fn new_reader() -> Reader
    ensures { result ≡ begun }
{
    Reader {
        next: 0,
        ended: false,
    }
}

// The number of a refusal in the table of answers, as `u8::from` gives it: docs/LIBRARY.md names this call.
pub fn number(fault: Fault) -> u8
    ensures { result ≡ fault_number fault }
{
    fault as u8
}

// Whether a lent buffer has the length of an image or of a certificate.
pub fn is_buffer_length(n: usize) -> bool
    ensures { result ≡ buffer_length n }
{
    base::is_image_length(n) || base::is_certificate_length(n)
}

// The value of each character as a hexadecimal digit, 0 to 9 or A to F; 16 of one that is none. Bytes, and no options:
// `Some(..)` at 256 places would be no plainer.
const DIGITS: [u8; 256] = [
    16, // 00H
    16, 16, 16, 16, 16, 16, 16, 16, 16, 16, 16, 16, 16, 16, 16, 16, // 10H
    16, 16, 16, 16, 16, 16, 16, 16, 16, 16, 16, 16, 16, 16, 16, 16, // 20H
    16, 16, 16, 16, 16, 16, 16, 16, 16, 16, 16, 16, 16, 16, 16, 0, // 30H
    1, 2, 3, 4, 5, 6, 7, 8, 9, 16, 16, 16, 16, 16, 16, 16, // 40H
    10, // 41H: A
    11, 12, 13, 14, 15, 16, 16, 16, 16, 16, 16, 16, 16, 16, 16, // 50H
    16, 16, 16, 16, 16, 16, 16, 16, 16, 16, 16, 16, 16, 16, 16, 16, // 60H
    16, // 61H: a
    16, 16, 16, 16, 16, // 66H: f
    16, 16, 16, 16, 16, 16, 16, 16, 16, 16, // 70H
    16, 16, 16, 16, 16, 16, 16, 16, 16, 16, 16, 16, 16, 16, 16, 16, // 80H
    16, 16, 16, 16, 16, 16, 16, 16, 16, 16, 16, 16, 16, 16, 16, 16, // 90H
    16, 16, 16, 16, 16, 16, 16, 16, 16, 16, 16, 16, 16, 16, 16, 16, // A0H
    16, 16, 16, 16, 16, 16, 16, 16, 16, 16, 16, 16, 16, 16, 16, 16, // B0H
    16, 16, 16, 16, 16, 16, 16, 16, 16, 16, 16, 16, 16, 16, 16, 16, // C0H
    16, 16, 16, 16, 16, 16, 16, 16, 16, 16, 16, 16, 16, 16, 16, 16, // D0H
    16, 16, 16, 16, 16, 16, 16, 16, 16, 16, 16, 16, 16, 16, 16, 16, // E0H
    16, 16, 16, 16, 16, 16, 16, 16, 16, 16, 16, 16, 16, 16, 16, 16, // F0H
    16, 16, 16, 16, 16, 16, 16, 16, 16, 16, 16, 16, 16, 16, 16,
];

// The value of a character as a digit.
pub fn digit(c: u8) -> Option<u8>
    ensures value { digit_value result ≡ digit_of c }
    ensures small { IfSome result (λ d. d < 16) }
{
    let value = DIGITS[c as usize];
    if value < 16 { Some(value) } else { None }
}

// The value of two characters as a pair of digits.
pub fn pair(high: u8, low: u8) -> Option<u8>
    ensures { pair_value result ≡ joined (digit_of high) (digit_of low) }
{
    Some(digit(high)? * 16 + digit(low)?)
}

// The value of two digits that are given as numbers, 256 where one is none.
pub fn join(high: u16, low: u16) -> u16
    ensures { (result ≡ joined high low) × (result < 257) }
{
    if high < 16 && low < 16 {
        high * 16 + low
    } else {
        256
    }
}

// The most pairs that a line has: length byte, address, type, 255 data bytes, sum.
const PAIRS: usize = 260;

// The most characters that a line has without its end: a colon and these pairs.
pub const LONGEST_BODY: usize = 521;

// Reads the first n pairs behind the colon in the order of the text, keeps each as a byte and adds it to the sum modulo 256. The answer is the sum;
// none where a pair is none. The second clause is the law of the sum so far, for any number of pairs.
fn gather(body: &[u8], n: usize, pairs: &mut [u8]) -> Option<u8>
    requires { (n * 2 < length body.now) × (n ≤ length pairs.old) }
    ensures value { pair_value result ≡ sum_of body.now n }
    ensures value_2 { AllPairs body.now n → pair_value result ≡ total_of body.now n % 256 }
    ensures kept { pair_value result < 256 → Kept body.now n pairs.new }
{
    let digits = DIGITS;
    let mut sum: u8 = 0;
    // By index: the law of the sum (S`sum_of`) counts the pairs.
    for i in 0..n {
        let high = digits[body[i * 2 + 1] as usize];
        if high > 15 {
            return None;
        }
        let low = digits[body[i * 2 + 2] as usize];
        if low > 15 {
            return None;
        }
        let pair = high * 16 + low;
        pairs[i] = pair;
        sum = sum.wrapping_add(pair);
    }
    Some(sum)
}

// The length byte and the address in the pairs of a line.
fn extent_in(pairs: &[u8; PAIRS]) -> (usize, usize)
    ensures { (result.0 ≡ count_in pairs.now) × (result.1 ≡ address_in pairs.now) }
{
    (
        usize::from(pairs[0]),
        usize::from(base::word(pairs[1], pairs[2])),
    )
}

// The fields in the n pairs of a line, if its length byte calls for so many.
fn fields_in(pairs: &[u8; PAIRS], n: usize, sum: u8) -> Option<Fields>
    ensures { (parsed_outcome result ≡ fields_in pairs.now n sum) × Small result }
{
    let (count, address) = extent_in(pairs);
    if count + 5 != n {
        return None;
    }
    Some(Fields {
        count,
        address,
        kind: u16::from(pairs[3]),
        sum: u16::from(sum),
    })
}

// As `parse` below, and keeps the pairs of a well-formed line.
fn parse_pairs(body: &[u8], pairs: &mut [u8; PAIRS]) -> Option<Fields>
    ensures result_value { (parsed_outcome result ≡ parse_body body.now) × Small result }
    ensures kept_unless { KeptUnless (parsed_outcome result) body.now pairs.new }
{
    let n = body.len() / 2;
    if body.len() != n * 2 + 1 {
        return None;
    }
    if n > PAIRS {
        return None;
    }
    if body[0] != b':' {
        return None;
    }
    let sum = gather(body, n, pairs)?;
    fields_in(pairs, n, sum)
}

// The fields of a line without its end, if it is a colon and the pairs that its length byte calls for.
pub fn parse(body: &[u8]) -> Option<Fields>
    ensures { (parsed_outcome result ≡ parse_body body.now) × Small result }
{
    parse_pairs(body, &mut [0; PAIRS])
}

// The faults of the fields themselves: a type 01 line other than the end line, the sum, the type.
fn check_fields(f: Fields) -> Result<(), Fault>
    ensures { checked_outcome result ≡ check_fields f }
{
    match f {
        Fields {
            kind: 1,
            count: 0,
            address: 0,
            sum: 0,
        } => Ok(()),
        Fields { kind: 1, .. } => Err(Fault::Malformed),
        Fields {
            sum: 0,
            kind: 0,
            ..
        } => Ok(()),
        Fields { sum: 0, .. } => Err(Fault::BadType),
        _ => Err(Fault::BadSum),
    }
}

// 1 to 3 of a line without its end. They concern neither reader nor buffer.
pub fn check_body(body: &[u8]) -> Result<(), Fault>
    ensures { checked_outcome result ≡ check_body body.now }
{
    let Some(f) = parse(body) else {
        return Err(Fault::Malformed);
    };
    check_fields(f)
}

// The reader behind the end line or a record, if the record lies where it may.
fn place(reader: Reader, length: usize, f: Fields) -> Result<Reader, Fault>
    requires { Small (Some f) }
    ensures { line_outcome result ≡ place_fields reader length f }
{
    if f.kind == 1 {
        return Ok(Reader {
            ended: true,
            ..reader
        });
    }
    if f.address < reader.next {
        return Err(Fault::Overlap);
    }
    let next = f.address + f.count;
    if next > length {
        return Err(Fault::PastEnd);
    }
    Ok(Reader { next, ended: false })
}

// The answer to the fields of a well-formed line, for a buffer of this length.
fn answer(reader: Reader, length: usize, f: Fields) -> Result<Reader, Fault>
    requires { Small (Some f) }
    ensures { line_outcome result ≡ read_fields reader length f }
{
    check_fields(f)?;
    place(reader, length, f)
}

// How much of a line stands before its LF or CR LF.
#[tactic(auto, unfolding(crate::specs::Record::body_length))]
pub fn body_length(line: &[u8]) -> usize
    ensures { (result ≡ body_length line.now) × (result ≤ length line.now) }
{
    let before = line.len().saturating_sub(2);
    let last = line.len().saturating_sub(1);
    match (byte_at(line, before), byte_at(line, last)) {
        (b'\r', b'\n') => before,
        (_, b'\n') => last,
        _ => line.len(),
    }
}

// As `check_line` below, and keeps the pairs of a line that is read.
fn decide(
    line: &[u8],
    size: usize,
    reader: Reader,
    pairs: &mut [u8; PAIRS],
) -> Result<Reader, Fault>
    ensures result_value { line_outcome result ≡ read_line reader size line.now }
    ensures kept_unless { KeptUnless (line_outcome result) (body_of line.now) pairs.new }
{
    if !is_buffer_length(size) {
        return Err(Fault::WrongLength);
    }
    if reader.ended {
        return Err(Fault::AfterEnd);
    }
    let body = &line[..body_length(line)];
    let Some(f) = parse_pairs(body, pairs) else {
        return Err(Fault::Malformed);
    };
    answer(reader, size, f)
}

// The answer to a line, with or without its LF or CR LF, for a buffer of this length. It writes nothing.
pub fn check_line(line: &[u8], length: usize, reader: Reader) -> Result<Reader, Fault>
    ensures { line_outcome result ≡ read_line reader length line.now }
{
    decide(line, length, reader, &mut [0; PAIRS])
}

// Writes the data of a line, from its pairs, straight into the buffer from the record's address on.
fn store(pairs: &[u8; PAIRS], buffer: &mut [u8])
    requires { address_in pairs.now + count_in pairs.now ≤ length buffer.old }
    ensures { buffer.new ≡ stored_from pairs.now buffer.old }
{
    let (count, address) = extent_in(pairs);
    buffer[address..address + count].copy_from_slice(&pairs[4..count + 4]);
}

// Reads a line, with or without its LF or CR LF. A refusal leaves the buffer as it was.
pub fn read_line(line: &[u8], buffer: &mut [u8], reader: Reader) -> Result<Reader, Fault>
    ensures result_value { line_outcome result ≡ read_line reader (length buffer.old) line.now }
    ensures buffer_after { buffer.new ≡ line_buffer reader line.now buffer.old }
{
    let mut pairs = [0; PAIRS];
    let next = decide(line, buffer.len(), reader, &mut pairs)?;
    store(&pairs, buffer);
    Ok(next)
}
