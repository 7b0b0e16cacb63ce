// What the test programs and the benchmarks share: bytes into a slice and out of it, hexadecimal and decimal digits, lines, the cases of a vector file, and
// the arguments of a benchmark. In a vector file numbers are high byte first, and cases follow one another up to the file's end.
#![tactic(auto)]

ghost use Rattle.std.specs.Prelude.{◌≡◌, ◌+◌, ◌*◌, ◌%◌, ◌<◌, ◌≤◌, IfSome, length, slice_set};
ghost use Rattle.std.proofs.lemmas.List.Edits.{sets};
ghost use Rattle.test_support.specs.Arguments.{with_digit, number_of, rows_of};
ghost use Rattle.test_support.specs.Numbers.{hex_value, digit_number, word_at, long_at};
ghost use Rattle.test_support.specs.Edits.{Edited};
ghost use Rattle.test_support.specs.Counts.{counted_of};

use base::{byte_at, word};
use std::io::{Eprint, Read};
use std::rt::Files;
use std::{fmt, io};

// How many differences are printed.
const PRINTED: u64 = 5;

// A byte into a slice; past the end it is dropped.
pub fn store(bytes: &mut [u8], at: usize, byte: u8)
    ensures { bytes.new ≡ slice_set bytes.old at byte }
{
    if at < bytes.len() {
        bytes[at] = byte;
    }
}

// A part into a slice from a place on; past the end it is dropped.
pub fn put(bytes: &mut [u8], at: usize, part: &[u8])
    ensures { bytes.new ≡ sets bytes.old at part.now }
{
    if at < bytes.len() {
        let n = part.len().min(bytes.len() - at);
        bytes[at..at + n].copy_from_slice(&part[..n]);
    }
}

// The value of a hexadecimal digit.
pub fn hex_value(b: u8) -> Option<u8>
    ensures value { digit_number result ≡ hex_value b }
    ensures bound { IfSome result (λ n. n < 16) }
{
    match b {
        b'0'..=b'9' => Some(b - b'0'),
        b'A'..=b'F' => Some(b - b'A' + 10),
        b'a'..=b'f' => Some(b - b'a' + 10),
        _ => None,
    }
}

// The byte of two hexadecimal digits; another character counts as 0.
pub fn hex_byte(high: u8, low: u8) -> u8
    ensures { result ≡ hex_value high % 16 * 16 + hex_value low % 16 }
{
    hex_value(high).unwrap_or(0) * 16 + hex_value(low).unwrap_or(0)
}

// The number of two bytes from a place on; a byte past the end counts as 0. Not that of `entries`, which asks for a bound on the place.
pub fn word_at(s: &[u8], at: usize) -> u16
    ensures { result ≡ word_at s.now at }
{
    if s.len() <= at {
        return 0;
    }
    word(byte_at(s, at), byte_at(s, at + 1))
}

// The number of four bytes from a place on; a byte past the end counts as 0.
pub fn long_at(s: &[u8], at: usize) -> u32
    ensures { result ≡ long_at s.now at }
{
    if s.len() <= at {
        return 0;
    }
    u32::from_be_bytes([
        byte_at(s, at),
        byte_at(s, at + 1),
        byte_at(s, at + 2),
        byte_at(s, at + 3),
    ])
}

// A vector file; one that could not be opened has no bytes.
#[derive(Drop)]
pub struct VectorFile<F> {
    file: Option<F>,
}

impl<F: Read> Read for VectorFile<F> {
    fn read(&mut self, buffer: &mut [u8]) -> io::Result<usize> {
        match &mut self.file {
            Some(file) => file.read(buffer),
            None => Ok(0),
        }
    }
}

// Opens a vector file. One that cannot be opened is told of, and has no cases.
pub fn open<R: Files + Eprint>(rt: &R, path: &[u8]) -> io::Result<VectorFile<R::File>> {
    match reading::open(rt, path) {
        Ok(file) => Ok(VectorFile { file: Some(file) }),
        Err(error) => {
            tell_unopened(rt, path, error)?;
            Ok(VectorFile { file: None })
        }
    }
}

fn tell_unopened(rt: &impl Eprint, path: &[u8], error: io::Error) -> io::Result<()> {
    let name = path.escape_ascii();
    eprintln!(rt; "{name}: {error}")
}

// Reads into a buffer up to its end or the file's, and answers how many bytes it read.
pub fn read_full(file: &mut impl Read, buffer: &mut [u8]) -> usize
    ensures { result ≤ length buffer.new }
{
    reading::read_full(file, buffer)
}

// The next byte of a file, 0 at its end: the programs take a byte of 0 and the end alike.
pub fn read_byte(file: &mut impl Read) -> u8 {
    let mut one = [0u8; 1];
    read_full(file, &mut one);
    one[0]
}

// Reads the next line of a text, without its LF, up to the file's end or the slice's, and answers its length. By index: the place is the answer.
pub fn read_line(file: &mut impl Read, line: &mut [u8]) -> usize {
    for n in 0..line.len() {
        match read_byte(file) {
            b'\n' | 0 => return n,
            b => line[n] = b,
        }
    }
    line.len()
}

// Makes the next edit of a file, address 2 and byte 1; whether the file has it all.
#[tactic(auto, using(crate::specs::Edits::edited_one))]
fn read_edit(file: &mut impl Read, bytes: &mut [u8]) -> bool
    ensures { Edited bytes.old bytes.new }
{
    let mut three = [0u8; 3];
    let n = read_full(file, &mut three);
    store(bytes, usize::from(word(three[0], three[1])), three[2]);
    n == 3
}

// Makes the next edits of a file, count 2 and that many edits; whether the file has them all.
#[tactic(auto, using(crate::specs::Edits::edited_more))]
pub fn read_edits(file: &mut impl Read, bytes: &mut [u8]) -> bool
    ensures { Edited bytes.old bytes.new }
{
    let mut two = [0u8; 2];
    let mut whole = read_full(file, &mut two) == 2;
    for _ in 0..word(two[0], two[1]) {
        whole &= read_edit(file, bytes);
    }
    whole
}

// A case of a file: alike, or different.
#[derive(Clone, Copy, Debug, PartialEq, Eq)]
pub enum Case {
    Same,
    Differs,
}

// How many cases were compared, and how many of them differ.
#[derive(Clone, Copy, Default)]
pub struct Counts {
    pub compared: u64,
    pub differ: u64,
}

impl Counts {
    // One case more.
    pub fn counted(self, case: Case) -> Counts
        ensures { result ≡ counted_of self case }
    {
        Counts {
            compared: self.compared.wrapping_add(1),
            differ: match case {
                Case::Same => self.differ,
                Case::Differs => self.differ.wrapping_add(1),
            },
        }
    }

    // Whether a case that differs is told of: the first few are. The line begins with its number.
    pub fn tells(self, rt: &impl Print) -> io::Result<bool> {
        if self.differ >= PRINTED {
            return Ok(false);
        }
        print!(rt; "case {}", self.compared)?;
        Ok(true)
    }
}

// The last line of a test program.
impl fmt::Display for Counts {
    fn fmt<W: fmt::Write>(&self, f: &mut fmt::Formatter<W>) -> fmt::Result {
        write!(f, "{} compared, {} differ", self.compared, self.differ)
    }
}

// Runs the cases of a vector file, and prints how many were compared and how many of them differ. A call of `run_case` reads the next case and compares it, and
// answers `None` at the file's end.
pub fn run_cases<R: Files + Print + Eprint, F>(rt: &R, name: &[u8], run_case: F) -> io::Result<()>
where
    F: Fn(&mut VectorFile<R::File>, Counts) -> io::Result<Option<Case>>,
    requires { F.IsAlwaysCallable run_case }
{
    let mut file = open(rt, name)?;
    let mut counts = Counts::default();
    for _ in 0..u64::MAX {
        let Some(case) = run_case(&mut file, counts)? else {
            break;
        };
        counts = counts.counted(case);
    }
    drop(file);
    println!(rt; "{counts}")
}

// A number with one more decimal digit behind it, of ten digits at most.
pub fn with_digit(n: u64, digit: u8) -> u64
    ensures { result ≡ with_digit n digit }
{
    n % 1000000000 * 10 + u64::from(digit % 16)
}

// The number that decimal digits give, the last ten of them.
#[tactic(auto, unfolding(crate::specs::Arguments::number_of))]
pub fn number(text: &[u8]) -> u64
    ensures { result ≡ number_of text.now }
{
    text.iter().copied().fold(0, with_digit)
}

// The rows from the first to the last.
#[derive(Clone, Copy)]
pub struct Rows {
    pub first: u64,
    pub last: u64,
}

// The one row that an argument names, or with 0 all, 1 to `count`.
pub fn rows_of(what: u64, count: u64) -> Rows
    ensures { result ≡ rows_of what count }
{
    if what == 0 {
        return Rows {
            first: 1,
            last: count,
        };
    }
    Rows {
        first: what,
        last: what,
    }
}
