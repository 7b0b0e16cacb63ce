// Runs the worked examples of the manual's instruction pages (chapter 6), which the file `examples.txt` lists page by page, and 01's of 13 and 14
// among them, and compares what the machine leaves with what the page prints. The form of the file is told at its head. Everything that an
// example does not name has to stay as it was: all 256 registers, program counter, mode, cycle total and refusal are compared. What a page
// leaves open (RAM, FLAGS, SP) is tried as all zeros and as all ones.
#![tactic(auto)]

use base::{FLAGS_INDEX, IMAGE_4K, Profile, RECORD_LENGTH, RomAddr, SP, SP_INDEX};
use semantics::{Configuration, State};
use std::{fmt, io};
use test_support::{Case, Counts, hex_value, store};

// What the left side of a `=` names.
#[derive(Clone, Copy)]
enum Key {
    Register(u8),
    Rom(u16),
    Flag(u8),
    Counter,
    Mode,
    Cycles,
    Refused,
    Steps,
}

// The machine that a page tells of, the number of steps, and the address behind the code. Mode and refusal are numbers: a difference prints them, 3
// for a word that is no mode.
#[derive(Drop)]
struct Page {
    regs: [u8; 256],
    image: [u8; IMAGE_4K],
    pc: u16,
    mode: u8,
    cycles: u32,
    refused: u8,
    steps: u8,
    behind: u16,
}

// Where a page and the machine differ.
#[derive(Clone, Copy)]
enum Place {
    Register(usize),
    Counter,
    Mode,
    Cycles,
    Refusal,
    Unreadable,
}

impl fmt::Display for Place {
    fn fmt<W: fmt::Write>(&self, f: &mut fmt::Formatter<W>) -> fmt::Result {
        match self {
            Place::Register(a) => write!(f, "register {a:02x}"),
            Place::Counter => f.write_str("program counter"),
            Place::Mode => f.write_str("mode"),
            Place::Cycles => f.write_str("cycles"),
            Place::Refusal => f.write_str("refusal"),
            Place::Unreadable => f.write_str("unreadable"),
        }
    }
}

// The first difference.
#[derive(Clone, Copy)]
struct Difference {
    place: Place,
    found: u64,
    expected: u64,
}

// The most steps that an example can ask for.
const MOST_STEPS: usize = 8;

// No page gives an interrupt entry cycles.
const CONFIGURATION: Configuration = Configuration {
    profile: Profile::Rom4K,
    entry_cost: 0,
};

// The most words of a part, and one more.
const TOO_MANY_WORDS: usize = 1000;

// A part of the file, and the file from the part's begin on.
#[derive(Clone, Copy)]
struct Part<'a> {
    bytes: &'a [u8],
    text: &'a [u8],
}

impl<'a> Part<'a> {
    // The part from a place on; nothing past its end.
    fn behind(self, at: usize) -> Part<'a> {
        Part {
            bytes: self.bytes.get(at..).unwrap_or(&[]),
            text: self.text.get(at..).unwrap_or(&[]),
        }
    }

    // What stands before the first such byte and behind it; all, and nothing, where there is none.
    fn cut(self, b: u8) -> (Part<'a>, Part<'a>) {
        match self.bytes.iter().position(|c| *c == b) {
            Some(i) => {
                let before = Part {
                    bytes: &self.bytes[..i],
                    text: self.text,
                };
                (before, self.behind(i + 1))
            }
            None => (self, self.behind(self.bytes.len())),
        }
    }
}

// Two hexadecimal digits.
fn pair(digits: &[u8]) -> Option<u8> {
    match digits {
        [high, low] => Some(hex_value(*high)? * 16 + hex_value(*low)?),
        _ => None,
    }
}

// Four hexadecimal digits.
fn quad(digits: &[u8]) -> Option<u16> {
    Some(base::word(pair(digits.get(..2)?)?, pair(digits.get(2..)?)?))
}

// 0 or 1.
fn bit(digits: &[u8]) -> Option<bool> {
    match digits {
        b"0" => Some(false),
        b"1" => Some(true),
        _ => None,
    }
}

// A decimal number of one or two digits; another character counts as 0. An empty value is the two characters that follow it in the text.
fn decimal(value: Part) -> u8 {
    let digits = if value.bytes.is_empty() {
        value.text
    } else {
        value.bytes
    };
    match digits {
        [] => 0,
        [ones] => hex_value(*ones).unwrap_or(0),
        [tens, ones, ..] => hex_value(*tens).unwrap_or(0) * 10 + hex_value(*ones).unwrap_or(0),
    }
}

// The number of the mode by its first letter: running, idle, stopped.
fn mode_number(word: &[u8]) -> u8 {
    match word {
        [b'r', ..] => 0,
        [b'i', ..] => 1,
        [b's', ..] => 2,
        _ => 3,
    }
}

// A flag by its letter; a working register, PC, SP, or a register's address; an address of ROM; or a word by its first letter.
fn key_of(name: &[u8]) -> Option<Key> {
    match name {
        b"C" => Some(Key::Flag(128)),
        b"Z" => Some(Key::Flag(64)),
        b"S" => Some(Key::Flag(32)),
        b"V" => Some(Key::Flag(16)),
        b"PC" => Some(Key::Counter),
        b"SP" => Some(Key::Register(SP)),
        [b'R', digit] => Some(Key::Register(192 + hex_value(*digit)?)),
        [_, _] => Some(Key::Register(pair(name)?)),
        _ => quad(name).map(Key::Rom).or(word_key(name)),
    }
}

fn word_key(name: &[u8]) -> Option<Key> {
    match name {
        [_] => None,
        [b'm', ..] => Some(Key::Mode),
        [b'c', ..] => Some(Key::Cycles),
        [b'r', ..] => Some(Key::Refused),
        [b's', ..] => Some(Key::Steps),
        _ => None,
    }
}

// The registers at reset, with those that a reset leaves open all zeros or all ones.
fn open_registers(open: u8) -> [u8; 256] {
    let state = machine::reset();
    let mut regs = state.regs;
    for byte in regs.iter_mut().take(0xD0) {
        *byte = open;
    }
    regs[FLAGS_INDEX] = open & 0xF0;
    regs[SP_INDEX] = open;
    regs
}

impl Page {
    // Before a page has said anything.
    fn new(open: u8) -> Page {
        Page {
            regs: open_registers(open),
            image: [255; IMAGE_4K],
            pc: 0x100,
            mode: 0,
            cycles: 0,
            refused: 0,
            steps: 1,
            behind: 0x100,
        }
    }

    // FLAGS with some flags set or cleared.
    fn put_flags(&mut self, mask: u8, on: bool) {
        if on {
            self.regs[FLAGS_INDEX] |= mask;
        } else {
            self.regs[FLAGS_INDEX] &= !mask;
        }
    }

    // Sets what a name stands for to a value; none where one of them cannot be read.
    fn set(&mut self, name: &[u8], value: Part) -> Option<()> {
        match key_of(name)? {
            Key::Register(a) => self.regs[usize::from(a)] = pair(value.bytes)?,
            Key::Rom(a) => store(&mut self.image, usize::from(a), pair(value.bytes)?),
            Key::Flag(mask) => self.put_flags(mask, bit(value.bytes)?),
            Key::Counter => self.pc = quad(value.bytes)?,
            Key::Mode => self.mode = mode_number(value.bytes),
            Key::Cycles => self.cycles = u32::from(decimal(value)),
            Key::Refused => self.refused = decimal(value),
            Key::Steps => self.steps = decimal(value),
        }
        Some(())
    }

    // A word without `=`: a byte of code, a bar, or nothing between two spaces.
    fn code(&mut self, word: &[u8]) -> Option<()> {
        match word {
            [] | [b'|', ..] => {}
            _ => {
                store(&mut self.image, usize::from(self.behind), pair(word)?);
                self.behind = self.behind.wrapping_add(1);
            }
        }
        Some(())
    }

    // Reads words; none where one of them cannot be read, or they are too many.
    fn read(&mut self, words: Part) -> Option<()> {
        let mut rest = words;
        for _ in 0..TOO_MANY_WORDS {
            if rest.bytes.is_empty() {
                return Some(());
            }
            let (word, behind) = rest.cut(b' ');
            match word.bytes.iter().position(|b| *b == b'=') {
                Some(i) => self.set(&word.bytes[..i], word.behind(i + 1))?,
                None => self.code(word.bytes)?,
            }
            rest = behind;
        }
        None
    }

    // The machine before a step.
    fn state(&self) -> State {
        State {
            regs: self.regs,
            pc: RomAddr(self.pc),
            cycles: self.cycles,
            ..machine::reset()
        }
    }

    // The first register in which a state differs, or else the first difference beside them.
    fn difference(&self, state: State, refused: u8) -> Option<Difference> {
        for (a, (found, expected)) in state.regs.iter().zip(&self.regs).enumerate() {
            if *found != *expected {
                return differs(Place::Register(a), *found, *expected);
            }
        }
        if refused != self.refused {
            return differs(Place::Refusal, refused, self.refused);
        }
        if state.pc.0 != self.pc {
            return differs(Place::Counter, state.pc.0, self.pc);
        }
        let mode = state.mode as u8;
        if mode != self.mode {
            return differs(Place::Mode, mode, self.mode);
        }
        if state.cycles != self.cycles {
            return differs(Place::Cycles, state.cycles, self.cycles);
        }
        None
    }
}

fn differs<N: Into<u64>>(place: Place, found: N, expected: N) -> Option<Difference> {
    Some(Difference {
        place,
        found: found.into(),
        expected: expected.into(),
    })
}

// The state and the number that so many steps leave, under records that request nothing and read zeros.
fn steps_from(image: &[u8], state: State, steps: u8) -> (State, u8) {
    if steps == 1 {
        return match machine::step(CONFIGURATION, image, state, &[0; RECORD_LENGTH]) {
            Ok(after) => (after, 0),
            Err(stop) => (state, u8::from(stop)),
        };
    }
    let schedule = [0u8; MOST_STEPS * RECORD_LENGTH];
    let end = usize::from(steps) % (MOST_STEPS + 1) * RECORD_LENGTH;
    let ran = machine::run(CONFIGURATION, image, state, &schedule[..end]);
    (ran.state, ran.stop.map_or(0, u8::from))
}

// Runs the example of a line on what the page gives, and compares; none where a word cannot be read.
fn compare_line(given: Part, line: Part, open: u8) -> Option<Option<Difference>> {
    let (_label, words) = line.cut(b':');
    let (before, after) = words.cut(b'>');
    let mut page = Page::new(open);
    page.read(given)?;
    // The code begins at the program counter.
    page.behind = page.pc;
    page.read(before)?;
    let (state, refused) = steps_from(&page.image, page.state(), page.steps);
    // If nothing else is said, the program counter goes behind the code.
    page.pc = page.behind;
    page.read(after)?;
    Some(page.difference(state, refused))
}

// The difference with the open registers all zeros, or else with all ones.
fn either_difference(given: Part, line: Part) -> Option<Difference> {
    for open in [0, 255] {
        let difference = match compare_line(given, line, open) {
            Some(difference) => difference,
            None => differs(Place::Unreadable, 0u8, 0),
        };
        if difference.is_some() {
            return difference;
        }
    }
    None
}

// Compares the example of a line, and tells where it differs.
fn compare(rt: &impl Print, given: Part, line: Part) -> io::Result<Case> {
    let Some(d) = either_difference(given, line) else {
        return Ok(Case::Same);
    };
    let (label, _words) = line.cut(b':');
    rt.write_all(label.bytes)?;
    println!(rt;
        "differs: {} found {:02x} expected {:02x}",
        d.place, d.found, d.expected
    )?;
    Ok(Case::Differs)
}

// All lines: comments, what a page gives, and examples. Up to the first page, the first line stands for what a page gives.
fn lines(rt: &impl Print, text: &[u8]) -> io::Result<Counts> {
    let mut rest = Part { bytes: text, text };
    let (first, _others) = rest.cut(b'\n');
    let mut given = first.behind(6);
    let mut counts = Counts::default();
    for _ in 0..text.len() {
        let (line, behind) = rest.cut(b'\n');
        match line.bytes {
            [] | [b'#', ..] => {}
            [b'g', ..] => given = line.behind(6),
            _ => counts = counts.counted(compare(rt, given, line)?),
        }
        rest = behind;
    }
    Ok(counts)
}

fn main(rt: HostRuntime) -> io::Result<()> {
    let mut file = test_support::open(&rt, b"examples.txt")?;
    let mut buffer = [0u8; 65536];
    let n = test_support::read_full(&mut file, &mut buffer);
    let counts = lines(&rt, &buffer[..n])?;
    println!(rt; "{counts}")
}
