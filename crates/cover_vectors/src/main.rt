// Compares `coverage::count` and `uncovered::lowest_unmarked` with the cases of the file `uncovered.bin`, and prints what differs. A case is the marked addresses of a
// map; edits of a certificate of 00H; and what it expects: how many addresses are marked, and the lowest start that is not. Certificates of other lengths come first.
#![tactic(auto)]

use base::{InvalidArgument, LONG_CERTIFICATE_LENGTH, RomAddr, SHORT_CERTIFICATE_LENGTH, word};
use coverage::{Map, WORDS};
use std::io::Read;
use std::{fmt, io};
use test_support::{Case, Counts};

type Lowest = Result<Option<RomAddr>, InvalidArgument>;

// How many addresses are marked; 0 for no unmarked start, 1 for one, 2 for a refusal; its address, or the refusal's number.
// The kind stays a number: a case of the file gives it as one, and the line of a difference prints it.
#[derive(Clone, Copy, PartialEq, Eq)]
struct Answer {
    marked: u32,
    kind: u8,
    address: u16,
}

fn answer_of(map: &Map, lowest: Lowest) -> Answer {
    let marked = coverage::count(map);
    match lowest {
        Ok(None) => Answer {
            marked,
            kind: 0,
            address: 0,
        },
        Ok(Some(a)) => Answer {
            marked,
            kind: 1,
            address: a.0,
        },
        Err(refusal) => Answer {
            marked,
            kind: 2,
            address: u16::from(u8::from(refusal)),
        },
    }
}

// The answer that a case expects: count 2, kind 1 and address 2.
fn expected_of(five: &[u8; 5]) -> Answer {
    Answer {
        marked: u32::from(word(five[0], five[1])),
        kind: five[2],
        address: word(five[3], five[4]),
    }
}

impl fmt::Display for Answer {
    fn fmt<W: fmt::Write>(&self, f: &mut fmt::Formatter<W>) -> fmt::Result {
        write!(
            f,
            "{} marked, kind {} at {}",
            self.marked, self.kind, self.address
        )
    }
}

fn tell(rt: &impl Print, whole: bool, expected: Answer, given: Answer) -> io::Result<()> {
    if !whole {
        print!(rt; ", not whole")?;
    }
    println!(rt; ": expected {expected}, given {given}")
}

// Reads the rest of a case, whose map has so many marks, and compares; one that is cut off differs.
fn compare(rt: &impl Print, file: &mut impl Read, count: u16, counts: Counts) -> io::Result<Case> {
    let mut map: Map = [0; WORDS];
    let mut cert = [0u8; SHORT_CERTIFICATE_LENGTH];
    let mut five = [0u8; 5];
    let marked = map_cases::read_marks(file, count, &mut map);
    let edited = test_support::read_edits(file, &mut cert);
    let whole = (test_support::read_full(file, &mut five) == 5) & marked.whole & edited;
    let expected = expected_of(&five);
    let given = answer_of(&map, uncovered::lowest_unmarked(&cert, &map));
    if whole && expected == given {
        return Ok(Case::Same);
    }
    if counts.tells(rt)? {
        tell(rt, whole, expected, given)?;
    }
    Ok(Case::Differs)
}

fn run_case(rt: &impl Print, file: &mut impl Read, counts: Counts) -> io::Result<Option<Case>> {
    let mut two = [0u8; 2];
    if test_support::read_full(file, &mut two) == 0 {
        return Ok(None);
    }
    Ok(Some(compare(rt, file, word(two[0], two[1]), counts)?))
}

// The number of an answer, 0 where it is no refusal.
fn number_of(lowest: Lowest) -> u8 {
    lowest.err().map_or(0, u8::from)
}

// Prints the answer to a certificate of so many zeros, at most one too many.
fn try_length(rt: &impl Print, length: usize) -> io::Result<()> {
    let cert = [0u8; LONG_CERTIFICATE_LENGTH + 1];
    let map: Map = [0; WORDS];
    if length <= LONG_CERTIFICATE_LENGTH + 1 {
        println!(rt;
            "{length}: {}",
            number_of(uncovered::lowest_unmarked(&cert[0..length], &map))
        )?;
    }
    Ok(())
}

fn main(rt: HostRuntime) -> io::Result<()> {
    for length in [
        0,
        SHORT_CERTIFICATE_LENGTH - 1,
        SHORT_CERTIFICATE_LENGTH,
        LONG_CERTIFICATE_LENGTH,
        LONG_CERTIFICATE_LENGTH + 1,
    ] {
        try_length(&rt, length)?;
    }
    test_support::run_cases(
        &rt,
        b"uncovered.bin",
        |file, counts| run_case(&rt, file, counts),
    )
}
