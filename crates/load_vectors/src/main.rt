// Makes schedules from seeds: published states, every length from 0 to 17, and the cases of the file sched.txt, and prints what differs.
// A line of the file: seed, number of records, their digits, the state behind them; or seed, number of records, and the number of the refusal.
#![tactic(auto)]

use base::RECORD_LENGTH;
use std::io;
use std::io::Read;
use test_support::{Case, Counts, put};

// The most records of a case, and their bytes.
const MOST: usize = 4000;

const BYTES: usize = MOST * RECORD_LENGTH;

// The digits of the records, a blank, the digits of the state, and one more, so that LF is read too.
const LINE: usize = 2 * BYTES + 10;

type Line = [u8; LINE];

// A digit of the file: 0 to 9, a to f. Apart from `hex_write::hex_digit`, whose letters are capitals.
fn digit(x: u8) -> u8 {
    match x % 16 {
        low @ 0..=9 => b'0' + low,
        low => b'a' - 10 + low,
    }
}

fn put_byte(line: &mut Line, at: usize, b: u8) {
    put(line, at, &[digit(b / 16), digit(b)]);
}

// Bytes from a place on, two digits each.
fn put_bytes(line: &mut Line, at: usize, bytes: &[u8]) {
    for (place, b) in (at..LINE).step_by(2).zip(bytes) {
        put_byte(line, place, *b);
    }
}

// What stands in a line behind the number of records; nothing where they are too many for this program.
fn line_of(seed: u32, count: usize) -> Line {
    let mut line = [0u8; LINE];
    if count > MOST {
        return line;
    }
    let mut buffer = [0u8; BYTES];
    let records = &mut buffer[..count * RECORD_LENGTH];
    match xorshift::fill(seed, records) {
        Ok(state) => {
            let at = 2 * records.len();
            put_bytes(&mut line, 0, records);
            put(&mut line, at, b" ");
            put_bytes(&mut line, at + 1, &state.to_be_bytes());
        }
        Err(refusal) => put(&mut line, 0, &[digit(u8::from(refusal))]),
    }
    line
}

// Reads the rest of a number of at most ten decimal digits, whose first character is given, and the character behind it.
fn read_number(file: &mut impl Read, first: u8) -> u64 {
    let mut number: u64 = 0;
    let mut b = first;
    for _ in 0..11 {
        if !b.is_ascii_digit() {
            return number;
        }
        number = test_support::with_digit(number, b);
        b = test_support::read_byte(file);
    }
    number
}

fn run_case(rt: &impl Print, file: &mut impl Read, counts: Counts) -> io::Result<Option<Case>> {
    let first = test_support::read_byte(file);
    if first == 0 {
        return Ok(None);
    }
    let seed = read_number(file, first);
    let first_of_count = test_support::read_byte(file);
    let count = read_number(file, first_of_count);
    let mut line = [0u8; LINE];
    test_support::read_line(file, &mut line);
    let made = line_of((seed % (1 << 32)) as u32, count as usize);
    if line == made {
        return Ok(Some(Case::Same));
    }
    if counts.tells(rt)? {
        println!(rt; " differs")?;
    }
    Ok(Some(Case::Differs))
}

// The record of two states: the lowest byte first, bits 5 to 7 of byte 0 cleared.
fn record_of(first: u32, second: u32) -> [u8; RECORD_LENGTH] {
    let mut record = [0u8; RECORD_LENGTH];
    record[..4].copy_from_slice(&first.to_le_bytes());
    record[4..].copy_from_slice(&second.to_le_bytes());
    record[0] &= 0x1F;
    record
}

// Makes one record. Prints the two published states that it should hold, and `differ` if the record or the state that came back is another. Answers that
// state, which should be the second.
fn compare_record(rt: &impl Print, seed: u32, first: u32, second: u32) -> io::Result<u32> {
    let mut record = [0u8; RECORD_LENGTH];
    let state = xorshift::fill(seed, &mut record).unwrap_or(0);
    print!(rt; " {first} {second}")?;
    if record != record_of(first, second) || state != second {
        print!(rt; " differ")?;
    }
    Ok(state)
}

// The first six states, as they are published.
fn published(rt: &impl Print) -> io::Result<()> {
    print!(rt; "1:")?;
    let a = compare_record(rt, 1, 270369, 67634689)?;
    let b = compare_record(rt, a, 2647435461, 307599695)?;
    compare_record(rt, b, 2398689233, 745495504)?;
    print!(rt; "\n2463534242:")?;
    let c = compare_record(rt, 2463534242, 723471715, 2497366906)?;
    let d = compare_record(rt, c, 2064144800, 2008045182)?;
    compare_record(rt, d, 3532304609, 374114282)?;
    println!(rt; "")
}

// Prints the answer to every length from 0 to 17, 0 where the buffer was filled, and whether a refused buffer has changed.
fn fill_lengths(rt: &impl Print, seed: u32) -> io::Result<()> {
    print!(rt; "{seed}:")?;
    for length in 0..18 {
        let mut buffer = [0xA5u8; 18];
        let refused = xorshift::fill(seed, &mut buffer[..length]).err();
        print!(rt; " {}", refused.map_or(0, u8::from))?;
        if refused.is_some() && buffer != [0xA5u8; 18] {
            print!(rt; " changed")?;
        }
    }
    println!(rt; "")
}

fn main(rt: HostRuntime) -> io::Result<()> {
    published(&rt)?;
    fill_lengths(&rt, 0)?;
    fill_lengths(&rt, 1)?;
    test_support::run_cases(
        &rt,
        b"sched.txt",
        |file, counts| run_case(&rt, file, counts),
    )
}
