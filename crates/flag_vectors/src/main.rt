// Compares the flags that the decoder names with those of the file flags.txt, a line for each first byte, and prints what differs.
#![tactic(auto)]

use decode::decode;
use isa::{DecodeError, Flag, FlagSet};
use std::io;
use std::io::Read;
use test_support::{Case, Counts, hex_byte, put, read_line};

// A line without its end, zeros behind it; `undefined` makes the longest.
type Line = [u8; 16];

// A letter for each flag that is named, or a dash.
fn put_names(line: &mut Line, names: FlagSet) {
    let letters = [
        (Flag::Carry, b'C'),
        (Flag::Zero, b'Z'),
        (Flag::Sign, b'S'),
        (Flag::Overflow, b'V'),
    ];
    if names.0 == 0 {
        put(line, 3, b"-");
        return;
    }
    let named = letters.iter().filter(|(flag, _)| isa::names(names, *flag));
    for (slot, (_, letter)) in line[3..].iter_mut().zip(named) {
        *slot = *letter;
    }
}

// The line of the first byte that two digits give.
fn line_of(high: u8, low: u8) -> Line {
    let mut line = [0u8; 16];
    put(&mut line, 0, &[high, low, b' ']);
    match decode(&[hex_byte(high, low), 0x20, 0x20, 0x20], 0) {
        Ok(decoded) => put_names(&mut line, decoded.names),
        Err(DecodeError::Undefined) => put(&mut line, 3, b"undefined"),
        Err(_) => put(&mut line, 3, b"refused"),
    }
    line
}

fn compare(rt: &impl Print, line: &Line, named: &Line, counts: Counts) -> io::Result<Case> {
    if line == named {
        return Ok(Case::Same);
    }
    if counts.tells(rt)? {
        print!(rt; " ")?;
        rt.write_all(line)?;
        print!(rt; ": ")?;
        rt.write_all(named)?;
        println!(rt; "")?;
    }
    Ok(Case::Differs)
}

fn run_case(rt: &impl Print, file: &mut impl Read, counts: Counts) -> io::Result<Option<Case>> {
    let mut line = [0u8; 16];
    if read_line(file, &mut line) == 0 {
        return Ok(None);
    }
    let named = line_of(line[0], line[1]);
    Ok(Some(compare(rt, &line, &named, counts)?))
}

fn main(rt: HostRuntime) -> io::Result<()> {
    test_support::run_cases(
        &rt,
        b"flags.txt",
        |file, counts| run_case(&rt, file, counts),
    )
}
