// Converts old HEX lines to upper case, worked examples and the cases of the file upper.bin, and prints what differs.
#![tactic(auto)]

use base::IMAGE_4K;
use hex_line::Fault;
use std::io;
use std::io::Read;
use test_support::{Case, Counts};

// The number of an answer, 0 where the line was converted.
fn upper_number(answer: Result<(), Fault>) -> u8 {
    answer.err().map_or(0, u8::from)
}

// The number by which the reader refuses a line as the first of an image, 0 where it is read.
fn reader_number(line: &[u8]) -> u8 {
    let answer = hex_line::check_line(line, IMAGE_4K, hex_line::new_reader());
    answer.err().map_or(0, u8::from)
}

// Prints the reader's number of a line, that of the call, the reader's of the line behind the call, and this line.
fn convert(rt: &impl Print, line: &mut [u8]) -> io::Result<()> {
    print!(rt;
        "{} {} {} ",
        reader_number(line),
        upper_number(hex_upper::upper_line(line)),
        reader_number(line)
    )?;
    rt.write_all(line)?;
    println!(rt; "")
}

fn example(rt: &impl Print, text: &[u8]) -> io::Result<()> {
    let mut line = [0u8; 65536];
    test_support::put(&mut line, 0, text);
    if text.len() <= line.len() {
        convert(rt, &mut line[..text.len()])?;
    }
    Ok(())
}

// Reads the rest of a case whose line has this length, and compares; one that is cut off differs.
fn compare(file: &mut impl Read, line: &mut [u8], expected: &mut [u8], length: usize) -> bool {
    if line.len() < length {
        return false;
    }
    if expected.len() < length {
        return false;
    }
    let got = test_support::read_full(file, &mut line[..length]);
    let number = test_support::read_byte(file);
    let left = test_support::read_full(file, &mut expected[..length]);
    let answer = upper_number(hex_upper::upper_line(&mut line[..length]));
    let same = line[..length] == expected[..length];
    same && answer == number && got == length && left == length
}

fn run_case(rt: &impl Print, file: &mut impl Read, counts: Counts) -> io::Result<Option<Case>> {
    let mut two = [0u8; 2];
    if test_support::read_full(file, &mut two) == 0 {
        return Ok(None);
    }
    let mut line = [0u8; 65536];
    let mut expected = [0u8; 65536];
    let length = usize::from(base::word(two[0], two[1]));
    if compare(file, &mut line, &mut expected, length) {
        return Ok(Some(Case::Same));
    }
    if counts.tells(rt)? {
        println!(rt; " differs")?;
    }
    Ok(Some(Case::Differs))
}

// Lines that are converted, that are right as they are, and that are refused.
const EXAMPLES: [&[u8]; 9] = [
    b":00000001ff",
    b":020100008fFf6f",
    b":020100008FFF6F",
    b":02fff0008fff81", // past the end
    b":020100008fff6", // cut off
    b":020100008fff6fg",
    b":020100008fff6e", // sum
    b":020100028fff6d", // type
    b":00000001fe", // not the end line
];

fn main(rt: HostRuntime) -> io::Result<()> {
    for text in EXAMPLES {
        example(&rt, text)?;
    }
    test_support::run_cases(
        &rt,
        b"upper.bin",
        |file, counts| run_case(&rt, file, counts),
    )
}
