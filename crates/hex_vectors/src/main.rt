// Runs the HEX readers and the writer on worked examples and on the cases of the file hex.bin, for the 4K part, and prints what differs.
#![tactic(auto)]

use base::{IMAGE_4K, Profile};
use hex_write::TEXT_LENGTH_4K;
use std::io;

// Prints the answer to a file that is one data line without LF, and whether the image is as it was.
fn example_without_end(rt: &impl Print) -> io::Result<()> {
    let kept = [255u8; IMAGE_4K];
    let mut image = [255u8; IMAGE_4K];
    let number = hex_cases::read_by_bytes(b":020100008FFF6F", &mut image);
    let change = if image == kept {
        "unchanged"
    } else {
        "changed"
    };
    println!(rt; "{number} image {change}")
}

// The line that is right, then lines with two faults: the number is that of the first fault in the order of the numbers, wherever it stands in the line.
const TWO_FAULTS: [&[u8]; 10] = [
    b":020102008FFF6D",
    b":020102008FFG6E", // no digit, sum
    b":020102008FFF6EG", // no digit behind a wrong sum
    b":020102008FFF6EGG",
    b":030102008FFF6D", // length, sum
    b":00000001FE", // end line, sum
    b":020102028FFF6D", // type, sum
    b":020100008FFF6D", // overlap, sum
    b":020FFF000102EE", // past the end, sum
    b":020100028FFF6D", // type, overlap
];

// Prints the answers for an image of 4095 bytes.
fn example_of_length(rt: &impl Print) -> io::Result<()> {
    let mut image = [255u8; IMAGE_4K - 1];
    let mut pieces = [255u8; IMAGE_4K - 1];
    let mut out = [0u8; TEXT_LENGTH_4K];
    hex_cases::example_of_length(rt, Profile::Rom4K, &mut image, &mut pieces, &mut out)
}

// Shows the second record.
fn write_and_read(rt: &impl Print) -> io::Result<()> {
    let mut image = [0u8; IMAGE_4K];
    let mut out = [0u8; TEXT_LENGTH_4K];
    let mut back = [0u8; IMAGE_4K];
    hex_cases::write_and_read(rt, Profile::Rom4K, &mut image, &mut out, &mut back, 44)
}

const EXAMPLES: [&[u8]; 10] = [
    b":020100008FFF6F\n:00000001FF",
    b":0",
    b":020100008FFF70",
    b":00000002FE",
    b":020100008FFF6F\n:020100008FFF6F",
    b":020FFF000102ED",
    b"",
    b":020100008fFF6F\n:00000001FF", // a small letter
    b":00000001ff",
    b":00000001FF\n:00000001ff", // behind the end line
];

fn main(rt: HostRuntime) -> io::Result<()> {
    for text in EXAMPLES {
        hex_cases::example(&rt, Profile::Rom4K, text)?;
    }
    example_without_end(&rt)?;
    example_of_length(&rt)?;
    for line in TWO_FAULTS {
        hex_cases::line_example(&rt, Profile::Rom4K, line)?;
    }
    write_and_read(&rt)?;
    hex_cases::run_cases(&rt, Profile::Rom4K, b"hex.bin")
}
