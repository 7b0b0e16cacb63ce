// Runs the HEX readers and the writer on worked examples and on the cases of the file hex2k.bin, for the 2K part, and prints what differs.
#![tactic(auto)]

use base::{IMAGE_2K, IMAGE_4K, Profile};
use hex_write::{TEXT_LENGTH_2K, TEXT_LENGTH_4K};
use std::io;

const EXAMPLES: [&[u8]; 4] = [
    b":0207FE000102F6\n:00000001FF",
    b":0207FE000102F6\n:0207FF000102F5",
    b":0207FF000102F5",
    b":01080000EE09\n:00000001FF",
];

// Lines about the end of ROM, 07FFH.
const LINES_AT_END: [&[u8]; 5] = [
    b":0207FE000102F6",
    b":0207FF000102F5", // past the end
    b":0207FF000102F6", // past the end, sum
    b":01080000EE09", // behind the end
    b":00080000F8", // no data, at the end
];

// Prints the answers for an image of 2047 bytes.
fn example_of_length(rt: &impl Print) -> io::Result<()> {
    let mut image = [255u8; IMAGE_2K - 1];
    let mut pieces = [255u8; IMAGE_2K - 1];
    let mut out = [0u8; TEXT_LENGTH_2K];
    hex_cases::example_of_length(rt, Profile::Rom2K, &mut image, &mut pieces, &mut out)
}

// Shows the last data record.
fn write_and_read(rt: &impl Print) -> io::Result<()> {
    let mut image = [0u8; IMAGE_2K];
    let mut out = [0u8; TEXT_LENGTH_2K];
    let mut back = [0u8; IMAGE_2K];
    hex_cases::write_and_read(
        rt,
        Profile::Rom2K,
        &mut image,
        &mut out,
        &mut back,
        TEXT_LENGTH_2K - 56,
    )
}

// Prints the writer's answer for a part, whether the buffer is as it was, and the lengths.
fn write_example(
    rt: &impl Print,
    profile: Profile,
    image: &[u8],
    out: &mut [u8],
    kept: &[u8],
) -> io::Result<()> {
    let number = hex_cases::written_number(hex_write::write_image(profile, image, out));
    let change = if &*out == kept {
        "unchanged"
    } else {
        "written"
    };
    println!(rt;
        "{number} {change}, image of {} bytes, buffer of {}",
        image.len(),
        out.len()
    )
}

// An image of the other part, for either; a buffer that is a byte too short.
fn refused_images(rt: &impl Print) -> io::Result<()> {
    let small = [255u8; IMAGE_2K];
    let large = [255u8; IMAGE_4K];
    let kept = [0u8; TEXT_LENGTH_4K];
    let mut out = [0u8; TEXT_LENGTH_4K];
    write_example(rt, Profile::Rom4K, &small, &mut out, &kept)?;
    write_example(rt, Profile::Rom2K, &large, &mut out, &kept)?;
    let short_kept = [0u8; TEXT_LENGTH_2K - 1];
    let mut short_out = [0u8; TEXT_LENGTH_2K - 1];
    write_example(rt, Profile::Rom2K, &small, &mut short_out, &short_kept)
}

fn main(rt: HostRuntime) -> io::Result<()> {
    for text in EXAMPLES {
        hex_cases::example(&rt, Profile::Rom2K, text)?;
    }
    for line in LINES_AT_END {
        hex_cases::line_example(&rt, Profile::Rom2K, line)?;
    }
    example_of_length(&rt)?;
    write_and_read(&rt)?;
    refused_images(&rt)?;
    hex_cases::run_cases(&rt, Profile::Rom2K, b"hex2k.bin")
}
