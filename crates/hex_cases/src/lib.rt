// What the programs over HEX cases share: the readers and the writer on examples and on the cases of a file, for the image of a part.
#![tactic(auto)]

ghost use Rattle.std.specs.Prelude.{◌<◌};

use base::{IMAGE_4K, InvalidArgument, Profile};
use hex_line::{Fault, Reader};
use std::io;
use std::io::Read;
use std::rt::Files;
use test_support::{Case, Counts, read_edits};

// The number of an answer, 0 where the text was read to its end.
fn text_number(answer: Result<(), Fault>) -> u8 {
    answer.err().map_or(0, u8::from)
}

// Reads a text in pieces of a length.
fn read_pieces(text: &[u8], step: usize, image: &mut [u8]) -> u8
    requires { 0 < step }
{
    let mut s = hex_text::start();
    for piece in text.chunks(step) {
        s = hex_text::feed(s, piece, image);
    }
    text_number(hex_text::finish(s, image.len()))
}

// Reads a text byte by byte.
pub fn read_by_bytes(text: &[u8], image: &mut [u8]) -> u8 {
    read_pieces(text, 1, image)
}

// Prints both answers to a text, read whole and byte by byte.
fn print_numbers(
    rt: &impl Print,
    text: &[u8],
    whole: &mut [u8],
    pieces: &mut [u8],
) -> io::Result<()> {
    print!(rt;
        "{} {} ",
        text_number(hex_text::read_text(text, whole)),
        read_by_bytes(text, pieces)
    )
}

// Prints both answers to a text as an image file, and the text.
pub fn example(rt: &impl Print, profile: Profile, text: &[u8]) -> io::Result<()> {
    let mut whole = [255u8; IMAGE_4K];
    let mut pieces = [255u8; IMAGE_4K];
    let n = base::image_length(profile);
    print_numbers(rt, text, &mut whole[..n], &mut pieces[..n])?;
    rt.write_all(text)?;
    println!(rt; "")
}

// Prints the number of a line's answer, and of a line that is read where the next record may begin.
fn print_answer(rt: &impl Print, answer: Result<Reader, Fault>) -> io::Result<()> {
    match answer {
        Ok(reader) => print!(rt; "0 next {}", reader.next),
        Err(fault) => print!(rt; "{}", u8::from(fault)),
    }
}

// Prints the answer to a line behind a record that ended at 258 (0102H), whether the image is as it was, and the line.
pub fn line_example(rt: &impl Print, profile: Profile, line: &[u8]) -> io::Result<()> {
    let kept = [255u8; IMAGE_4K];
    let mut image = [255u8; IMAGE_4K];
    let n = base::image_length(profile);
    let reader = Reader {
        next: 258,
        ended: false,
    };
    print_answer(rt, hex_line::read_line(line, &mut image[..n], reader))?;
    let change = if image == kept {
        "unchanged"
    } else {
        "written"
    };
    print!(rt; " {change} ")?;
    rt.write_all(line)?;
    println!(rt; "")
}

// The number of bytes that were written; or the refusal's.
pub fn written_number(answer: Result<usize, InvalidArgument>) -> u64 {
    match answer {
        Ok(n) => n as u64,
        Err(refusal) => u64::from(u8::from(refusal)),
    }
}

// Prints the answers for two images of a length that no part has: the readers' and the writer's. Lent buffers, and no const parameters, which would ask
// callers for a bound on the sizes (tried).
pub fn example_of_length(
    rt: &impl Print,
    profile: Profile,
    image: &mut [u8],
    pieces: &mut [u8],
    out: &mut [u8],
) -> io::Result<()> {
    print_numbers(rt, b":00000001FF", image, pieces)?;
    println!(rt;
        "{} image of {} bytes",
        written_number(hex_write::write_image(profile, image, out)),
        image.len()
    )
}

// Fills an image with the low byte of 7 times the address and the high byte.
fn fill(image: &mut [u8]) {
    for (i, byte) in image.iter_mut().enumerate() {
        *byte = ((i % 256 * 7 + i / 256) % 256) as u8;
    }
}

// Prints the part of a text from `at` on, of this length.
fn print_part(rt: &impl Print, text: &[u8], at: usize, length: usize) -> io::Result<()> {
    match text.get(at..).and_then(|rest| rest.get(..length)) {
        Some(part) => rt.write_all(part),
        None => Ok(()),
    }
}

// Writes an image, prints its length, one of its records and the end line, and reads it back. Lent buffers, as above.
pub fn write_and_read(
    rt: &impl Print,
    profile: Profile,
    image: &mut [u8],
    out: &mut [u8],
    back: &mut [u8],
    at: usize,
) -> io::Result<()> {
    fill(image);
    println!(rt;
        "{} bytes",
        written_number(hex_write::write_image(profile, image, out))
    )?;
    print_part(rt, out, at, 44)?;
    print_part(rt, out, hex_write::text_length(profile) - 12, 12)?;
    let number = text_number(hex_text::read_text(out, back));
    let equal = if &*image == &*back {
        "read back"
    } else {
        "not read back"
    };
    println!(rt; "{number} {equal}")
}

// Whether both readers give a text the number and the image that the case expects.
fn agrees(profile: Profile, text: &[u8], number: u8, expected: &[u8; IMAGE_4K], step: usize) -> bool
    requires { 0 < step }
{
    let kept = [255u8; IMAGE_4K];
    let mut pieces = [255u8; IMAGE_4K];
    let mut whole = [255u8; IMAGE_4K];
    let n = base::image_length(profile);
    let piece_number = read_pieces(text, step, &mut pieces[..n]);
    let whole_number = text_number(hex_text::read_text(text, &mut whole[..n]));
    let numbers = piece_number == number && whole_number == number;
    let left = if number == 0 { expected } else { &kept };
    numbers && &pieces == expected && &whole == left
}

// Reads the rest of a case whose text has this length, and compares; one that is cut off differs. The index says in what pieces the text is read.
fn compare(
    profile: Profile,
    file: &mut impl Read,
    text: &mut [u8],
    length: usize,
    index: u64,
) -> bool {
    if text.len() < length {
        return false;
    }
    let got = test_support::read_full(file, &mut text[..length]);
    let number = test_support::read_byte(file);
    let mut expected = [255u8; IMAGE_4K];
    let whole = read_edits(file, &mut expected) & (got == length);
    let step = (index % 61 + 1) as usize;
    whole && agrees(profile, &text[..length], number, &expected, step)
}

// The next case of the file.
fn run_case(
    rt: &impl Print,
    profile: Profile,
    file: &mut impl Read,
    counts: Counts,
) -> io::Result<Option<Case>> {
    let mut two = [0u8; 2];
    if test_support::read_full(file, &mut two) == 0 {
        return Ok(None);
    }
    let mut text = [0u8; 65536];
    let length = usize::from(base::word(two[0], two[1]));
    if compare(profile, file, &mut text, length, counts.compared) {
        return Ok(Some(Case::Same));
    }
    if counts.tells(rt)? {
        println!(rt; " differs")?;
    }
    Ok(Some(Case::Differs))
}

// Runs the cases of a file, and prints what differs.
pub fn run_cases(
    rt: &(impl Files + Print + Eprint),
    profile: Profile,
    name: &[u8],
) -> io::Result<()> {
    test_support::run_cases(rt, name, |file, counts| run_case(rt, profile, file, counts))
}
