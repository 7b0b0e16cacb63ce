// Reading and writing an image of 4,096 bytes as Intel HEX, 11,276 bytes of text.
use base::{IMAGE_4K, InvalidArgument, Profile};
use hex_line::Fault;
use hex_write::TEXT_LENGTH_4K;
use std::io;

// How often a text is read or written.
const TURNS: u64 = 20000;

// The bytes of an image that has each value in each place modulo 256.
fn image() -> [u8; IMAGE_4K] {
    let mut image = [0u8; IMAGE_4K];
    for (i, byte) in image.iter_mut().enumerate() {
        *byte = (i % 256) as u8;
    }
    image
}

fn answer_of(t: Result<(), Fault>) -> u64 {
    u64::from(t.err().map_or(0, u8::from))
}

// The same as `hex_cases::written_number`; no benchmark reads the cases of a file.
fn length_of(w: Result<usize, InvalidArgument>) -> u64 {
    match w {
        Ok(n) => n as u64,
        Err(refusal) => u64::from(u8::from(refusal)),
    }
}

// The text as one piece of a file.
fn stream(text: &[u8], buffer: &mut [u8]) -> u64 {
    let s = hex_text::feed(hex_text::start(), text, buffer);
    answer_of(hex_text::finish(s, buffer.len()))
}

// The last answer of a turn that is made over and over.
fn turns<F: FnMut() -> u64>(mut turn: F) -> u64
    requires { F.IsAlwaysCallable turn }
{
    let mut answer = 0;
    for _ in 0..TURNS {
        answer = turn();
    }
    answer
}

// 5 reads a whole text, 6 reads it by feed and finish, 7 writes it, each 20,000 times.
pub fn work(rt: &impl Print, what: u64) -> io::Result<()> {
    let image = image();
    let mut text = [0u8; TEXT_LENGTH_4K];
    let mut buffer = [0u8; IMAGE_4K];
    length_of(hex_write::write_image(Profile::Rom4K, &image, &mut text));
    let answer = match what {
        5 => turns(|| answer_of(hex_text::read_text(&text, &mut buffer))),
        6 => turns(|| stream(&text, &mut buffer)),
        _ => turns(|| length_of(hex_write::write_image(Profile::Rom4K, &image, &mut text))),
    };
    let same = what == 7 || image == buffer;
    println!(rt; " {answer} {}", if same { "same" } else { "differs" })
}
