// Runs the program in `image.hex` from reset for 100 steps, and prints where it is then.
#![tactic(auto)]

use base::{IMAGE_4K, Profile, RECORD_LENGTH};
use hex_line::Fault;
use semantics::Configuration;
use std::io;
use std::rt::Files;

// Reads a file of Intel HEX, of at most 65,536 bytes, into an image. A missing file counts as empty, which is refused by 6.
fn read_image(rt: &impl Files, name: &[u8], image: &mut [u8; IMAGE_4K]) -> Result<(), Fault> {
    let mut text = [0u8; 65536];
    let n = match reading::open(rt, name) {
        Ok(mut file) => reading::read_full(&mut file, &mut text),
        Err(_) => 0,
    };
    hex_text::read_text(&text[..n], image)
}

fn run(rt: &impl Print, image: &[u8; IMAGE_4K]) -> io::Result<()> {
    // A record for each step. Record 50 requests the interrupt of timer 0.
    let mut schedule = [0u8; 100 * RECORD_LENGTH];
    schedule[50 * RECORD_LENGTH] = 0x01;
    // The 4K part; an interrupt entry costs no cycles.
    let configuration = Configuration {
        profile: Profile::Rom4K,
        entry_cost: 0,
    };
    let ran = machine::run(configuration, image, machine::reset(), &schedule);
    let state = ran.state;
    // The number that ended the run, 0 if none did.
    println!(rt; "number {}", ran.stop.map_or(0, u8::from))?;
    println!(rt; "steps {}", ran.steps)?;
    println!(rt; "cycles {}", state.cycles)?;
    println!(rt; "program counter {:04x}", state.pc.0)
}

fn main(rt: HostRuntime) -> io::Result<()> {
    // FFH stays where the file has no record.
    let mut image = [0xFFu8; IMAGE_4K];
    match read_image(&rt, b"image.hex", &mut image) {
        Ok(()) => run(&rt, &image),
        Err(fault) => println!(rt; "image.hex refused by {}", u8::from(fault)),
    }
}
