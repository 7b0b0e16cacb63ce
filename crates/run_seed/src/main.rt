// Runs the program in `image.hex` from reset over the records that a seed gives, `run_seed SEED RECORDS [PART]`, and prints what the run leaves and which
// code it reached: whoever has the files, the seed and the number of records gets the same text. The part is 4K or 2K, 4K if it is not named. The cycles
// of an interrupt entry and the starts of instructions are those of `cert.hex`; without that file an entry takes none.
#![tactic(auto)]

use base::{IMAGE_4K, LONG_CERTIFICATE_LENGTH, Profile, RECORD_LENGTH, RomAddr};
use coverage::{Map, WORDS};
use hex_line::Fault;
use semantics::{Configuration, Mode, State, Stop};
use std::io::Read;
use std::rt::{Env, Files};
use std::{io, str};

type Certificate = [u8; LONG_CERTIFICATE_LENGTH];

// The most records of one call of `run_covered`, and their bytes.
const PART: usize = 1000;

const SCHEDULE: usize = PART * RECORD_LENGTH;

// What the arguments ask for: the seed and the number of records, and the part.
#[derive(Clone, Copy)]
struct Arguments {
    seed: u32,
    count: u32,
    profile: Profile,
}

// Where a run is: the machine, the steps done, the refusal that ended it, and, where none did, the seed of the records that follow.
#[derive(Clone, Copy)]
struct Progress {
    state: State,
    steps: u64,
    stop: Option<Stop>,
    seed: u32,
}

// The number that decimal digits give, of at most 32 bits.
fn number(text: &[u8]) -> Option<u32> {
    if !text.iter().all(|b| b.is_ascii_digit()) {
        return None;
    }
    str::from_utf8(text).ok()?.parse().ok()
}

// An argument, in a buffer; none where it is empty or does not fit.
fn argument<'a>(rt: &impl Env, i: usize, text: &'a mut [u8; 16]) -> Option<&'a [u8]> {
    match rt.arg(i, text) {
        Ok(0) | Err(_) => None,
        Ok(n) => Some(&text[..n]),
    }
}

fn number_argument(rt: &impl Env, i: usize) -> Option<u32> {
    number(argument(rt, i, &mut [0; 16])?)
}

// The part that the third argument names, 4K if there is none.
fn named_part(rt: &impl Env) -> Option<Profile> {
    match argument(rt, 3, &mut [0; 16]) {
        None | Some(b"4K") => Some(Profile::Rom4K),
        Some(b"2K") => Some(Profile::Rom2K),
        Some(_) => None,
    }
}

fn read_arguments(rt: &impl Env) -> Option<Arguments> {
    Some(Arguments {
        seed: number_argument(rt, 1)?,
        count: number_argument(rt, 2)?,
        profile: named_part(rt)?,
    })
}

impl Progress {
    // From reset.
    fn start(seed: u32) -> Progress {
        Progress {
            state: machine::reset(),
            steps: 0,
            stop: None,
            seed,
        }
    }

    // Goes on over the records that fill a buffer, unless the run has ended, and marks in the map where completed instructions began.
    fn over(
        self,
        configuration: Configuration,
        image: &[u8],
        records: &mut [u8],
        map: &mut Map,
    ) -> Progress {
        if self.stop.is_some() {
            return self;
        }
        match xorshift::fill(self.seed, records) {
            Ok(seed) => {
                let ran = machine::run_covered(configuration, image, self.state, records, map);
                Progress {
                    state: ran.state,
                    steps: self.steps.wrapping_add(ran.steps as u64),
                    stop: ran.stop,
                    seed,
                }
            }
            Err(refusal) => Progress {
                stop: Some(Stop::from(refusal)),
                ..self
            },
        }
    }
}

// From reset, part by part: n records and then m are the n + m that the seed gives.
fn run_parts(
    configuration: Configuration,
    image: &[u8],
    arguments: Arguments,
    map: &mut Map,
) -> Progress {
    let mut records = [0u8; SCHEDULE];
    let mut progress = Progress::start(arguments.seed);
    let count = arguments.count as usize;
    for _ in 0..count / PART {
        progress = progress.over(configuration, image, &mut records, map);
    }
    let rest = &mut records[..count % PART * RECORD_LENGTH];
    progress.over(configuration, image, rest, map)
}

fn print_row(rt: &impl Print, name: &str, value: u64) -> io::Result<()> {
    println!(rt; "{name} {value}")
}

fn print_address(rt: &impl Print, name: &str, a: RomAddr) -> io::Result<()> {
    println!(rt; "{name} {:04x}", a.0)
}

fn print_refused(rt: &impl Print, number: u8) -> io::Result<()> {
    print_row(rt, "cert.hex refused by", u64::from(number))
}

// No `Display` of `Mode`: no other program prints one.
fn print_mode(rt: &impl Print, mode: Mode) -> io::Result<()> {
    rt.println(match mode {
        Mode::Running => "mode running",
        Mode::Idle => "mode idle",
        Mode::Stopped => "mode stopped",
    })
}

// The register file, sixteen bytes a row.
fn print_registers(rt: &impl Print, state: State) -> io::Result<()> {
    for (i, byte) in state.regs.iter().enumerate() {
        let separator = if i % 16 == 15 { "\n" } else { " " };
        print!(rt; "{byte:02x}{separator}")?;
    }
    Ok(())
}

// Reads a certificate's text from an open file, piece by piece: one that is not full is the last. No file has more pieces than it may read.
fn read_pieces(file: &mut impl Read, cert: &mut Certificate) -> Result<(), Fault> {
    let mut s = hex_text::start();
    for _ in 0..u64::MAX {
        let mut piece = [0u8; 4096];
        let n = reading::read_full(file, &mut piece);
        s = hex_text::feed(s, &piece[..n], cert);
        if n < piece.len() {
            break;
        }
    }
    hex_text::finish(s, LONG_CERTIFICATE_LENGTH)
}

// Prints the lowest start of a certificate that the run has not reached.
fn tell_lowest(rt: &impl Print, cert: &Certificate, map: &Map) -> io::Result<()> {
    match uncovered::lowest_unmarked(cert, map) {
        Ok(Some(a)) => print_address(rt, "lowest unmarked start", a),
        Ok(None) => rt.println("every start is marked"),
        Err(refusal) => print_refused(rt, u8::from(refusal)),
    }
}

// Prints what a run leaves, and how much code it has reached.
fn tell(rt: &impl Print, p: Progress, map: &Map) -> io::Result<()> {
    print_row(
        rt,
        "number",
        p.stop.map_or(0, |stop| u64::from(u8::from(stop))),
    )?;
    print_row(rt, "steps", p.steps)?;
    print_row(rt, "cycles", u64::from(p.state.cycles))?;
    print_address(rt, "program counter", p.state.pc)?;
    print_mode(rt, p.state.mode)?;
    if p.stop.is_none() {
        print_row(rt, "next seed", u64::from(p.seed))?;
    }
    print_row(rt, "marked", u64::from(coverage::count(map)))
}

// As in `run_image`, which is a sample to copy whole.
// Reads a file of Intel HEX, of at most 65,536 bytes, into an image. A missing file counts as empty, which is refused by 6.
fn read_image(rt: &impl Files, name: &[u8], image: &mut [u8]) -> Result<(), Fault> {
    let mut text = [0u8; 65536];
    let n = match reading::open(rt, name) {
        Ok(mut file) => reading::read_full(&mut file, &mut text),
        Err(_) => 0,
    };
    hex_text::read_text(&text[..n], image)
}

// Runs, and tells; without a certificate an entry takes no cycles, and nothing is known of starts.
fn run_and_tell(
    rt: &impl Print,
    image: &[u8],
    cert: Option<&Certificate>,
    arguments: Arguments,
) -> io::Result<()> {
    let mut map: Map = [0; WORDS];
    let configuration = Configuration {
        profile: arguments.profile,
        entry_cost: match cert {
            Some(cert) => entries::entry_cost(cert),
            None => 0,
        },
    };
    let progress = run_parts(configuration, image, arguments, &mut map);
    tell(rt, progress, &map)?;
    if let Some(cert) = cert {
        tell_lowest(rt, cert, &map)?;
    }
    print_registers(rt, progress.state)
}

// With the certificate in an open file; one that is refused has no cycles of an entry, so nothing is run.
fn run_with(
    rt: &impl Print,
    file: &mut impl Read,
    image: &[u8],
    arguments: Arguments,
) -> io::Result<()> {
    let mut cert: Certificate = [0; LONG_CERTIFICATE_LENGTH];
    match read_pieces(file, &mut cert) {
        Ok(()) => run_and_tell(rt, image, Some(&cert), arguments),
        Err(fault) => print_refused(rt, u8::from(fault)),
    }
}

fn run_image(rt: &(impl Files + Print), image: &[u8], arguments: Arguments) -> io::Result<()> {
    match reading::open(rt, b"cert.hex") {
        Ok(mut file) => run_with(rt, &mut file, image, arguments),
        Err(_) => run_and_tell(rt, image, None, arguments),
    }
}

// Reads the part's image, and runs it.
fn run(rt: &(impl Files + Print), arguments: Arguments) -> io::Result<()> {
    let mut buffer = [0xFF; IMAGE_4K];
    let image = &mut buffer[..base::image_length(arguments.profile)];
    match read_image(rt, b"image.hex", image) {
        Ok(()) => run_image(rt, image, arguments),
        Err(fault) => print_row(rt, "image.hex refused by", u64::from(u8::from(fault))),
    }
}

fn usage(rt: &impl Eprint) -> io::Result<()> {
    rt.eprintln(
        "run_seed SEED RECORDS [4K | 2K], in a folder with image.hex and, for the cycles of an entry and the starts, cert.hex. Seed and records are decimal, at most 4294967295.",
    )
}

fn run_arguments(rt: &(impl Env + Files + Print + Eprint)) -> io::Result<()> {
    match read_arguments(rt) {
        Some(arguments) => run(rt, arguments),
        None => usage(rt),
    }
}

// The program has no status: where it cannot write, it ends.
fn main(rt: HostRuntime) {
    let _ = run_arguments(&rt);
}
