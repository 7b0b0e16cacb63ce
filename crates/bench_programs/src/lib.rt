// What the benchmarks of the machine share: the programs that they run, the schedule, what a run leaves, and the arguments.
#![tactic(auto)]

use base::{IMAGE_4K, RECORD_LENGTH};
use semantics::State;
use std::io;
use std::rt::Env;
use test_support::put;

// The records of one call of `run`, and their bytes.
pub const PART: usize = 1000;

pub const SCHEDULE: usize = PART * RECORD_LENGTH;

// Where reset starts.
const START: usize = 0x100;

// A loop that calls a routine, pushes and pops. The routine adds over a table by a pointer, and works on what it has added. Each turn of its loop writes
// P0PND: 02H enables external interrupt 0, 00H leaves it disabled. The service disables it up to the next turn.
fn mixed_program(image: &mut [u8; IMAGE_4K], enable: u8) {
    put(image, 0, b"\x01\x80");
    // LD SP,#C0H; EI; LD R4,#01H; CALL 0140H; PUSH R4; POP R5; JR to CALL
    put(
        image,
        START,
        b"\xE6\xD9\xC0\x9F\x4C\x01\xF6\x01\x40\x70\xC4\x50\xC5\x8B\xF7",
    );
    // CLR R2; LD P0PND,#00H; LD R3,@R2; ADD R4,R3; LD @R2,R4; INC R2; CP R2,#10H; JR C to LD P0PND; ADC R6,#55H; XOR R4,R5; RR R6; RET
    put(
        image,
        0x140,
        b"\xB0\xC2\xE6\xE8\x00\xC7\x32\x02\x43\xD7\x24\x2E\xA6\xC2\x10\x7B\xF1\x16\xC6\x55\xB2\x45\xE0\xC6\xAF",
    );
    put(image, 0x144, &[enable]);
    // PUSH R0; LD P0PND,#00H; INC R0; POP R0; IRET
    put(image, 0x180, b"\x70\xC0\xE6\xE8\x00\x0E\x50\xC0\xBF");
}

// The groups of instructions, each in a loop, and filled up with the byte of the empty image.
const GROUPS: [&[u8; 24]; 11] = [
    // Others: INC R0; ADD R1,R2; JR
    b"\x0E\x02\x12\x8B\xFB\xFF\xFF\xFF\xFF\xFF\xFF\xFF\xFF\xFF\xFF\xFF\xFF\xFF\xFF\xFF\xFF\xFF\xFF\xFF",
    // 4: LD R1,R2; LD 10H,R2; LD R3,#05H; LD 11H,10H; LD 12H,#07H; JR to the start
    b"\x18\xC2\x29\x10\x3C\x05\xE4\x10\x11\xE6\x12\x07\x8B\xF2\xFF\xFF\xFF\xFF\xFF\xFF\xFF\xFF\xFF\xFF",
    // 5: ADD R1,R2; ADC 11H,10H; SUB R3,#05H; OR R4,R5; AND 11H,10H; CP R4,#20H; XOR R5,R6; TM R2,#01H; JR
    b"\x02\x12\x14\x10\x11\x26\xC3\x05\x42\x45\x54\x10\x11\xA6\xC4\x20\xB2\x56\x76\xC2\x01\x8B\xE9\xFF",
    // 6: INC R1; DEC R2; RL R3; RR R4; RLC R5; RRC R6; SRA R7; COM R8; JR
    b"\x1E\x00\xC2\x90\xC3\xE0\xC4\x10\xC5\xC0\xC6\xD0\xC7\x60\xC8\x8B\xEF\xFF\xFF\xFF\xFF\xFF\xFF\xFF",
    // 7: LD R2,#10H; LD R3,@R2; LD @R2,R3; ADD R4,@R2; INC @R2; JR
    b"\x2C\x10\xC7\x32\xD7\x23\x03\x42\x21\xC2\x8B\xF4\xFF\xFF\xFF\xFF\xFF\xFF\xFF\xFF\xFF\xFF\xFF\xFF",
    // 8: LD R3,05H[R2]; LD 06H[R2],R3; JR
    b"\x87\x32\x05\x97\x32\x06\x8B\xF8\xFF\xFF\xFF\xFF\xFF\xFF\xFF\xFF\xFF\xFF\xFF\xFF\xFF\xFF\xFF\xFF",
    // 9: LD SP,#C0H; PUSH R4; PUSH R5; POP R6; POP R7; JR
    b"\xE6\xD9\xC0\x70\xC4\x70\xC5\x50\xC6\x50\xC7\x8B\xF3\xFF\xFF\xFF\xFF\xFF\xFF\xFF\xFF\xFF\xFF\xFF",
    // 10: LD SP,#C0H; CALL 0140H; JR to CALL
    b"\xE6\xD9\xC0\xF6\x01\x40\x8B\xFB\xFF\xFF\xFF\xFF\xFF\xFF\xFF\xFF\xFF\xFF\xFF\xFF\xFF\xFF\xFF\xFF",
    // 11: LD R4,#01H; LDC R3,@RR4; LDCI R3,@RR4; LDC R3,05H[RR4]; LDC R3,0100H; JR
    b"\x4C\x01\xC3\x34\xE3\x34\xE7\x34\x05\xA7\x30\x00\x01\x8B\xF1\xFF\xFF\xFF\xFF\xFF\xFF\xFF\xFF\xFF",
    // 12: JR C,+0; JR NC,+0; JR Z,+0; JR NZ,+0; JR ULE,+0; JR GT,+0; JP to the start
    b"\x7B\x00\xFB\x00\x6B\x00\xEB\x00\x3B\x00\xAB\x00\x8D\x01\x00\xFF\xFF\xFF\xFF\xFF\xFF\xFF\xFF\xFF",
    // 13: RCF; SCF; CCF; NOP; DI; EI; JR
    b"\xCF\xDF\xEF\xFF\x8F\x9F\x8B\xF8\xFF\xFF\xFF\xFF\xFF\xFF\xFF\xFF\xFF\xFF\xFF\xFF\xFF\xFF\xFF\xFF",
];

// One group of instructions, and RET.
fn group(what: u64, image: &mut [u8; IMAGE_4K]) {
    put(image, 0x140, b"\xAF");
    let row = match what {
        4..=13 => what - 3,
        _ => 0,
    };
    put(image, START, GROUPS[row as usize]);
}

// The program of a row: 1 is a plain loop, 2 the mixed program, 3 the same with interrupts, 4 to 13 are groups of instructions.
// No table of functions: the rows' steps take other arguments, so it would be no plainer.
pub fn program(what: u64) -> [u8; IMAGE_4K] {
    let mut image = [255u8; IMAGE_4K];
    match what {
        2 => mixed_program(&mut image, 0x00),
        3 => mixed_program(&mut image, 0x02),
        _ => group(what, &mut image),
    }
    image
}

// The program, the cycle total, the program counter, R4 and R6.
pub fn tell(rt: &impl Print, what: u64, s: State) -> io::Result<()> {
    let r4 = s.regs[0xC4];
    let r6 = s.regs[0xC6];
    println!(rt; "{what} {} {:04x} {r4:02x} {r6:02x}", s.cycles, s.pc.0)
}

// Makes one part, and answers the state behind it, 0 where it is refused.
pub fn make_part(seed: u32, records: &mut [u8; SCHEDULE]) -> u32 {
    xorshift::fill(seed, records).unwrap_or(0)
}

// The first 1,000 records that the seed gives.
pub fn schedule(seed: u32) -> [u8; SCHEDULE] {
    let mut records = [0u8; SCHEDULE];
    make_part(seed, &mut records);
    records
}

// An argument, as a number.
fn argument(rt: &impl Env, i: usize) -> u64 {
    let mut text = [0u8; 16];
    match rt.arg(i, &mut text) {
        Ok(n) => test_support::number(&text[..n]),
        Err(_) => 0,
    }
}

// The arguments of a benchmark: the row, how much work, and the seed.
#[derive(Clone, Copy)]
pub struct Arguments {
    pub what: u64,
    pub count: u64,
    pub seed: u32,
}

// The seed of a number, 1 to 4294967295.
fn seed_of(given: u64) -> Option<u32> {
    match u32::try_from(given) {
        Ok(0) | Err(_) => None,
        Ok(seed) => Some(seed),
    }
}

// The arguments; where the third is no seed, that is told, and there are none.
pub fn read_arguments(rt: &(impl Print + Env)) -> io::Result<Option<Arguments>> {
    let Some(seed) = seed_of(argument(rt, 3)) else {
        println!(rt; "a seed is 1 to 4294967295")?;
        return Ok(None);
    };
    Ok(Some(Arguments {
        what: argument(rt, 1),
        count: argument(rt, 2),
        seed,
    }))
}
