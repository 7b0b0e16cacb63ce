// Prints the table of cycles in docs/CERTIFICATE.md, a row for each instruction with its operands. The names are typed here; bytes and cycles
// are those of `isa`. The last line tells whether each first byte is in the one row that it belongs to.
#![tactic(auto)]

use base::byte_at;
use std::io;
use test_support::hex_byte;

// The rows, a line each: two digits of the first byte, or `x` for any and one digit; and the name. LDE, LDED and LDEI have the first bytes of
// LDC, LDCD and LDCI, and DA has those of XL[rr]: the second byte tells them apart.
const ROWS: &str = "\
    12 ADC r,r\n\
    13 ADC r,Ir\n\
    14 ADC R,R\n\
    15 ADC R,IR\n\
    16 ADC R,IM\n\
    02 ADD r,r\n\
    03 ADD r,Ir\n\
    04 ADD R,R\n\
    05 ADD R,IR\n\
    06 ADD R,IM\n\
    52 AND r,r\n\
    53 AND r,Ir\n\
    54 AND R,R\n\
    55 AND R,IR\n\
    56 AND R,IM\n\
    F6 CALL DA\n\
    F4 CALL IRR\n\
    EF CCF\n\
    B0 CLR R\n\
    B1 CLR IR\n\
    60 COM R\n\
    61 COM IR\n\
    A2 CP r,r\n\
    A3 CP r,Ir\n\
    A4 CP R,R\n\
    A5 CP R,IR\n\
    A6 CP R,IM\n\
    00 DEC R\n\
    01 DEC IR\n\
    8F DI\n\
    9F EI\n\
    6F IDLE\n\
    xE INC r\n\
    20 INC R\n\
    21 INC IR\n\
    BF IRET\n\
    xD JP cc,DA\n\
    30 JP IRR\n\
    xB JR cc,RA\n\
    xC LD r,IM\n\
    x8 LD r,R\n\
    x9 LD R,r\n\
    C7 LD r,Ir\n\
    D7 LD Ir,r\n\
    E4 LD R,R\n\
    E5 LD R,IR\n\
    E6 LD R,IM\n\
    D6 LD IR,IM\n\
    F5 LD IR,R\n\
    87 LD r,x[r]\n\
    97 LD x[r],r\n\
    C3 LDC/LDE r,Irr\n\
    D3 LDC/LDE Irr,r\n\
    E7 LDC/LDE r,XS[rr]\n\
    F7 LDC/LDE XS[rr],r\n\
    A7 LDC/LDE r,XL[rr] or r,DA\n\
    B7 LDC/LDE XL[rr],r or DA,r\n\
    E2 LDCD/LDED r,Irr\n\
    E3 LDCI/LDEI r,Irr\n\
    FF NOP\n\
    42 OR r,r\n\
    43 OR r,Ir\n\
    44 OR R,R\n\
    45 OR R,IR\n\
    46 OR R,IM\n\
    50 POP R\n\
    51 POP IR\n\
    70 PUSH R\n\
    71 PUSH IR\n\
    CF RCF\n\
    AF RET\n\
    90 RL R\n\
    91 RL IR\n\
    10 RLC R\n\
    11 RLC IR\n\
    E0 RR R\n\
    E1 RR IR\n\
    C0 RRC R\n\
    C1 RRC IR\n\
    32 SBC r,r\n\
    33 SBC r,Ir\n\
    34 SBC R,R\n\
    35 SBC R,IR\n\
    36 SBC R,IM\n\
    DF SCF\n\
    D0 SRA R\n\
    D1 SRA IR\n\
    7F STOP\n\
    22 SUB r,r\n\
    23 SUB r,Ir\n\
    24 SUB R,R\n\
    25 SUB R,IR\n\
    26 SUB R,IM\n\
    62 TCM r,r\n\
    63 TCM r,Ir\n\
    64 TCM R,R\n\
    65 TCM R,IR\n\
    66 TCM R,IM\n\
    72 TM r,r\n\
    73 TM r,Ir\n\
    74 TM R,R\n\
    75 TM R,IR\n\
    76 TM R,IM\n\
    B2 XOR r,r\n\
    B3 XOR r,Ir\n\
    B4 XOR R,R\n\
    B5 XOR R,IR\n\
    B6 XOR R,IM";

// Where a first byte stands: in no row; in one; in two, or in one that tells other numbers.
#[derive(Clone, Copy, PartialEq, Eq)]
enum Place {
    Free,
    Taken,
    Differs,
}

// Whether two first bytes have the same length and cycles.
fn alike(a: u8, b: u8) -> bool {
    isa::length_of(a) == isa::length_of(b) && isa::cycles_of(a) == isa::cycles_of(b)
}

// Marks the first bytes of a row: `count` of them, 10H apart. The byte is carried, since the last one may be F0H and more.
fn mark(seen: &mut [Place; 256], first: u8, count: u8) {
    let mut code = first;
    for _ in 0..count {
        let place = &mut seen[code as usize];
        *place = if *place == Place::Free && alike(code, first) {
            Place::Taken
        } else {
            Place::Differs
        };
        code = code.wrapping_add(16);
    }
}

fn row(rt: &impl Print, seen: &mut [Place; 256], code: &str, name: &str) -> io::Result<()> {
    let digits = code.as_bytes();
    let high = byte_at(digits, 0);
    let first = hex_byte(high, byte_at(digits, 1));
    mark(seen, first, if high == b'x' { 16 } else { 1 });
    println!(rt;
        "| {name} | {code}H | {} | {} |",
        isa::length_of(first),
        isa::cycles_of(first)
    )
}

// Whether a first byte is not where it belongs.
fn is_misplaced(code: u8, place: Place) -> bool {
    let defined = isa::length_of(code) != 0;
    let costs = isa::cycles_of(code) != 0;
    place == Place::Differs || (place != Place::Free) != defined || costs != defined
}

// How many first bytes start an instruction, how many start none, and how many are not where they belong.
fn print_totals(rt: &impl Print, seen: &[Place; 256]) -> io::Result<()> {
    let codes = (0..=255u8)
        .filter(|code| isa::length_of(*code) != 0)
        .count();
    let undefined = (0..=255u8)
        .filter(|code| isa::length_of(*code) == 0)
        .count();
    let differ = (0..=255u8)
        .filter(|code| is_misplaced(*code, seen[*code as usize]))
        .count();
    println!(rt;
        "\n{codes} codes in {} rows, {undefined} undefined, {differ} differ.",
        ROWS.lines().count()
    )
}

fn main(rt: HostRuntime) -> io::Result<()> {
    let mut seen = [Place::Free; 256];
    println!(&rt; "| Instruction | First byte | Bytes | Cycles |\n|---|---|---|---|")?;
    for line in ROWS.lines() {
        if let Some((code, name)) = line.split_once(' ') {
            row(&rt, &mut seen, code, name)?;
        }
    }
    print_totals(&rt, &seen)
}
