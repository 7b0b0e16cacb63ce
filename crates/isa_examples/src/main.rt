// Decodes and encodes one instruction of every first byte, with the flags that it names, and the examples of the answers 7, 8, 10, 11 and 12; tells
// every first byte's length.
#![tactic(auto)]

use base::{IMAGE_4K, RegAddr, RomAddr};
use decode::decode;
use encode::{EncodeError, encode};
use isa::{Alu, Decoded, Flag, FlagSet, Implied, Instruction, Unary};
use roundtrip::{CopyError, copy_instruction};
use std::{fmt, io};

fn alu(op: Alu) -> &'static str {
    match op {
        Alu::Add => "add",
        Alu::Adc => "adc",
        Alu::Sub => "sub",
        Alu::Sbc => "sbc",
        Alu::Or => "or",
        Alu::And => "and",
        Alu::Tcm => "tcm",
        Alu::Tm => "tm",
        Alu::Cp => "cp",
        Alu::Xor => "xor",
    }
}

fn unary(op: Unary) -> &'static str {
    match op {
        Unary::Dec => "dec",
        Unary::Rlc => "rlc",
        Unary::Inc => "inc",
        Unary::Com => "com",
        Unary::Rl => "rl",
        Unary::Clr => "clr",
        Unary::Rrc => "rrc",
        Unary::Sra => "sra",
        Unary::Rr => "rr",
    }
}

fn implied(op: Implied) -> &'static str {
    match op {
        Implied::Idle => "idle",
        Implied::Stop => "stop",
        Implied::Di => "di",
        Implied::Ei => "ei",
        Implied::Ret => "ret",
        Implied::Iret => "iret",
        Implied::Rcf => "rcf",
        Implied::Scf => "scf",
        Implied::Ccf => "ccf",
        Implied::Nop => "nop",
    }
}

fn direct(external: bool) -> &'static str {
    if external { "lde" } else { "ldc" }
}

// An instruction's name and the address modes of its form.
#[derive(Clone, Copy)]
struct Name(Instruction);

impl fmt::Display for Name {
    fn fmt<W: fmt::Write>(&self, f: &mut fmt::Formatter<W>) -> fmt::Result {
        match self.0 {
            Instruction::UnaryReg(op, _) => write!(f, "{} R", unary(op)),
            Instruction::UnaryAt(op, _) => write!(f, "{} IR", unary(op)),
            Instruction::Pop(_) => f.write_str("pop R"),
            Instruction::PopAt(_) => f.write_str("pop IR"),
            Instruction::Push(_) => f.write_str("push R"),
            Instruction::PushAt(_) => f.write_str("push IR"),
            Instruction::IncWork(_) => f.write_str("inc r"),
            Instruction::AluWork(op, _, _) => write!(f, "{} r,r", alu(op)),
            Instruction::AluWorkAt(op, _, _) => write!(f, "{} r,Ir", alu(op)),
            Instruction::AluReg(op, _, _) => write!(f, "{} R,R", alu(op)),
            Instruction::AluRegAt(op, _, _) => write!(f, "{} R,IR", alu(op)),
            Instruction::AluImm(op, _, _) => write!(f, "{} R,IM", alu(op)),
            Instruction::LoadReg(_, _) => f.write_str("ld R,R"),
            Instruction::LoadRegAt(_, _) => f.write_str("ld R,IR"),
            Instruction::LoadAtReg(_, _) => f.write_str("ld IR,R"),
            Instruction::LoadImm(_, _) => f.write_str("ld R,IM"),
            Instruction::LoadAtImm(_, _) => f.write_str("ld IR,IM"),
            Instruction::LoadWorkAt(_, _) => f.write_str("ld r,Ir"),
            Instruction::LoadAtWork(_, _) => f.write_str("ld Ir,r"),
            Instruction::LoadIndexed(_, _, _) => f.write_str("ld r,x[r]"),
            Instruction::StoreIndexed(_, _, _) => f.write_str("ld x[r],r"),
            Instruction::LoadWorkReg(_, _) => f.write_str("ld r,R"),
            Instruction::LoadRegWork(_, _) => f.write_str("ld R,r"),
            Instruction::LoadWorkImm(_, _) => f.write_str("ld r,IM"),
            Instruction::LdcLoad(_, _) => f.write_str("ldc r,Irr"),
            Instruction::LdcStore(_, _) => f.write_str("ldc Irr,r"),
            Instruction::LdcDec(_, _) => f.write_str("ldcd r,Irr"),
            Instruction::LdcInc(_, _) => f.write_str("ldci r,Irr"),
            Instruction::LdcLoadShort(_, _, _) => f.write_str("ldc r,XS[rr]"),
            Instruction::LdcStoreShort(_, _, _) => f.write_str("ldc XS[rr],r"),
            Instruction::LdcLoadLong(_, _, _) => f.write_str("ldc r,XL[rr]"),
            Instruction::LdcStoreLong(_, _, _) => f.write_str("ldc XL[rr],r"),
            Instruction::LdcLoadDirect(_, e, _) => write!(f, "{} r,DA", direct(e)),
            Instruction::LdcStoreDirect(_, e, _) => write!(f, "{} DA,r", direct(e)),
            Instruction::JumpRel(_, _) => f.write_str("jr"),
            Instruction::Jump(_, _) => f.write_str("jp DA"),
            Instruction::JumpAt(_) => f.write_str("jp IRR"),
            Instruction::Call(_) => f.write_str("call DA"),
            Instruction::CallAt(_) => f.write_str("call IRR"),
            Instruction::Implied(op) => f.write_str(implied(op)),
        }
    }
}

// The operands in the form's order, 0 where it has none.
fn operands(i: Instruction) -> (u8, u8, u16) {
    match i {
        Instruction::UnaryReg(_, r)
        | Instruction::UnaryAt(_, r)
        | Instruction::Pop(r)
        | Instruction::PopAt(r)
        | Instruction::Push(r)
        | Instruction::PushAt(r)
        | Instruction::JumpAt(r)
        | Instruction::CallAt(r) => (r.0, 0, 0),
        Instruction::IncWork(r) => (r, 0, 0),
        Instruction::AluWork(_, x, y)
        | Instruction::AluWorkAt(_, x, y)
        | Instruction::LoadWorkAt(x, y)
        | Instruction::LoadAtWork(x, y)
        | Instruction::LoadWorkImm(x, y)
        | Instruction::LdcLoad(x, y)
        | Instruction::LdcStore(x, y)
        | Instruction::LdcDec(x, y)
        | Instruction::LdcInc(x, y)
        | Instruction::JumpRel(x, y) => (x, y, 0),
        Instruction::AluReg(_, d, s)
        | Instruction::AluRegAt(_, d, s)
        | Instruction::LoadReg(d, s)
        | Instruction::LoadRegAt(d, s)
        | Instruction::LoadAtReg(d, s) => (d.0, s.0, 0),
        Instruction::AluImm(_, d, x)
        | Instruction::LoadImm(d, x)
        | Instruction::LoadAtImm(d, x)
        | Instruction::LoadRegWork(d, x) => (d.0, x, 0),
        Instruction::LoadWorkReg(r, s) => (r, s.0, 0),
        Instruction::LoadIndexed(r, b, x)
        | Instruction::StoreIndexed(r, b, x)
        | Instruction::LdcLoadShort(r, b, x)
        | Instruction::LdcStoreShort(r, b, x) => (r, b, u16::from(x)),
        Instruction::LdcLoadLong(r, p, x) | Instruction::LdcStoreLong(r, p, x) => (r, p, x),
        Instruction::LdcLoadDirect(x, _, to)
        | Instruction::LdcStoreDirect(x, _, to)
        | Instruction::Jump(x, to) => (x, 0, to.0),
        Instruction::Call(to) => (0, 0, to.0),
        Instruction::Implied(_) => (0, 0, 0),
    }
}

// A number of bytes, or that of the refusal.
fn print_answer<E: Into<u8>>(rt: &impl Print, answer: Result<u8, E>) -> io::Result<()> {
    match answer {
        Ok(n) => print!(rt; " {n} bytes"),
        Err(error) => {
            let number: u8 = error.into();
            print!(rt; " refused {number}")
        }
    }
}

// Whether an instruction encodes to the first n of these bytes, and to no more.
fn restored(i: Instruction, n: u8, bytes: &[u8; 4]) -> bool {
    let mut out = [0xEEu8; 6];
    let mut wanted = [0xEEu8; 6];
    for (slot, byte) in wanted.iter_mut().zip(bytes.iter().take(n as usize)) {
        *slot = *byte;
    }
    encode(i, &mut out) == Ok(n) && out == wanted
}

// The letters of the flags that an instruction names.
#[derive(Clone, Copy)]
struct Letters(FlagSet);

impl fmt::Display for Letters {
    fn fmt<W: fmt::Write>(&self, f: &mut fmt::Formatter<W>) -> fmt::Result {
        let letters = [
            (Flag::Carry, "C"),
            (Flag::Zero, "Z"),
            (Flag::Sign, "S"),
            (Flag::Overflow, "V"),
        ];
        if self.0.0 == 0 {
            return f.write_str("-");
        }
        for (flag, letter) in letters {
            if isa::names(self.0, flag) {
                f.write_str(letter)?;
            }
        }
        Ok(())
    }
}

// The form with its operands, length, cycles, flags, and whether it encodes to the same bytes.
fn found(rt: &impl Print, decoded: Decoded, bytes: &[u8; 4]) -> io::Result<()> {
    let (x, y, z) = operands(decoded.instruction);
    let length = decoded.length;
    let same = restored(decoded.instruction, length, bytes);
    print!(rt;
        " {} {x:02x} {y:02x} {z:04x}; {length} {} {} {}",
        Name(decoded.instruction),
        isa::cycles_of(bytes[0]),
        Letters(decoded.names),
        if same { "same" } else { "other" }
    )
}

// A row: what the bytes decode to, or the number of the refusal.
fn row(rt: &impl Print, first: u8, second: u8) -> io::Result<()> {
    let bytes = [first, second, 0x35, 0x46];
    print!(rt; "{first:02x} {second:02x}:")?;
    match decode(&bytes, 0) {
        Ok(decoded) => found(rt, decoded, &bytes)?,
        Err(error) => print!(rt; " refused {}", u8::from(error))?,
    }
    println!(rt; "")
}

fn decoding(rt: &impl Print, name: &str, s: &[u8], at: usize) -> io::Result<()> {
    print!(rt; "{name}:")?;
    print_answer(rt, decode(s, at).map(|decoded| decoded.length))?;
    println!(rt; "")
}

fn decoding_examples(rt: &impl Print) -> io::Result<()> {
    let image = [0u8; IMAGE_4K];
    decoding(rt, "program counter 1000H", &image, IMAGE_4K)?;
    decoding(rt, "E6H D9H cut off", b"\xE6\xD9", 0)?;
    decoding(rt, "A7H 24H 35H cut off", b"\xA7\x24\x35", 0)?;
    decoding(rt, "30H cut off", b"\x30", 0)?;
    decoding(rt, "nothing there", b"", 0)?;
    decoding(rt, "0AH", b"\x0A", 0)?;
    decoding(rt, "FFH 0AH at 1", b"\xFF\x0A", 1)?;
    decoding(rt, "30H 01H", b"\x30\x01", 0)?;
    decoding(rt, "F4H 01H", b"\xF4\x01", 0)
}

// Encoding into a buffer of this length, at most 4, and whether the buffer is as it was.
fn encoding(rt: &impl Print, name: &str, i: Instruction, room: usize) -> io::Result<()> {
    let mut out = [0xEEu8; 4];
    print!(rt; "{name}:")?;
    let answer = match out.get_mut(..room) {
        Some(buffer) => encode(i, buffer),
        None => Err(EncodeError::Short),
    };
    print_answer(rt, answer)?;
    if out == [0xEEu8; 4] {
        print!(rt; " unchanged")?;
    }
    println!(rt; "")
}

// A working register or condition above 15, a 16-bit offset on pair 0 or 1, an odd pair for JP or CALL.
fn encoding_examples(rt: &impl Print) -> io::Result<()> {
    encoding(rt, "INC R16", Instruction::IncWork(16), 1)?;
    encoding(rt, "ADD R16,R0", Instruction::AluWork(Alu::Add, 16, 0), 2)?;
    encoding(rt, "ADD R0,R16", Instruction::AluWork(Alu::Add, 0, 16), 2)?;
    encoding(rt, "LD R16,#0", Instruction::LoadWorkImm(16, 0), 2)?;
    encoding(
        rt,
        "JP condition 16",
        Instruction::Jump(16, RomAddr(0x0100)),
        3,
    )?;
    encoding(
        rt,
        "LDC R0,#1000H[RR0]",
        Instruction::LdcLoadLong(0, 0, 0x1000),
        4,
    )?;
    encoding(
        rt,
        "LDE R0,#1000H[RR1]",
        Instruction::LdcLoadLong(0, 1, 0x1000),
        4,
    )?;
    encoding(
        rt,
        "LDC #1000H[RR0],R0",
        Instruction::LdcStoreLong(0, 0, 0x1000),
        4,
    )?;
    encoding(rt, "JP @01H", Instruction::JumpAt(RegAddr(1)), 2)?;
    encoding(rt, "CALL @01H", Instruction::CallAt(RegAddr(1)), 4)
}

// Too short a buffer: 7 comes before 8 and 12.
fn short_examples(rt: &impl Print) -> io::Result<()> {
    encoding(rt, "INC R16, no room", Instruction::IncWork(16), 0)?;
    encoding(
        rt,
        "LDC R0,#1000H[RR0], 3 bytes",
        Instruction::LdcLoadLong(0, 0, 0x1000),
        3,
    )?;
    encoding(
        rt,
        "LD 00H,#0, 2 bytes",
        Instruction::LoadImm(RegAddr(0), 0),
        2,
    )?;
    encoding(rt, "JP @01H, 1 byte", Instruction::JumpAt(RegAddr(1)), 1)
}

// Copying into a buffer of this length, at most 4, and what the buffer then holds.
fn copying(rt: &impl Print, at: usize, room: usize) -> io::Result<()> {
    let image = b"\x01\x40\xE6\xD9\xC0\xF6\x01\x20\x8B\xFB\x0A\x30\x01\xB0";
    let mut out = [0xEEu8; 4];
    print!(rt; "copy at {at}, {room} bytes:")?;
    let answer = match out.get_mut(..room) {
        Some(buffer) => copy_instruction(image, at, buffer),
        None => Err(CopyError::Short),
    };
    print_answer(rt, answer)?;
    for byte in out {
        print!(rt; " {byte:02x}")?;
    }
    println!(rt; "")
}

fn copying_examples(rt: &impl Print) -> io::Result<()> {
    let places = [
        (2, 4),
        (5, 3),
        (8, 3),
        (5, 2),
        (10, 4),
        (11, 4),
        (13, 4),
        (14, 4),
    ];
    for (at, room) in places {
        copying(rt, at, room)?;
    }
    Ok(())
}

// The length that `isa` tells of each first byte, 0 where it starts no instruction; a line for each row of table 6-5.
fn lengths(rt: &impl Print) -> io::Result<()> {
    for first in 0..=255u8 {
        print!(rt; "{}", isa::length_of(first))?;
        if first % 16 == 15 {
            println!(rt; "")?;
        }
    }
    Ok(())
}

fn first_bytes(rt: &impl Print) -> io::Result<()> {
    for first in 0..=255u8 {
        row(rt, first, 0x24)?;
    }
    Ok(())
}

// Codes whose second byte says more: an odd pair, a direct address.
fn second_bytes(rt: &impl Print) -> io::Result<()> {
    row(rt, 0x30, 0x25)?;
    row(rt, 0xF4, 0x25)?;
    for first in [0xA7, 0xB7] {
        for second in 0x20..0x24u8 {
            row(rt, first, second)?;
        }
    }
    row(rt, 0xE2, 0x81)?;
    row(rt, 0xC3, 0xF1)
}

fn main(rt: HostRuntime) -> io::Result<()> {
    decoding_examples(&rt)?;
    encoding_examples(&rt)?;
    short_examples(&rt)?;
    copying_examples(&rt)?;
    first_bytes(&rt)?;
    second_bytes(&rt)?;
    lengths(&rt)
}
