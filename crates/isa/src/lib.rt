// The S3F9454's instruction forms, the flags that they name, and each first byte's length and cycles.
#![tactic(auto)]

ghost use Rattle.std.specs.Prelude.{◌≡◌};
ghost use Rattle.isa.specs.Flags.{flag_in, no_flags};
ghost use Rattle.isa.specs.Answer.{decode_error_number};
ghost use Rattle.isa.specs.Map.{length_of, cycles_of};

use base::{RegAddr, RomAddr};
use std::error::Error;
use std::fmt;

// Operations on two bytes, by their rows of columns 2 to 6 of table 6-5.
#[derive(Clone, Copy, Debug, PartialEq, Eq)]
pub enum Alu {
    Add = 0,
    Adc = 1,
    Sub = 2,
    Sbc = 3,
    Or = 4,
    And = 5,
    Tcm = 6,
    Tm = 7,
    Cp = 10,
    Xor = 11,
}

// Operations on one byte, by their rows of columns 0 and 1.
#[derive(Clone, Copy, Debug, PartialEq, Eq)]
pub enum Unary {
    Dec = 0,
    Rlc = 1,
    Inc = 2,
    Com = 6,
    Rl = 9,
    Clr = 11,
    Rrc = 12,
    Sra = 13,
    Rr = 14,
}

// Instructions without an operand, by their rows of column F.
#[derive(Clone, Copy, Debug, PartialEq, Eq)]
pub enum Implied {
    Idle = 6,
    Stop = 7,
    Di = 8,
    Ei = 9,
    Ret = 10,
    Iret = 11,
    Rcf = 12,
    Scf = 13,
    Ccf = 14,
    Nop = 15,
}

// What a row of columns 0 and 1 holds. No `Option`: POP and PUSH stand beside the operations (S`Map` `unary_rows`).
#[derive(Clone, Copy, Debug, PartialEq, Eq)]
pub enum UnaryRow {
    Op(Unary),
    Pop,
    Push,
    Other,
}

// An instruction with its operands, destination first. `Work` is a working register, `Reg` a register address, `Imm` a number, and `At`
// marks an operand that a register points to. A working register, a pair and a condition are the numbers 0 to 15 in a `u8`; a wider one
// is refused when it is encoded. Of the LDC group the pair is kept as it is coded: an odd one means LDE.
#[derive(Clone, Copy, Debug, PartialEq, Eq)]
pub enum Instruction {
    UnaryReg(Unary, RegAddr),
    UnaryAt(Unary, RegAddr),
    Pop(RegAddr),
    PopAt(RegAddr),
    Push(RegAddr),
    PushAt(RegAddr),
    IncWork(u8),
    AluWork(Alu, u8, u8),
    AluWorkAt(Alu, u8, u8),
    AluReg(Alu, RegAddr, RegAddr),
    AluRegAt(Alu, RegAddr, RegAddr),
    AluImm(Alu, RegAddr, u8),
    LoadReg(RegAddr, RegAddr),
    LoadRegAt(RegAddr, RegAddr),
    LoadAtReg(RegAddr, RegAddr),
    LoadImm(RegAddr, u8),
    LoadAtImm(RegAddr, u8),
    LoadWorkAt(u8, u8),
    LoadAtWork(u8, u8),
    LoadIndexed(u8, u8, u8),
    StoreIndexed(u8, u8, u8),
    LoadWorkReg(u8, RegAddr),
    LoadRegWork(RegAddr, u8),
    LoadWorkImm(u8, u8),
    LdcLoad(u8, u8),
    LdcStore(u8, u8),
    LdcDec(u8, u8),
    LdcInc(u8, u8),
    LdcLoadShort(u8, u8, u8),
    LdcStoreShort(u8, u8, u8),
    LdcLoadLong(u8, u8, u16),
    LdcStoreLong(u8, u8, u16),
    LdcLoadDirect(u8, bool, RomAddr),
    LdcStoreDirect(u8, bool, RomAddr),
    JumpRel(u8, u8),
    Jump(u8, RomAddr),
    JumpAt(RegAddr),
    Call(RomAddr),
    CallAt(RegAddr),
    Implied(Implied),
}

// The four flags of FLAGS: C, Z, S, V.
#[derive(Clone, Copy, Debug, PartialEq, Eq)]
pub enum Flag {
    Carry,
    Zero,
    Sign,
    Overflow,
}

// A set of flags, by their bits in FLAGS: C is 80H, Z 40H, S 20H, V 10H.
#[derive(Clone, Copy, Debug, PartialEq, Eq)]
pub struct FlagSet(pub u8);

pub const NO_FLAGS: FlagSet = FlagSet(0);

pub const CARRY_FLAG: FlagSet = FlagSet(0x80);

// Z, S and V.
pub const RESULT_FLAGS: FlagSet = FlagSet(0x70);

pub const ALL_FLAGS: FlagSet = FlagSet(0xF0);

// An instruction as it was decoded, its length, and the flags that it names: those that it may change.
#[derive(Clone, Copy, Debug, PartialEq, Eq)]
pub struct Decoded {
    pub instruction: Instruction,
    pub length: u8,
    pub names: FlagSet,
}

impl Decoded {
    pub fn new(instruction: Instruction, length: u8, names: FlagSet) -> Decoded
        ensures { result ≡ record { instruction = instruction; length = length; names = names } }
    {
        Decoded {
            instruction,
            length,
            names,
        }
    }

    // One that names no flag.
    pub fn plain(instruction: Instruction, length: u8) -> Decoded
        ensures { result ≡ record { instruction = instruction; length = length; names = no_flags } }
    {
        Decoded::new(instruction, length, NO_FLAGS)
    }
}

// Why there is no instruction: 10, not wholly there; 11, undefined; 12, an odd pair for JP or CALL.
#[derive(Clone, Copy, Debug, PartialEq, Eq)]
pub enum DecodeError {
    CutOff = 10,
    Undefined = 11,
    OddPair = 12,
}

impl fmt::Display for DecodeError {
    fn fmt<W: fmt::Write>(&self, f: &mut fmt::Formatter<W>) -> fmt::Result {
        f.write_str(match self {
            DecodeError::CutOff => "the instruction is cut off",
            DecodeError::Undefined => "no instruction has this code",
            DecodeError::OddPair => "JP or CALL through an odd register pair",
        })
    }
}

impl Error for DecodeError {}

// The number of a refusal in the table of answers.
impl From<DecodeError> for u8 {
    ghost from_gives = { λ error number. number ≡ decode_error_number error };

    fn from(error: DecodeError) -> u8 {
        error as u8
    }
}

// Bytes of the instruction that each first byte starts, 0 where it starts none. Two arrays, and no array of pairs: each is the 256 values of its
// definition (S`Map` `length_of`, `cycles_of`).
const LENGTH: [u8; 256] = [
    2, // 00H
    2, 2, 2, 3, 3, 3, 0, 2, 2, 0, 2, 2, 3, 1, 0, 2, // 10H
    2, 2, 2, 3, 3, 3, 0, 2, 2, 0, 2, 2, 3, 1, 0, 2, // 20H
    2, 2, 2, 3, 3, 3, 0, 2, 2, 0, 2, 2, 3, 1, 0, 2, // 30H
    0, 2, 2, 3, 3, 3, 0, 2, 2, 0, 2, 2, 3, 1, 0, 0, // 40H
    0, 2, 2, 3, 3, 3, 0, 2, 2, 0, 2, 2, 3, 1, 0, 2, // 50H
    2, 2, 2, 3, 3, 3, 0, 2, 2, 0, 2, 2, 3, 1, 0, 2, // 60H
    2, 2, 2, 3, 3, 3, 0, 2, 2, 0, 2, 2, 3, 1, 1, 2, // 70H
    2, 2, 2, 3, 3, 3, 0, 2, 2, 0, 2, 2, 3, 1, 1, 0, // 80H
    0, 0, 0, 0, 0, 0, 3, 2, 2, 0, 2, 2, 3, 1, 1, 2, // 90H
    2, 0, 0, 0, 0, 0, 3, 2, 2, 0, 2, 2, 3, 1, 1, 0, // A0H
    0, 2, 2, 3, 3, 3, 4, 2, 2, 0, 2, 2, 3, 1, 1, 2, // B0H
    2, 2, 2, 3, 3, 3, 4, 2, 2, 0, 2, 2, 3, 1, 1, 2, // C0H
    2, 0, 2, 0, 0, 0, 2, 2, 2, 0, 2, 2, 3, 1, 1, 2, // D0H
    2, 0, 2, 0, 0, 3, 2, 2, 2, 0, 2, 2, 3, 1, 1, 2, // E0H
    2, 2, 2, 3, 3, 3, 3, 2, 2, 0, 2, 2, 3, 1, 1, 0, // F0H
    0, 0, 0, 2, 3, 3, 3, 2, 2, 0, 2, 2, 3, 1, 1,
];

// Its cycles (pages of chapter 6, and 01 where a page is blank or misprinted), 0 where it starts none.
const CYCLES: [u8; 256] = [
    4, // 00H
    6, 4, 6, 6, 6, 6, 0, 4, 4, 0, 6, 4, 8, 4, 0, 4, // 10H
    4, 4, 6, 6, 6, 6, 0, 4, 4, 0, 6, 4, 8, 4, 0, 4, // 20H
    4, 4, 6, 6, 6, 6, 0, 4, 4, 0, 6, 4, 8, 4, 0, 8, // 30H
    0, 4, 6, 6, 6, 6, 0, 4, 4, 0, 6, 4, 8, 4, 0, 0, // 40H
    0, 4, 6, 6, 6, 6, 0, 4, 4, 0, 6, 4, 8, 4, 0, 8, // 50H
    8, 4, 6, 6, 6, 6, 0, 4, 4, 0, 6, 4, 8, 4, 0, 4, // 60H
    4, 4, 6, 6, 6, 6, 0, 4, 4, 0, 6, 4, 8, 4, 4, 8, // 70H
    8, 4, 6, 6, 6, 6, 0, 4, 4, 0, 6, 4, 8, 4, 4, 0, // 80H
    0, 0, 0, 0, 0, 0, 6, 4, 4, 0, 6, 4, 8, 4, 4, 4, // 90H
    4, 0, 0, 0, 0, 0, 6, 4, 4, 0, 6, 4, 8, 4, 4, 0, // A0H
    0, 4, 6, 6, 6, 6, 14, 4, 4, 0, 6, 4, 8, 4, 8, 4, // B0H
    4, 4, 6, 6, 6, 6, 14, 4, 4, 0, 6, 4, 8, 4, 10, 4, // C0H
    4, 0, 10, 0, 0, 0, 4, 4, 4, 0, 6, 4, 8, 4, 4, 4, // D0H
    4, 0, 10, 0, 0, 6, 4, 4, 4, 0, 6, 4, 8, 4, 4, 4, // E0H
    4, 10, 10, 6, 6, 6, 12, 4, 4, 0, 6, 4, 8, 4, 4, 0, // F0H
    0, 0, 0, 12, 6, 14, 12, 4, 4, 0, 6, 4, 8, 4, 4,
];

// Whether a flag is 1 in a FLAGS byte.
#[tactic(auto, unfolding(crate::specs::Flags::flag_in))]
pub fn flag_in(flag: Flag, flags: u8) -> bool
    ensures { result ≡ flag_in flag flags }
{
    match flag {
        Flag::Carry => flags / 128 % 2 == 1,
        Flag::Zero => flags / 64 % 2 == 1,
        Flag::Sign => flags / 32 % 2 == 1,
        Flag::Overflow => flags / 16 % 2 == 1,
    }
}

// Whether a flag is in a set.
pub fn names(set: FlagSet, flag: Flag) -> bool
    ensures { result ≡ flag_in flag set.0 }
{
    flag_in(flag, set.0)
}

// The length of the instruction that starts with this byte, or 0.
pub fn length_of(first: u8) -> u8
    ensures { result ≡ length_of first }
{
    LENGTH[first as usize]
}

// Its cycles, or 0.
pub fn cycles_of(first: u8) -> u8
    ensures { result ≡ cycles_of first }
{
    CYCLES[first as usize]
}
