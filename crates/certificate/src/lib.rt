// The types of the certificate and of the effect summaries. Their meaning is in specs/; the code is in `checker`.
#![tactic(auto)]

use base::{RegAddr, RomAddr};

// From one byte to another, both included.
#[derive(Clone, Copy)]
pub struct Range {
    pub least: u8,
    pub greatest: u8,
}

// What is known of a byte that an instruction stores: a number, one more or one less than the cell held, a range, what a register held, or
// nothing.
#[derive(Clone, Copy)]
pub enum NewValue {
    Number(u8),
    OneMore,
    OneLess,
    Within(Range),
    CopyOf(RegAddr),
    Unknown,
}

// The cells that an instruction may store to: none; a register; where a pointer, plus an offset, points; a register, a byte of a range, and then
// both halves of a pair.
#[derive(Clone, Copy)]
pub enum Write {
    Nothing,
    Register(RegAddr, NewValue),
    Pointed(RegAddr, u8),
    RegisterAndPair(RegAddr, Range, RegAddr),
}

// An operand that is only read: none; a register; where a pointer, plus an offset, points.
#[derive(Clone, Copy)]
pub enum Access {
    Nothing,
    Register(RegAddr),
    Pointed(RegAddr, u8),
}

// The program memory that LDC may read: none; one address; what a pair reaches, with an offset to add and one to take off.
#[derive(Clone, Copy)]
pub enum CodeAccess {
    Nothing,
    Direct(RomAddr),
    Pair(RegAddr, u16, u16),
}

// The flags after an instruction: as before, changed, or those of `CP cell,#k`.
#[derive(Clone, Copy)]
pub enum FlagEffect {
    Kept,
    Changed,
    Compared(RegAddr, u8),
}

// What an instruction does to SP: nothing, one byte more or less on the stack, or a number is loaded.
#[derive(Clone, Copy)]
pub enum StackEffect {
    Same,
    Push,
    Pop,
    Load(u8),
}

// EI, DI and IDLE.
#[derive(Clone, Copy)]
pub enum Control {
    Nothing,
    Enable,
    Disable,
    Wait,
}

// Where control goes: behind the instruction, or to an address if a condition holds (condition 0 never holds, 8 always); a call; a return; or
// nowhere, where no accepted program has this instruction.
#[derive(Clone, Copy)]
pub enum Flow {
    Step(u8, RomAddr),
    Call(RomAddr),
    Return,
    InterruptReturn,
    Forbidden,
}

// All that the checker knows of an instruction but its cost.
#[derive(Clone, Copy)]
pub struct Summary {
    pub write: Write,
    pub first: Access,
    pub second: Access,
    pub code: CodeAccess,
    pub flags: FlagEffect,
    pub stack: StackEffect,
    pub control: Control,
    pub flow: Flow,
}

// The checker's answer: accepted; or refused, with the number of the broken rule and its address. A slice of wrong length is 7 at 0000H.
// No `Result`: both are answers of the checker; `Exact`, `check_exact`, `accepts_exactly` and `refuses_exactly` speak of them and of every number.
#[derive(Clone, Copy)]
pub enum Verdict {
    Accepted,
    Refused(u8, RomAddr),
}
