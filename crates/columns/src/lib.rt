// Columns 0 to 6 of the opcode map.
#![tactic(auto)]

ghost use Rattle.std.specs.Prelude.{◌≡◌, ◌*◌, ◌+◌, ◌/◌, ◌%◌, ◌==◌, Ok, Err};
ghost use Rattle.base.specs.Choice.{pick};
ghost use Rattle.isa.specs.Map.{alu_row, unary_row, unary_column, alu_column, alu_cell, other_cell, alu_names, unary_names};
ghost use Rattle.isa.specs.Answer.{decoded};
ghost use Rattle.isa.specs.declared.DecodeError.TheVariants.{OddPair};
ghost use Rattle.columns.specs.Form.{answer_of};

use base::{RegAddr, RomAddr, word};
use isa::{
    ALL_FLAGS, Alu, DecodeError, Decoded, FlagSet, Instruction, NO_FLAGS, RESULT_FLAGS, Unary,
    UnaryRow,
};

// The three bytes behind an instruction's first. What takes them is put within its caller: handed to a call they go through memory.
#[derive(Clone, Copy, Debug, PartialEq, Eq)]
pub struct Following {
    pub first: u8,
    pub second: u8,
    pub third: u8,
}

impl Following {
    // The halves of the first byte, high half first.
    #[inline(always)]
    pub fn nibbles(self) -> (u8, u8)
        ensures { result ≡ (self.first / 16, self.first % 16) }
    {
        (self.first / 16, self.first % 16)
    }

    // The address in the first two bytes, high half first.
    #[inline(always)]
    pub fn address(self) -> RomAddr
        ensures { result.0 ≡ self.first * 256 + self.second }
    {
        RomAddr(word(self.first, self.second))
    }
}

fn alu_row(row: u8) -> Option<Alu>
    ensures { result ≡ alu_row row }
{
    match row {
        0 => Some(Alu::Add),
        1 => Some(Alu::Adc),
        2 => Some(Alu::Sub),
        3 => Some(Alu::Sbc),
        4 => Some(Alu::Or),
        5 => Some(Alu::And),
        6 => Some(Alu::Tcm),
        7 => Some(Alu::Tm),
        10 => Some(Alu::Cp),
        11 => Some(Alu::Xor),
        _ => None,
    }
}

// The flags that an operation on two bytes names.
fn alu_names(op: Alu) -> FlagSet
    ensures { result ≡ alu_names op }
{
    match op {
        Alu::Add | Alu::Adc | Alu::Sub | Alu::Sbc | Alu::Cp => ALL_FLAGS,
        Alu::Or | Alu::And | Alu::Tcm | Alu::Tm | Alu::Xor => RESULT_FLAGS,
    }
}

// A register pair; an odd one is refused.
fn even_pair(pair: RegAddr) -> Result<RegAddr, DecodeError>
    ensures { result ≡ pick (pair.0 % 2 == 0) (Ok pair) (Err OddPair) }
{
    if pair.0 % 2 == 0 {
        Ok(pair)
    } else {
        Err(DecodeError::OddPair)
    }
}

// Columns 2 to 6 in the rows of an operation.
#[inline(always)]
fn alu_form(low: u8, op: Alu, row: u8, bytes: Following) -> Decoded
    ensures { decoded (Ok result) ≡ answer_of (alu_cell low op) row bytes.first bytes.second bytes.third }
{
    let names = alu_names(op);
    let (d, s) = bytes.nibbles();
    let one = RegAddr(bytes.first);
    let two = RegAddr(bytes.second);
    match low {
        2 => Decoded::new(Instruction::AluWork(op, d, s), 2, names),
        3 => Decoded::new(Instruction::AluWorkAt(op, d, s), 2, names),
        4 => Decoded::new(Instruction::AluReg(op, two, one), 3, names),
        5 => Decoded::new(Instruction::AluRegAt(op, two, one), 3, names),
        _ => Decoded::new(Instruction::AluImm(op, one, bytes.second), 3, names),
    }
}

// Columns 2 to 6 in the other rows.
#[inline(always)]
fn other_form(low: u8, row: u8, bytes: Following) -> Result<Decoded, DecodeError>
    ensures { decoded result ≡ answer_of (other_cell low row) row bytes.first bytes.second bytes.third }
{
    let (r, pair) = bytes.nibbles();
    let one = RegAddr(bytes.first);
    let two = RegAddr(bytes.second);
    Ok(match (low, row) {
        (2, 14) => Decoded::plain(Instruction::LdcDec(r, pair), 2),
        (3, 12) => Decoded::plain(Instruction::LdcLoad(r, pair), 2),
        (3, 13) => Decoded::plain(Instruction::LdcStore(r, pair), 2),
        (3, 14) => Decoded::plain(Instruction::LdcInc(r, pair), 2),
        (4, 14) => Decoded::plain(Instruction::LoadReg(two, one), 3),
        (4, 15) => Decoded::plain(Instruction::CallAt(even_pair(one)?), 2),
        (5, 14) => Decoded::plain(Instruction::LoadRegAt(two, one), 3),
        (5, 15) => Decoded::plain(Instruction::LoadAtReg(two, one), 3),
        (2..=5, _) => return Err(DecodeError::Undefined),
        (_, 13) => Decoded::plain(Instruction::LoadAtImm(one, bytes.second), 3),
        (_, 14) => Decoded::plain(Instruction::LoadImm(one, bytes.second), 3),
        (_, 15) => Decoded::plain(Instruction::Call(bytes.address()), 3),
        _ => return Err(DecodeError::Undefined),
    })
}

// Columns 2 to 6.
#[inline(always)]
pub fn alu_column(low: u8, row: u8, bytes: Following) -> Result<Decoded, DecodeError>
    ensures { decoded result ≡ answer_of (alu_column low row) row bytes.first bytes.second bytes.third }
{
    match alu_row(row) {
        Some(op) => Ok(alu_form(low, op, row, bytes)),
        None => other_form(low, row, bytes),
    }
}

fn unary_row(row: u8) -> UnaryRow
    ensures { result ≡ unary_row row }
{
    match row {
        0 => UnaryRow::Op(Unary::Dec),
        1 => UnaryRow::Op(Unary::Rlc),
        2 => UnaryRow::Op(Unary::Inc),
        5 => UnaryRow::Pop,
        6 => UnaryRow::Op(Unary::Com),
        7 => UnaryRow::Push,
        9 => UnaryRow::Op(Unary::Rl),
        11 => UnaryRow::Op(Unary::Clr),
        12 => UnaryRow::Op(Unary::Rrc),
        13 => UnaryRow::Op(Unary::Sra),
        14 => UnaryRow::Op(Unary::Rr),
        _ => UnaryRow::Other,
    }
}

// The flags that an operation on one byte names.
fn unary_names(op: Unary) -> FlagSet
    ensures { result ≡ unary_names op }
{
    match op {
        Unary::Clr => NO_FLAGS,
        Unary::Dec | Unary::Inc | Unary::Com => RESULT_FLAGS,
        Unary::Rlc | Unary::Rl | Unary::Rrc | Unary::Sra | Unary::Rr => ALL_FLAGS,
    }
}

// Columns 0 and 1.
#[inline(always)]
pub fn unary_column(low: u8, row: u8, bytes: Following) -> Result<Decoded, DecodeError>
    ensures { decoded result ≡ answer_of (unary_column low row) row bytes.first bytes.second bytes.third }
{
    let r = RegAddr(bytes.first);
    let direct = low == 0;
    match unary_row(row) {
        UnaryRow::Op(op) if direct => Ok(Decoded::new(
            Instruction::UnaryReg(op, r),
            2,
            unary_names(op),
        )),
        UnaryRow::Op(op) => Ok(Decoded::new(Instruction::UnaryAt(op, r), 2, unary_names(op))),
        UnaryRow::Pop if direct => Ok(Decoded::plain(Instruction::Pop(r), 2)),
        UnaryRow::Pop => Ok(Decoded::plain(Instruction::PopAt(r), 2)),
        UnaryRow::Push if direct => Ok(Decoded::plain(Instruction::Push(r), 2)),
        UnaryRow::Push => Ok(Decoded::plain(Instruction::PushAt(r), 2)),
        UnaryRow::Other if direct && row == 3 => Ok(Decoded::plain(
            Instruction::JumpAt(even_pair(r)?),
            2,
        )),
        UnaryRow::Other => Err(DecodeError::Undefined),
    }
}
