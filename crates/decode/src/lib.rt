// The decoder: the low nibble's ranges, then the rows.
#![tactic(auto)]

ghost use Rattle.std.specs.Prelude.{◌≡◌, ◌/◌};
ghost use Rattle.isa.specs.Map.{column7, row_column, column_f, cell_of, cell_names};
ghost use Rattle.isa.specs.Answer.{decoded};
ghost use Rattle.columns.specs.Form.{answer_of};
ghost use Rattle.decode.specs.Decode.{implied_cell, decode_at};

use base::{RegAddr, RomAddr, byte_at, word};
use columns::{Following, alu_column, unary_column};
use isa::{
    ALL_FLAGS, CARRY_FLAG, DecodeError, Decoded, FlagSet, Implied, Instruction, NO_FLAGS,
    RESULT_FLAGS,
};

#[inline(always)]
fn column_7(row: u8, bytes: Following) -> Result<Decoded, DecodeError>
    ensures { decoded result ≡ answer_of (column7 row) row bytes.first bytes.second bytes.third }
{
    let (r, s) = bytes.nibbles();
    let x = bytes.second;
    let far = word(bytes.third, x);
    Ok(match row {
        8 => Decoded::plain(Instruction::LoadIndexed(r, s, x), 3),
        9 => Decoded::plain(Instruction::StoreIndexed(r, s, x), 3),
        // a direct address where a pair 0 or 1 stands, else a 16-bit offset; low half first
        10 if s < 2 => Decoded::plain(Instruction::LdcLoadDirect(r, s == 1, RomAddr(far)), 4),
        10 => Decoded::plain(Instruction::LdcLoadLong(r, s, far), 4),
        11 if s < 2 => Decoded::plain(Instruction::LdcStoreDirect(r, s == 1, RomAddr(far)), 4),
        11 => Decoded::plain(Instruction::LdcStoreLong(r, s, far), 4),
        12 => Decoded::plain(Instruction::LoadWorkAt(r, s), 2),
        13 => Decoded::plain(Instruction::LoadAtWork(r, s), 2),
        14 => Decoded::plain(Instruction::LdcLoadShort(r, s, x), 3),
        15 => Decoded::plain(Instruction::LdcStoreShort(r, s, x), 3),
        _ => return Err(DecodeError::Undefined),
    })
}

// Columns 8 to E, where the row is a register or a condition.
#[inline(always)]
fn row_column(low: u8, row: u8, bytes: Following) -> Result<Decoded, DecodeError>
    ensures { decoded result ≡ answer_of (row_column low) row bytes.first bytes.second bytes.third }
{
    let x = bytes.first;
    Ok(match low {
        8 => Decoded::plain(Instruction::LoadWorkReg(row, RegAddr(x)), 2),
        9 => Decoded::plain(Instruction::LoadRegWork(RegAddr(x), row), 2),
        10 => return Err(DecodeError::Undefined),
        11 => Decoded::plain(Instruction::JumpRel(row, x), 2),
        12 => Decoded::plain(Instruction::LoadWorkImm(row, x), 2),
        13 => Decoded::plain(Instruction::Jump(row, bytes.address()), 3),
        _ => Decoded::new(Instruction::IncWork(row), 1, RESULT_FLAGS),
    })
}

// What a row of column F holds: an instruction, and the flags that it names.
fn implied_row(row: u8) -> Option<(Implied, FlagSet)>
    ensures { implied_cell result ≡ (column_f row, cell_names (column_f row)) }
{
    match row {
        6 => Some((Implied::Idle, NO_FLAGS)),
        7 => Some((Implied::Stop, NO_FLAGS)),
        8 => Some((Implied::Di, NO_FLAGS)),
        9 => Some((Implied::Ei, NO_FLAGS)),
        10 => Some((Implied::Ret, NO_FLAGS)),
        11 => Some((Implied::Iret, ALL_FLAGS)),
        12 => Some((Implied::Rcf, CARRY_FLAG)),
        13 => Some((Implied::Scf, CARRY_FLAG)),
        14 => Some((Implied::Ccf, CARRY_FLAG)),
        15 => Some((Implied::Nop, NO_FLAGS)),
        _ => None,
    }
}

#[inline(always)]
fn column_f(row: u8, bytes: Following) -> Result<Decoded, DecodeError>
    ensures { decoded result ≡ answer_of (column_f row) row bytes.first bytes.second bytes.third }
{
    match implied_row(row) {
        Some((op, names)) => Ok(Decoded::new(Instruction::Implied(op), 1, names)),
        None => Err(DecodeError::Undefined),
    }
}

// The whole map. A match, and no table of functions: the columns take different arguments.
#[inline(always)]
pub fn form(first: u8, bytes: Following) -> Result<Decoded, DecodeError>
    ensures { decoded result ≡ answer_of (cell_of first) (first / 16) bytes.first bytes.second bytes.third }
{
    let low = first % 16;
    let row = first / 16;
    match low {
        0..=1 => unary_column(low, row, bytes),
        2..=6 => alu_column(low, row, bytes),
        7 => column_7(row, bytes),
        8..=14 => row_column(low, row, bytes),
        _ => column_f(row, bytes),
    }
}

// The instruction at a position of a slice.
#[tactic(auto, unfolding(crate::specs::Decode::decode_at))]
pub fn decode(s: &[u8], at: usize) -> Result<Decoded, DecodeError>
    ensures { decoded result ≡ decode_at s.now at }
{
    if s.len() <= at {
        return Err(DecodeError::CutOff);
    }
    let first = s[at];
    let n = opcode_words::length(first) as usize;
    if s.len() - at < n {
        return Err(DecodeError::CutOff);
    }
    form(
        first,
        Following {
            first: byte_at(s, at + 1),
            second: byte_at(s, at + 2),
            third: byte_at(s, at + 3),
        },
    )
}
