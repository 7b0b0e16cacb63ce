// The encoder.
#![tactic(auto)]

ghost use Rattle.std.specs.Prelude.{◌≡◌, ◌≤◌, ◌++◌, length, drop};
ghost use Rattle.coded.specs.Answer.{bytes};
ghost use Rattle.encode.specs.Encode.{size_of, encode_answer, encode_into};
ghost use Rattle.encode.specs.Answer.{encode_error_number, of_code, encoded};

use coded::{Code, CodeError};
use instruction_bytes::bytes_of;
use isa::Instruction;
use std::error::Error;
use std::fmt;

// Why an instruction is not encoded into a buffer: 7, the buffer is too short; 8, a field is too wide; 12, an odd pair for JP or CALL.
#[derive(Clone, Copy, Debug, PartialEq, Eq)]
pub enum EncodeError {
    Short = 7,
    TooWide = 8,
    OddPair = 12,
}

impl fmt::Display for EncodeError {
    fn fmt<W: fmt::Write>(&self, f: &mut fmt::Formatter<W>) -> fmt::Result {
        f.write_str(match self {
            EncodeError::Short => "the buffer is too short",
            EncodeError::TooWide => "an operand is too wide for its field",
            EncodeError::OddPair => "JP or CALL through an odd register pair",
        })
    }
}

impl Error for EncodeError {}

// The number of a refusal in the table of answers.
impl From<EncodeError> for u8 {
    ghost from_gives = { λ error number. number ≡ encode_error_number error };

    fn from(error: EncodeError) -> u8 {
        error as u8
    }
}

impl From<CodeError> for EncodeError {
    ghost from_gives = { λ error given. given ≡ of_code error };

    fn from(error: CodeError) -> EncodeError {
        match error {
            CodeError::TooWide => EncodeError::TooWide,
            CodeError::OddPair => EncodeError::OddPair,
        }
    }
}

// The number of bytes of an instruction's form.
fn size_of(i: Instruction) -> usize
    ensures { result ≡ size_of i }
{
    match i {
        Instruction::IncWork(_) | Instruction::Implied(_) => 1,
        Instruction::UnaryReg(_, _)
        | Instruction::UnaryAt(_, _)
        | Instruction::Pop(_)
        | Instruction::PopAt(_)
        | Instruction::Push(_)
        | Instruction::PushAt(_)
        | Instruction::AluWork(_, _, _)
        | Instruction::AluWorkAt(_, _, _)
        | Instruction::LoadWorkAt(_, _)
        | Instruction::LoadAtWork(_, _)
        | Instruction::LoadWorkReg(_, _)
        | Instruction::LoadRegWork(_, _)
        | Instruction::LoadWorkImm(_, _)
        | Instruction::LdcLoad(_, _)
        | Instruction::LdcStore(_, _)
        | Instruction::LdcDec(_, _)
        | Instruction::LdcInc(_, _)
        | Instruction::JumpRel(_, _)
        | Instruction::JumpAt(_)
        | Instruction::CallAt(_) => 2,
        Instruction::AluReg(_, _, _)
        | Instruction::AluRegAt(_, _, _)
        | Instruction::AluImm(_, _, _)
        | Instruction::LoadReg(_, _)
        | Instruction::LoadRegAt(_, _)
        | Instruction::LoadAtReg(_, _)
        | Instruction::LoadImm(_, _)
        | Instruction::LoadAtImm(_, _)
        | Instruction::LoadIndexed(_, _, _)
        | Instruction::StoreIndexed(_, _, _)
        | Instruction::LdcLoadShort(_, _, _)
        | Instruction::LdcStoreShort(_, _, _)
        | Instruction::Jump(_, _)
        | Instruction::Call(_) => 3,
        Instruction::LdcLoadLong(_, _, _)
        | Instruction::LdcStoreLong(_, _, _)
        | Instruction::LdcLoadDirect(_, _, _)
        | Instruction::LdcStoreDirect(_, _, _) => 4,
    }
}

// Writes bytes at the front of a buffer that has room for them, and answers their number.
fn write(code: Code, out: &mut [u8]) -> u8
    requires { length (bytes code) ≤ length out.old }
    ensures count { result ≡ length (bytes code) }
    ensures written { out.new ≡ bytes code ++ drop (length (bytes code)) out.old }
{
    match code {
        Code::One(a) => {
            out[0] = a;
            1
        }
        Code::Two(a, b) => {
            out[..2].copy_from_slice(&[a, b]);
            2
        }
        Code::Three(a, b, c) => {
            out[..3].copy_from_slice(&[a, b, c]);
            3
        }
        Code::Four(a, b, c, d) => {
            out[..4].copy_from_slice(&[a, b, c, d]);
            4
        }
    }
}

// Writes an instruction's bytes at the front of a buffer, and answers their number. A refusal leaves the buffer as it was.
#[tactic(auto, unfolding(crate::specs::Encode::encode_answer, crate::specs::Encode::encode_into))]
pub fn encode(i: Instruction, out: &mut [u8]) -> Result<u8, EncodeError>
    ensures result_value { encoded result ≡ encode_answer i (length out.old) }
    ensures out_after { out.new ≡ encode_into i out.old }
{
    if out.len() < size_of(i) {
        return Err(EncodeError::Short);
    }
    let code = bytes_of(i)?;
    Ok(write(code, out))
}
