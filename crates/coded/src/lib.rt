// An instruction's bytes as a value, and those of its operands that can be refused.
#![tactic(auto)]

ghost use Rattle.std.specs.Prelude.{◌≡◌};
ghost use Rattle.coded.specs.Operands.{nibble_pair, even_register, offset_pair};
ghost use Rattle.coded.specs.Answer.{code_error_number, code_outcome};

use base::RegAddr;
use std::error::Error;
use std::fmt;

// An instruction's bytes.
#[derive(Clone, Copy, Debug, PartialEq, Eq)]
pub enum Code {
    One(u8),
    Two(u8, u8),
    Three(u8, u8, u8),
    Four(u8, u8, u8, u8),
}

// Why an instruction has no bytes: 8, a field is too wide, or an offset stands on pair 0 or 1; 12, an odd pair for JP or CALL.
#[derive(Clone, Copy, Debug, PartialEq, Eq)]
pub enum CodeError {
    TooWide = 8,
    OddPair = 12,
}

impl fmt::Display for CodeError {
    fn fmt<W: fmt::Write>(&self, f: &mut fmt::Formatter<W>) -> fmt::Result {
        f.write_str(match self {
            CodeError::TooWide => "an operand is too wide for its field",
            CodeError::OddPair => "JP or CALL through an odd register pair",
        })
    }
}

impl Error for CodeError {}

// The number of a refusal in the table of answers.
impl From<CodeError> for u8 {
    ghost from_gives = { λ error number. number ≡ code_error_number error };

    fn from(error: CodeError) -> u8 {
        error as u8
    }
}

// Two numbers as the halves of a byte.
pub fn byte(high: u8, low: u8) -> Result<u8, CodeError>
    ensures { code_outcome result ≡ nibble_pair high low }
{
    if high < 16 && low < 16 {
        Ok(high * 16 + low)
    } else {
        Err(CodeError::TooWide)
    }
}

// The byte of an even register address.
pub fn even_register(at: RegAddr) -> Result<u8, CodeError>
    ensures { code_outcome result ≡ even_register at.0 }
{
    if at.0 % 2 == 0 {
        Ok(at.0)
    } else {
        Err(CodeError::OddPair)
    }
}

// A pair that a 16-bit offset stands on: not 0 or 1, where the code means a direct address.
pub fn offset_pair(pair: u8) -> Result<u8, CodeError>
    ensures { code_outcome result ≡ offset_pair pair }
{
    if pair < 2 {
        Err(CodeError::TooWide)
    } else {
        Ok(pair)
    }
}
