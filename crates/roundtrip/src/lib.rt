// Decoding and then encoding restores the bytes: the law is `round_trip` of specs/RoundTrip.antt, and `encoded_decodes` of
// specs/EncodedDecodes.antt is its converse.
#![tactic(auto)]

ghost use Rattle.std.specs.Prelude.{◌≡◌, length};
ghost use Rattle.roundtrip.specs.Copy.{copy_error_number, copied, copy_answer, copy_into};
ghost use Rattle.roundtrip.specs.declared.CopyError.TheVariants.{Decode};

use isa::DecodeError;
use std::error::Error;
use std::fmt;

// Why an instruction is not copied: 7, the buffer is too short; or the number that decoding it answers.
#[derive(Clone, Copy, Debug, PartialEq, Eq)]
pub enum CopyError {
    Short,
    Decode(DecodeError),
}

impl fmt::Display for CopyError {
    fn fmt<W: fmt::Write>(&self, f: &mut fmt::Formatter<W>) -> fmt::Result {
        match self {
            CopyError::Short => f.write_str("the buffer is too short"),
            CopyError::Decode(error) => write!(f, "{error}"),
        }
    }
}

impl Error for CopyError {}

// The number of a refusal in the table of answers.
impl From<CopyError> for u8 {
    ghost from_gives = { λ error number. number ≡ copy_error_number error };

    fn from(error: CopyError) -> u8 {
        match error {
            CopyError::Short => 7,
            CopyError::Decode(error) => error.into(),
        }
    }
}

impl From<DecodeError> for CopyError {
    ghost from_gives = { λ error given. given ≡ Decode error };

    fn from(error: DecodeError) -> CopyError {
        CopyError::Decode(error)
    }
}

// Decodes at a position and encodes into a buffer: what is written are the bytes that were read. A refusal leaves the buffer as it was.
#[tactic(auto, unfolding(crate::specs::Copy::copy_answer, crate::specs::Copy::copy_into))]
pub fn copy_instruction(s: &[u8], at: usize, out: &mut [u8]) -> Result<u8, CopyError>
    ensures result_value { copied result ≡ copy_answer s.now at (length out.old) }
    ensures out_after { out.new ≡ copy_into s.now at out.old }
{
    let decoded = decode::decode(s, at)?;
    // What was decoded has bytes, so only room for them can be missing.
    encode::encode(decoded.instruction, out).or(Err(CopyError::Short))
}
