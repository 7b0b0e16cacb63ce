// The types of the machine: its state, what stops it, and what a run and an instruction leave. Their meaning is in specs/; the code is in the
// crates from `operands` to `machine`.
#![tactic(auto)]

ghost use Rattle.std.specs.Prelude.{◌≡◌};
ghost use Rattle.isa.specs.Answer.{decode_error_number};
ghost use Rattle.semantics.specs.declared.Stop.{Stop};
ghost use Rattle.semantics.specs.Stops.{stop_number};

use base::{Profile, RegAddr, RomAddr};
use chip::Registers;
use isa::DecodeError;
use std::error::Error;
use std::fmt;

// Whether the machine runs, or waits for an interrupt in IDLE or in STOP.
#[derive(Clone, Copy, Debug, PartialEq, Eq)]
pub enum Mode {
    Running,
    Idle,
    Stopped,
}

// The register file, the program counter, the mode and the cycle total modulo 2^32.
#[derive(Clone, Copy, Debug, PartialEq, Eq)]
pub struct State {
    pub regs: Registers,
    pub pc: RomAddr,
    pub mode: Mode,
    pub cycles: u32,
}

// Why a step or a run is refused, by its number in the table of answers.
#[derive(Clone, Copy, Debug, PartialEq, Eq)]
pub enum Stop {
    // A slice of wrong length, or an entry's cycles above the limit.
    InvalidArgument = 7,
    // ROM ends within the instruction.
    CutOff = 10,
    // The bytes are no instruction.
    Undefined = 11,
    // A pair at an odd address.
    OddPair = 12,
    // A register that is not mapped.
    Unmapped = 13,
    // LDE, LDC that writes, and LDC outside ROM.
    ProgramMemory = 14,
}

impl fmt::Display for Stop {
    fn fmt<W: fmt::Write>(&self, f: &mut fmt::Formatter<W>) -> fmt::Result {
        f.write_str(match self {
            Stop::InvalidArgument => "a slice of wrong length, or a number that is not taken",
            Stop::CutOff => "an instruction that ROM cuts off",
            Stop::Undefined => "an undefined instruction",
            Stop::OddPair => "a register pair at an odd address",
            Stop::Unmapped => "a register that is not mapped",
            Stop::ProgramMemory => "external program memory, a write of it, or a load outside ROM",
        })
    }
}

impl Error for Stop {}

// The number of a refusal in the table of answers.
impl From<Stop> for u8 {
    ghost from_gives = { λ stop number. number ≡ stop_number stop };

    fn from(stop: Stop) -> u8 {
        stop as u8
    }
}

// The refusal of an instruction that is not there, by the same number.
impl From<DecodeError> for Stop {
    ghost from_gives = { λ error stop. stop_number stop ≡ decode_error_number error };

    fn from(error: DecodeError) -> Stop {
        match error {
            DecodeError::CutOff => Stop::CutOff,
            DecodeError::Undefined => Stop::Undefined,
            DecodeError::OddPair => Stop::OddPair,
        }
    }
}

impl From<base::InvalidArgument> for Stop {
    ghost from_gives = { λ _ stop. stop ≡ Stop.InvalidArgument };

    fn from(_refusal: base::InvalidArgument) -> Stop {
        Stop::InvalidArgument
    }
}

// The state after a run's completed steps, how many they are, and the refusal that ended it, if one did.
#[derive(Clone, Copy, Debug, PartialEq, Eq)]
pub struct Ran {
    pub state: State,
    pub steps: usize,
    pub stop: Option<Stop>,
}

// What a machine is given beside its image: its part, and the cycles of an interrupt entry.
#[derive(Clone, Copy, Debug, PartialEq, Eq)]
pub struct Configuration {
    pub profile: Profile,
    pub entry_cost: u8,
}

// Where an operand is, and whether every register on the way is mapped.
// The address is used where it is not: the definitions carry an action out all the same (S`place_of`, S`binary_of`).
#[derive(Clone, Copy, Debug, PartialEq, Eq)]
pub struct Place {
    pub addr: RegAddr,
    pub ok: bool,
}

// An operand's byte, and whether every register on the way is mapped. The byte is used where it is not, as a place is (S`fetch_of`).
#[derive(Clone, Copy, Debug, PartialEq, Eq)]
pub struct Fetched {
    pub value: u8,
    pub ok: bool,
}

// What an instruction leaves beside the registers, and the refusal that it meets, if it does.
// No `Result`: the address and the mode are told beside a refusal too (S`goes_on`).
#[derive(Clone, Copy, Debug, PartialEq, Eq)]
pub struct Next {
    pub pc: RomAddr,
    pub mode: Mode,
    pub stop: Option<Stop>,
}
