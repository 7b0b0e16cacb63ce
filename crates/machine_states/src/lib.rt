// States and configurations of the machine as the vector files give them.
#![tactic(auto)]

use base::{IMAGE_4K, Profile, RomAddr, byte_at};
use semantics::{Configuration, Mode, State};
use test_support::{long_at, put, word_at};

// Where the fields of a state begin.
const PC: usize = 0;

const MODE: usize = 2;

const CYCLES: usize = 3;

const DIVIDER: usize = 7;

const REGISTERS: usize = 9;

pub const STATE_LENGTH: usize = REGISTERS + 256;

// Where the fields of a configuration begin.
const PROFILE: usize = 0;

const ENTRY_COST: usize = 1;

pub const CONFIGURATION_LENGTH: usize = 2;

fn mode_of(n: u8) -> Option<Mode> {
    match n {
        0 => Some(Mode::Running),
        1 => Some(Mode::Idle),
        2 => Some(Mode::Stopped),
        _ => None,
    }
}

// The registers of a state that is given as bytes.
fn registers_of(bytes: &[u8]) -> [u8; 256] {
    let mut regs = [0u8; 256];
    if REGISTERS <= bytes.len() {
        put(&mut regs, 0, &bytes[REGISTERS..]);
    }
    regs
}

// The state that is given as bytes; another mode's byte than 0 to 2 counts as STOP.
pub fn state_of(bytes: &[u8]) -> State {
    State {
        regs: registers_of(bytes),
        pc: RomAddr(word_at(bytes, PC)),
        mode: mode_of(byte_at(bytes, MODE)).unwrap_or(Mode::Stopped),
        cycles: long_at(bytes, CYCLES),
    }
}

// Whether a state is the one that is given as bytes, and its mode's byte is 0 to 2.
pub fn same_state(state: State, bytes: &[u8]) -> bool {
    mode_of(byte_at(bytes, MODE)).is_some() && state == state_of(bytes)
}

// Whether the machine has all of a state that is given as bytes: it has no divider yet.
pub fn is_supported_state(bytes: &[u8]) -> bool {
    word_at(bytes, DIVIDER) == 0
}

fn profile_of(n: u8) -> Profile {
    match n {
        0 => Profile::Rom4K,
        _ => Profile::Rom2K,
    }
}

// The configuration that is given as bytes. A case with another number is run all the same, and told of as not supported.
pub fn configuration_of(bytes: &[u8]) -> Configuration {
    Configuration {
        profile: profile_of(byte_at(bytes, PROFILE)),
        entry_cost: byte_at(bytes, ENTRY_COST),
    }
}

// Whether the configuration that is given as bytes names a part.
pub fn is_configuration(bytes: &[u8]) -> bool {
    byte_at(bytes, PROFILE) <= 1
}

// The image of the configuration's part: the front of a buffer that has room for each part's.
pub fn image_for(configuration: Configuration, buffer: &[u8; IMAGE_4K]) -> &[u8] {
    &buffer[..base::image_length(configuration.profile)]
}
