// Compares `machine::step` with the cases of the file `steps.bin`. ROM, as long as the case's part has it, is FFH where a case gives no byte.
#![tactic(auto)]

use base::{IMAGE_4K, RECORD_LENGTH};
use machine_states::{
    CONFIGURATION_LENGTH, STATE_LENGTH, configuration_of, image_for, is_configuration,
    is_supported_state, same_state, state_of,
};
use semantics::{State, Stop};
use std::io;
use std::io::Read;
use test_support::{Case, Counts, put};

// Where the parts of a case begin. The vector is ROM bytes 0000H and 0001H; the window, those at the program counter, wins over it.
const CONFIGURATION: usize = 0;

const VECTOR: usize = CONFIGURATION + CONFIGURATION_LENGTH;

const WINDOW: usize = VECTOR + 2;

const GIVEN: usize = WINDOW + 8;

const RECORD: usize = GIVEN + STATE_LENGTH;

const NUMBER: usize = RECORD + RECORD_LENGTH;

const EXPECTED: usize = NUMBER + 1;

const CASE_LENGTH: usize = EXPECTED + STATE_LENGTH;

// The image of a case on the largest part; bytes of the window past ROM's end are dropped.
fn image_of(vector: &[u8], pc: u16, window: &[u8]) -> [u8; IMAGE_4K] {
    let mut image = [255u8; IMAGE_4K];
    put(&mut image, 0, vector);
    put(&mut image, usize::from(pc), window);
    image
}

// Whether the machine has the part and the states of a case.
fn is_supported(case: &[u8; CASE_LENGTH]) -> bool {
    let bytes = &case[..];
    is_configuration(&bytes[CONFIGURATION..VECTOR])
        && is_supported_state(&bytes[GIVEN..RECORD])
        && is_supported_state(&bytes[EXPECTED..])
}

// The step of a case from the state that it gives.
fn step_of(case: &[u8; CASE_LENGTH], given: State) -> Result<State, Stop> {
    let bytes = &case[..];
    let image = image_of(&bytes[VECTOR..WINDOW], given.pc.0, &bytes[WINDOW..GIVEN]);
    let configuration = configuration_of(&bytes[CONFIGURATION..VECTOR]);
    let rom = image_for(configuration, &image);
    machine::step(configuration, rom, given, &bytes[RECORD..NUMBER])
}

// Whether the step of a case leaves what the case expects: where it is refused, the state before it.
fn agrees(case: &[u8; CASE_LENGTH]) -> bool {
    let bytes = &case[..];
    let expected = &bytes[EXPECTED..CASE_LENGTH];
    let given = state_of(&bytes[GIVEN..RECORD]);
    let (state, number) = match step_of(case, given) {
        Ok(after) => (after, 0),
        Err(stop) => (given, u8::from(stop)),
    };
    is_supported(case) & (number == case[NUMBER]) & same_state(state, expected)
}

// The next case of the file; one that is cut off differs.
fn run_case(rt: &impl Print, file: &mut impl Read, counts: Counts) -> io::Result<Option<Case>> {
    let mut case = [0u8; CASE_LENGTH];
    let n = test_support::read_full(file, &mut case);
    if n == 0 {
        return Ok(None);
    }
    if n == CASE_LENGTH && agrees(&case) {
        return Ok(Some(Case::Same));
    }
    if counts.tells(rt)? {
        println!(rt; " differs, first byte {:02x}", case[WINDOW])?;
    }
    Ok(Some(Case::Differs))
}

fn main(rt: HostRuntime) -> io::Result<()> {
    test_support::run_cases(
        &rt,
        b"steps.bin",
        |file, counts| run_case(&rt, file, counts),
    )
}
