// Makes schedules by Marsaglia's 32-bit xorshift, so that a seed and a number of records stand for a whole schedule.
#![tactic(auto)]

ghost use Rattle.std.specs.Prelude.{◌≡◌, ◌++◌, ◌/◌, ◌%◌, ◌≤◌, length, drop};
ghost use Rattle.base.specs.Lengths.{record_length};
ghost use Rattle.xorshift.specs.Xorshift.{round, four_bytes, next_state, record_from, state_after, records_from, filled_outcome, taken, fill_answer, fill_buffer};

use base::{InvalidArgument, RECORD_LENGTH};

// The next state: shifts 13 left, 17 right, 5 left.
#[tactic(auto, unfolding(crate::specs::Xorshift::round))]
fn round(y: u32) -> u32
    ensures { result ≡ round y }
{
    let a = y ^ (y << 13);
    let b = a ^ (a >> 17);
    b ^ (b << 5)
}

// Writes the four bytes of a state at the front of a part of the buffer, the lowest first.
fn write_state(state: u32, out: &mut [u8])
    requires { 4 ≤ length out.old }
    ensures { out.new ≡ four_bytes state ++ drop 4 out.old }
{
    out[..4].copy_from_slice(&state.to_le_bytes());
}

// Writes the record behind a state at the front of a part of the buffer, and answers the state behind it.
fn write_record(state: u32, out: &mut [u8]) -> u32
    requires { record_length ≤ length out.old }
    ensures value { result ≡ next_state state }
    ensures out_after { out.new ≡ record_from state ++ drop record_length out.old }
{
    let first = round(state);
    let second = round(first);
    write_state(first, out);
    out[0] &= 0x1F;
    write_state(second, &mut out[4..]);
    second
}

// Fills a buffer with records, and answers the state behind them.
fn write_records(seed: u32, out: &mut [u8]) -> u32
    requires { length out.old % record_length ≡ 0 }
    ensures value { result ≡ state_after (length out.old / record_length) seed }
    ensures out_after { out.new ≡ records_from (length out.old / record_length) seed }
{
    let mut state = seed;
    // No `chunks_exact_mut`: behind its borrow a proof knows the buffer's length and not its bytes.
    for k in 0..out.len() / RECORD_LENGTH {
        state = write_record(state, &mut out[k * RECORD_LENGTH..]);
    }
    state
}

// Whether a seed is taken with a buffer of this length: not 0, and room for whole records.
fn taken(seed: u32, length: usize) -> bool
    ensures { result ≡ taken seed length }
{
    seed != 0 && length % RECORD_LENGTH == 0
}

// Fills a lent buffer with the records that a seed gives, and answers the state behind them, which is the seed of the records that follow.
// A seed of 0 and a length that is no multiple of 8 are refused by 7, and the buffer is as it was.
#[tactic(auto, unfolding(crate::specs::Xorshift::fill_answer, crate::specs::Xorshift::fill_buffer))]
pub fn fill(seed: u32, out: &mut [u8]) -> Result<u32, InvalidArgument>
    ensures result_value { filled_outcome result ≡ fill_answer seed (length out.old) }
    ensures out_after { out.new ≡ fill_buffer seed out.old }
{
    if !taken(seed, out.len()) {
        return Err(InvalidArgument);
    }
    Ok(write_records(seed, out))
}
