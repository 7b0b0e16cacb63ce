// Runs of the machine, to be timed: `machine_bench WHAT COUNT SEED`. The first argument is the row, 0 for all, the second is thousands of records.
// Every run's schedule is the first 1,000 records that the seed gives, over and over, so that making them takes no time of it.
// `bench/run` times it and prints a table; the gate's run is short and compares what each program leaves.
#![tactic(auto)]

use base::{IMAGE_4K, Profile};
use bench_programs::{Arguments, SCHEDULE, make_part, program, schedule, tell};
use semantics::{Configuration, State};
use std::io;

// The program from reset for `parts` parts.
fn run_parts(image: &[u8; IMAGE_4K], records: &[u8; SCHEDULE], parts: u64) -> State {
    let configuration = Configuration {
        profile: Profile::Rom4K,
        entry_cost: 0,
    };
    let mut state = machine::reset();
    for _ in 0..parts {
        let r = machine::run(configuration, image, state, records);
        state = r.state;
    }
    state
}

// The program of a row from reset. A function of its own: put into its caller, a step takes 3 in a hundred more instructions.
#[inline(never)]
fn work(rt: &impl Print, what: u64, count: u64, seed: u32) -> io::Result<()> {
    tell(rt, what, run_parts(&program(what), &schedule(seed), count))
}

// Makes `parts` parts, each from the state behind the one before, and answers the last state.
fn make_parts(seed: u32, parts: u64) -> u32 {
    let mut records = [0u8; SCHEDULE];
    let mut state = seed;
    for _ in 0..parts {
        state = make_part(state, &mut records);
    }
    state
}

// Rows 1 to 13 run programs, 14 makes records. As in `cover_bench`: with a closure for a row the two would be no shorter.
fn bench(rt: &impl Print, Arguments { what, count, seed }: Arguments) -> io::Result<()> {
    let rows = test_support::rows_of(what, 14);
    for row in rows.first..=rows.last {
        match row {
            14 => println!(rt; "{}", make_parts(seed, count))?,
            _ => work(rt, row, count, seed)?,
        }
    }
    Ok(())
}

fn main(rt: HostRuntime) -> io::Result<()> {
    match bench_programs::read_arguments(&rt)? {
        Some(arguments) => bench(&rt, arguments),
        None => Ok(()),
    }
}
