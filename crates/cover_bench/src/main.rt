// Runs with a coverage map, and summaries, to be timed: `cover_bench WHAT COUNT SEED`. Rows 1 to 3 are those of `machine_bench` with a map, COUNT thousands of
// records; row 4 is COUNT summaries. A program of its own, since `run` takes other instructions in a program that also has `run_covered`.
#![tactic(auto)]

use base::{IMAGE_4K, InvalidArgument, LONG_CERTIFICATE_LENGTH, Profile, RomAddr};
use bench_programs::{Arguments, SCHEDULE, program, schedule, tell};
use coverage::{Map, WORDS};
use semantics::{Configuration, State};
use std::io;

// The program from reset for `parts` parts, with one map.
fn cover_parts(
    image: &[u8; IMAGE_4K],
    records: &[u8; SCHEDULE],
    map: &mut Map,
    parts: u64,
) -> State {
    let configuration = Configuration {
        profile: Profile::Rom4K,
        entry_cost: 0,
    };
    let mut state = machine::reset();
    for _ in 0..parts {
        let r = machine::run_covered(configuration, image, state, records, map);
        state = r.state;
    }
    state
}

// The program of a row, and how many addresses it has marked.
// A function of its own, as `work` in `machine_bench`.
#[inline(never)]
fn cover(rt: &impl Print, what: u64, count: u64, seed: u32) -> io::Result<()> {
    let mut map: Map = [0; WORDS];
    tell(
        rt,
        what,
        cover_parts(&program(what), &schedule(seed), &mut map, count),
    )?;
    println!(rt; "{} marked", coverage::count(&map))
}

// The address of an answer, 0 where it has none.
fn address_of(lowest: Result<Option<RomAddr>, InvalidArgument>) -> u16 {
    match lowest {
        Ok(Some(a)) => a.0,
        _ => 0,
    }
}

// The marks and the lowest unmarked start, added up.
fn summary(cert: &[u8], map: &Map) -> u64 {
    u64::from(coverage::count(map)) + u64::from(address_of(uncovered::lowest_unmarked(cert, map)))
}

// Summaries of a certificate whose every address is a start. All words of the map but the last are full; the last is another each time.
fn summaries(count: u64) -> u64 {
    let cert = [1u8; LONG_CERTIFICATE_LENGTH];
    let mut map: Map = [u64::MAX; WORDS];
    let mut sum = 0u64;
    for done in 0..count {
        map[WORDS - 1] = count - done;
        sum = sum.wrapping_add(summary(&cert, &map));
    }
    sum
}

// As in `machine_bench`.
fn bench(rt: &impl Print, Arguments { what, count, seed }: Arguments) -> io::Result<()> {
    let rows = test_support::rows_of(what, 4);
    for row in rows.first..=rows.last {
        match row {
            4 => println!(rt; "{}", summaries(count))?,
            _ => cover(rt, row, count, seed)?,
        }
    }
    Ok(())
}

fn main(rt: HostRuntime) -> io::Result<()> {
    match bench_programs::read_arguments(&rt)? {
        Some(arguments) => bench(&rt, arguments),
        None => Ok(()),
    }
}
