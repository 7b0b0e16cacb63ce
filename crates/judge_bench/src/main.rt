// Checks of certificates and HEX texts, to be timed: `judge_bench WHAT`. The argument is one digit, 0 for everything. `bench/run` times it and prints a
// table; the gate compares what is printed.
#![tactic(auto)]

use std::io;
use std::rt::Env;

mod certificates;
mod texts;

// 1 to 4 are certificates, 5 to 7 HEX texts. A function of its own, as in `machine_bench`.
#[inline(never)]
fn work(rt: &impl Print, what: u64) -> io::Result<()> {
    print!(rt; "{what}")?;
    match what {
        0..=4 => certificates::work(rt, what),
        _ => texts::work(rt, what),
    }
}

// The first character of the argument, as a number, 0 where there is none.
fn argument(rt: &impl Env) -> u64 {
    let mut text = [0u8; 1];
    let _ = rt.arg(1, &mut text);
    test_support::number(&text)
}

fn main(rt: HostRuntime) -> io::Result<()> {
    let rows = test_support::rows_of(argument(&rt), 7);
    for what in rows.first..=rows.last {
        work(&rt, what)?;
    }
    Ok(())
}
