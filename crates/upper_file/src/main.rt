// Copies Intel HEX from standard input to standard output, its lines in upper case. The first line that is refused is told of on standard error, by line
// and number; it and what follows are copied as they are.
#![tactic(auto)]

ghost use Rattle.std.specs.Prelude.{◌≤◌, length};

use std::io::Read;

// Reads up to an LF, the end of the input or that of the buffer, and answers how many bytes it read.
fn read_line(input: &mut impl Read, line: &mut [u8]) -> usize
    ensures { result ≤ length line.new }
{
    // By index: the place is the answer.
    for n in 0..line.len() {
        let mut one = [0u8; 1];
        if reading::read_full(input, &mut one) == 0 {
            return n;
        }
        line[n] = one[0];
        if line[n] == b'\n' {
            return n + 1;
        }
    }
    line.len()
}

// Where standard error cannot be written, nothing is told, and the copy goes on.
fn tell(rt: &impl Eprint, at: u64, number: u8) {
    let _ = eprintln!(rt; "line {at} refused by {number}");
}

// Converts a line, and answers whether it could. A refused one stays as it is, and is told of.
fn convert(rt: &impl Eprint, line: &mut [u8], at: u64) -> bool {
    match hex_upper::upper_line(line) {
        Ok(()) => true,
        Err(fault) => {
            tell(rt, at, hex_line::number(fault));
            false
        }
    }
}

// The buffer is longer than any line that is not refused. Where standard output cannot be written, nothing follows.
fn main(rt: HostRuntime) {
    let mut input = rt.stdin();
    let mut converting = true;
    for at in 1..u64::MAX {
        let mut buffer = [0u8; 4096];
        let n = read_line(&mut input, &mut buffer);
        if n == 0 {
            return;
        }
        let line = &mut buffer[..n];
        converting = converting && convert(&rt, line, at);
        if rt.write_all(line).is_err() {
            let _ = eprintln!(rt; "standard output cannot be written");
            return;
        }
    }
}
