// Converts an old line of Intel HEX, which may have small letters, into its upper-case line.
#![tactic(auto)]

ghost use Rattle.std.specs.Prelude.{◌≡◌, map, ◌≤◌, length};
ghost use Rattle.hex_line.specs.Line.{checked_outcome};
ghost use Rattle.hex_upper.specs.Former.{former_check};
ghost use Rattle.hex_upper.specs.Upper.{upper_of, upper_outcome, upper_answer, upper_line};

use hex_line::{Fault, LONGEST_BODY};

// The upper-case letter of a to f; any other character as it is.
fn to_upper(c: u8) -> u8
    ensures { result ≡ upper_of c }
{
    match c {
        b'a'..=b'f' => c - 32,
        _ => c,
    }
}

// Makes the letters a to f upper-case.
fn make_upper(text: &mut [u8])
    ensures { text.new ≡ map upper_of text.old }
{
    for c in text.iter_mut() {
        *c = to_upper(*c);
    }
}

// 1 to 3 as the former reader had them, of a line without its end: those that the reader has for the upper-case line, which is made in the copy.
#[tactic(auto, using(crate::proofs::UpperLaws::check_upper))]
fn check_upper(body: &[u8], copy: &mut [u8]) -> Result<(), Fault>
    requires { length body.now ≤ length copy.old }
    ensures { checked_outcome result ≡ former_check body.now }
{
    let upper = &mut copy[..body.len()];
    upper.copy_from_slice(body);
    make_upper(upper);
    hex_line::check_body(upper)
}

// The same of a line with or without its end. One with more characters than any line has is 1.
fn former_check(line: &[u8]) -> Result<(), Fault>
    ensures { checked_outcome result ≡ upper_answer line.now }
{
    let n = hex_line::body_length(line);
    if n > LONGEST_BODY {
        return Err(Fault::Malformed);
    }
    check_upper(&line[..n], &mut [0; LONGEST_BODY])
}

// Converts an old line, with or without its LF or CR LF, into its upper-case line, in place. A line that breaks 1, 2 or 3 as the former reader had them
// is refused and left as it was.
#[tactic(auto, unfolding(crate::specs::Upper::upper_line))]
pub fn upper_line(line: &mut [u8]) -> Result<(), Fault>
    ensures result_value { upper_outcome result ≡ upper_answer line.old }
    ensures line_after { line.new ≡ upper_line line.old }
{
    former_check(line)?;
    make_upper(line);
    Ok(())
}
