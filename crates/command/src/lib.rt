// The program `bridgecheck`, for any two writers.
#![tactic(auto)]

use report::REPORT_LENGTH;
use std::env::FillError;
use std::io;
use std::io::Write;
use std::rt::{Env, Files};

// Prints the judgement of image.hex and cert.hex in the folder that the program runs in.
fn judge_folder(
    rt: &impl Files,
    output: &mut impl Write,
    errors: &mut impl Write,
) -> io::Result<()> {
    let mut out = [0u8; REPORT_LENGTH];
    match files::judge_files(rt, b"image.hex", b"cert.hex", &mut out, errors) {
        Ok(n) => output.write_all(&out[..n]),
        Err(_) => Ok(()),
    }
}

// Whether the program was started with an argument.
fn has_argument(rt: &impl Env) -> bool {
    let mut first = [0u8; 1];
    !matches!(rt.arg(1, &mut first), Err(FillError::NotPresent))
}

// Prints the judgement on the first writer, and on the second what is wrong in a file. With arguments it tells the usage and judges nothing. It fails where
// the judgement or the usage cannot be written.
pub fn bridgecheck(
    rt: &(impl Files + Env),
    output: &mut impl Write,
    errors: &mut impl Write,
) -> io::Result<()> {
    if has_argument(rt) {
        writeln!(
            errors,
            "usage: bridgecheck, without arguments: it reads image.hex and cert.hex in the folder that it runs in"
        )
    } else {
        judge_folder(rt, output, errors)
    }
}
