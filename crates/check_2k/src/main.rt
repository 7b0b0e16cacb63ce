// Judges `image.hex` with `cert.hex` for the 2K part. It prints the answer as `bridgecheck` does for the 4K part, and tells on standard error what is wrong
// in a file.
#![tactic(auto)]

use base::{IMAGE_2K, Profile};
use report::REPORT_LENGTH;
use std::rt::Files;

// Prints the first n bytes of a report. The program has no status: what cannot be written is not told.
fn print_front(rt: &impl Print, out: &[u8], n: usize) {
    if let Some(front) = out.get(..n) {
        let _ = rt.write_all(front);
    }
}

fn main(rt: HostRuntime) {
    // FFH stays where the file has no record.
    let mut image = [0xFFu8; IMAGE_2K];
    let mut cert = judge::blank_certificate();
    let mut errors = rt.stderr();
    let image_read = files::read_file(&rt, b"image.hex", &mut image, &mut errors);
    let cert_read = files::read_file(&rt, b"cert.hex", &mut cert, &mut errors);
    let verdict = checker::check(Profile::Rom2K, &image, &cert);
    let mut out = [0u8; REPORT_LENGTH];
    let image_number = judge::numbered(image_read);
    let cert_number = judge::numbered(cert_read);
    if let Ok(n) = judge::write_judgement(image_number, cert_number, verdict, &cert, &mut out) {
        print_front(&rt, &out, n);
    }
}
