// Runs the checker on the cases of the file checks.bin, and prints what differs. A case is a byte for the profile and one for the
// certificate's length; edits of an image of FFH, and of a certificate of 00H; and the answer that it expects.
#![tactic(auto)]

ghost use Rattle.std.specs.Prelude.{◌≤◌, IfSome};
ghost use Rattle.base.specs.Lengths.{long_certificate_length};

use base::{IMAGE_4K, LONG_CERTIFICATE_LENGTH, Profile, SHORT_CERTIFICATE_LENGTH};
use certificate::Verdict;
use std::io::Read;
use std::{fmt, io};
use test_support::{Case, Counts, read_edits};

// The numbers of a case's profile and of its certificate's length; numbers, since a difference prints those that the checker does not have, too.
#[derive(Clone, Copy)]
struct Kind {
    profile: u8,
    length: u8,
}

// A number, 0 for accepted, and an address, as a case of the file gives them and a difference prints them.
#[derive(Clone, Copy, PartialEq, Eq)]
struct Answer {
    number: u8,
    address: u16,
}

fn answer_of(v: Verdict) -> Answer {
    match v {
        Verdict::Accepted => Answer {
            number: 0,
            address: 0,
        },
        Verdict::Refused(n, a) => Answer {
            number: n,
            address: a.0,
        },
    }
}

// The answer that a case expects: number 1 and address 2.
fn expected_of(three: &[u8; 3]) -> Answer {
    Answer {
        number: three[0],
        address: base::word(three[1], three[2]),
    }
}

impl fmt::Display for Answer {
    fn fmt<W: fmt::Write>(&self, f: &mut fmt::Formatter<W>) -> fmt::Result {
        write!(f, "{} at {}", self.number, self.address)
    }
}

impl Kind {
    // The part, if the checker has it.
    fn profile(self) -> Option<Profile> {
        match self.profile {
            0 => Some(Profile::Rom4K),
            1 => Some(Profile::Rom2K),
            _ => None,
        }
    }

    // The bytes of the certificate, if the checker takes that many.
    fn certificate_length(self) -> Option<usize>
        ensures { IfSome result (λ n. n ≤ long_certificate_length) }
    {
        match self.length {
            0 => Some(SHORT_CERTIFICATE_LENGTH),
            1 => Some(LONG_CERTIFICATE_LENGTH),
            _ => None,
        }
    }
}

fn tell(rt: &impl Print, kind: Kind, expected: Answer, given: Answer) -> io::Result<()> {
    let Kind { profile, length } = kind;
    println!(rt;
        " of profile {profile}, certificate length {length}: expected {expected}, given {given}"
    )
}

// The verdict on a case, whose image is the first bytes of a buffer.
fn verdict_of(profile: Profile, buffer: &[u8; IMAGE_4K], cert: &[u8]) -> Verdict {
    checker::check(profile, &buffer[..base::image_length(profile)], cert)
}

// Reads the rest of a case, and compares; one that is cut off differs.
fn compare(rt: &impl Print, file: &mut impl Read, kind: Kind, counts: Counts) -> io::Result<Case> {
    let mut image = [255u8; IMAGE_4K];
    let mut cert = [0u8; LONG_CERTIFICATE_LENGTH];
    let mut three = [0u8; 3];
    let edited = read_edits(file, &mut image) & read_edits(file, &mut cert);
    let whole = (test_support::read_full(file, &mut three) == 3) & edited;
    let expected = expected_of(&three);
    let is_supported = kind.profile().is_some() && kind.certificate_length().is_some();
    let profile = kind.profile().unwrap_or(Profile::Rom2K);
    let length = kind.certificate_length().unwrap_or(LONG_CERTIFICATE_LENGTH);
    let given = answer_of(verdict_of(profile, &image, &cert[..length]));
    if whole && is_supported && expected == given {
        return Ok(Case::Same);
    }
    if counts.tells(rt)? {
        tell(rt, kind, expected, given)?;
    }
    Ok(Case::Differs)
}

fn run_case(rt: &impl Print, file: &mut impl Read, counts: Counts) -> io::Result<Option<Case>> {
    let mut two = [0u8; 2];
    if test_support::read_full(file, &mut two) == 0 {
        return Ok(None);
    }
    let [profile, length] = two;
    Ok(Some(compare(rt, file, Kind { profile, length }, counts)?))
}

fn main(rt: HostRuntime) -> io::Result<()> {
    test_support::run_cases(
        &rt,
        b"checks.bin",
        |file, counts| run_case(&rt, file, counts),
    )
}
