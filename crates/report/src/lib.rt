// The text that `bridgecheck` prints of a verdict.
#![tactic(auto)]

ghost use Rattle.std.specs.Prelude.{◌≡◌, ◌+◌, ◌<◌, ◌≤◌, [], ◌∷◌, length};
ghost use Rattle.entries.specs.Fields.{said_by};
ghost use Rattle.hex_write.specs.ImageText.{written_outcome};
ghost use Rattle.report.specs.Report.{decimal, number_text, address_text, row_text, routine_text, accepted_text, refused_text, longest_report, report_answer, report_buffer};
ghost use Rattle.report.specs.Stored.{Stored};

use base::{InvalidArgument, RomAddr};
use certificate::Verdict;
use entries::Certificate;
use hex_write::hex_digit;

// The longest text: `accepted` and its LF, and 63 rows of at most 18 bytes.
pub const REPORT_LENGTH: usize = 1143;

// Each of the writers below stores its text from a position on and answers the position behind it. Buffer and position are no struct: each writer would
// still have to say what it leaves behind its text, so its clause would be as long. Digits are written by hand: of what `write!` writes no clause
// tells, and `report_buffer` says each byte.

fn write_byte(out: &mut [u8], at: usize, byte: u8) -> usize
    requires { at < length out.old }
    ensures { Stored (byte ∷ []) at result out.old out.new }
{
    out[at] = byte;
    at + 1
}

fn write_word(out: &mut [u8], at: usize, word: &[u8]) -> usize
    requires { at + length word.now ≤ length out.old }
    ensures { Stored word.now at result out.old out.new }
{
    let end = at + word.len();
    out[at..end].copy_from_slice(word);
    end
}

// A number in at most k digits.
#[tactic(auto, using(crate::specs::ReportLaws::decimal_last, crate::specs::ReportLaws::decimal_length), unfolding(crate::specs::Report::decimal))]
fn write_decimal(out: &mut [u8], at: usize, k: u8, x: u16) -> usize
    requires { at + k ≤ length out.old }
    ensures { Stored (decimal k x) at result out.old out.new }
{
    if k == 0 {
        return at;
    }
    if x < 10 {
        return write_byte(out, at, x as u8 + b'0');
    }
    let last = write_decimal(out, at, k - 1, x / 10);
    write_byte(out, last, (x % 10) as u8 + b'0')
}

// A number, and the character behind it.
#[tactic(auto, using(crate::specs::ReportLaws::decimal_length))]
fn write_number(out: &mut [u8], at: usize, k: u8, x: u16, end: u8) -> usize
    requires { at + k < length out.old }
    ensures { Stored (number_text k x end) at result out.old out.new }
{
    let last = write_decimal(out, at, k, x);
    write_byte(out, last, end)
}

// An address, and the character behind it.
fn write_address(out: &mut [u8], at: usize, x: u16, end: u8) -> usize
    requires { at + 5 ≤ length out.old }
    ensures { Stored (address_text x end) at result out.old out.new }
{
    let text = [
        hex_digit((x / 4096) as u8),
        hex_digit((x / 256 % 16) as u8),
        hex_digit((x / 16 % 16) as u8),
        hex_digit((x % 16) as u8),
        end,
    ];
    write_word(out, at, &text)
}

// Routine, start, need, bound.
#[tactic(auto, using(crate::specs::ReportLaws::number_length))]
fn write_row(out: &mut [u8], at: usize, n: u8, cert: &Certificate) -> usize
    requires { at + 18 ≤ length out.old }
    ensures { Stored (row_text (said_by cert.now) n) at result out.old out.new }
{
    let row = cert.routine(n);
    let a = write_number(out, at, 2, u16::from(n), b' ');
    let b = write_address(out, a, row.start.0, b' ');
    let c = write_number(out, b, 3, u16::from(row.need), b' ');
    write_number(out, c, 5, row.bound, b'\n')
}

// Nothing for a routine that is not used.
fn write_routine(out: &mut [u8], at: usize, n: u8, cert: &Certificate) -> usize
    requires { at + 18 ≤ length out.old }
    ensures { Stored (routine_text (said_by cert.now) n) at result out.old out.new }
{
    if rule20::used(cert, n) {
        return write_row(out, at, n, cert);
    }
    at
}

// `accepted`, and a row for each used routine.
#[tactic(auto, using(crate::specs::ReportLaws::rows_length), unfolding(crate::specs::Report::rows_text))]
fn write_accepted(out: &mut [u8], cert: &Certificate) -> usize
    requires { longest_report ≤ length out.old }
    ensures { Stored (accepted_text (said_by cert.now)) 0 result out.old out.new }
{
    let mut at = write_word(out, 0, b"accepted\n");
    for n in 1..64 {
        at = write_routine(out, at, n, cert);
    }
    at
}

// `refused`, number and address.
#[tactic(auto, using(crate::specs::ReportLaws::number_length))]
fn write_refused(out: &mut [u8], number: u8, address: RomAddr) -> usize
    requires { longest_report ≤ length out.old }
    ensures { Stored (refused_text number address.0) 0 result out.old out.new }
{
    let a = write_word(out, 0, b"refused ");
    let b = write_number(out, a, 3, u16::from(number), b' ');
    write_address(out, b, address.0, b'\n')
}

// Writes the text of a verdict at the front of a buffer, and answers how many bytes were written. A refusal leaves the buffer as it was.
#[tactic(auto, using(crate::specs::ReportLaws::report_stored), unfolding(crate::specs::Report::report_answer, crate::specs::Report::report_buffer))]
pub fn write_report(verdict: Verdict, cert: &[u8], out: &mut [u8]) -> Result<usize, InvalidArgument>
    ensures result_value { written_outcome result ≡ report_answer verdict cert.now (length out.old) }
    ensures out_after { out.new ≡ report_buffer verdict cert.now out.old }
{
    if !base::is_certificate_length(cert.len()) {
        return Err(InvalidArgument);
    }
    if out.len() < REPORT_LENGTH {
        return Err(InvalidArgument);
    }
    match verdict {
        Verdict::Accepted => Ok(write_accepted(out, &Certificate { bytes: cert })),
        Verdict::Refused(number, address) => Ok(write_refused(out, number, address)),
    }
}
