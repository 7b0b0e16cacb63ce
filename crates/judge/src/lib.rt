// The judgement of an image file and a certificate file that were read, and the buffers that they are read into.
#![tactic(auto)]

ghost use Rattle.std.specs.Prelude.{◌≡◌, length};
ghost use Rattle.hex_text.specs.Text.{text_outcome};
ghost use Rattle.hex_write.specs.ImageText.{written_outcome};
ghost use Rattle.report.specs.Report.{report_answer, report_buffer};
ghost use Rattle.judge.specs.Judgement.{blank_image, blank_certificate, judgement, number_outcome};

use base::{InvalidArgument, RomAddr};
use certificate::Verdict;
use hex_line::Fault;

// The buffers before the files are read. A file without the byte at E482H leaves 0 there.
#[tactic(auto, unfolding(crate::specs::Judgement::filled))]
pub fn blank_image() -> [u8; base::IMAGE_4K]
    ensures { result ≡ blank_image }
{
    [0xFF; base::IMAGE_4K]
}

#[tactic(auto, unfolding(crate::specs::Judgement::filled))]
pub fn blank_certificate() -> [u8; base::LONG_CERTIFICATE_LENGTH]
    ensures { result ≡ blank_certificate }
{
    [0; base::LONG_CERTIFICATE_LENGTH]
}

// What reading a file answered, by the refusal's number.
pub fn numbered(answer: Result<(), Fault>) -> Result<(), u8>
    ensures { number_outcome result ≡ text_outcome answer }
{
    match answer {
        Ok(()) => Ok(()),
        Err(fault) => Err(u8::from(fault)),
    }
}

// A refused image file decides, then a refused certificate file, then the checker's verdict.
// Numbers, and no faults, which would ask more of a caller: `judgement` tells a file that is refused by any number.
pub fn judge(image: Result<(), u8>, certificate: Result<(), u8>, verdict: Verdict) -> Verdict
    ensures { result ≡ judgement (number_outcome image) (number_outcome certificate) verdict }
{
    match image.and(certificate) {
        Ok(()) => verdict,
        Err(number) => Verdict::Refused(number, RomAddr(0)),
    }
}

// Writes the text of the judgement at the front of a buffer, and answers how many bytes were written. A refusal leaves the buffer as it was.
pub fn write_judgement(
    image: Result<(), u8>,
    certificate: Result<(), u8>,
    verdict: Verdict,
    cert: &[u8],
    out: &mut [u8],
) -> Result<usize, InvalidArgument>
    ensures result_value { written_outcome result ≡ report_answer (judgement (number_outcome image) (number_outcome certificate) verdict) cert.now (length out.old) }
    ensures out_after { out.new ≡ report_buffer (judgement (number_outcome image) (number_outcome certificate) verdict) cert.now out.old }
{
    report::write_report(judge(image, certificate, verdict), cert, out)
}
