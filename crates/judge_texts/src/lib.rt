// The judgement of an image text and a certificate text.
#![tactic(auto)]

ghost use Rattle.std.specs.Prelude.{◌≡◌, length};
ghost use Rattle.hex_write.specs.ImageText.{written_outcome};
ghost use Rattle.judge.specs.Judgement.{printed_answer, printed_buffer};

use base::{InvalidArgument, Profile};

// Reads an image text and a certificate text, writes what is printed of them at the front of a buffer, and answers how many bytes were written. A refusal,
// by 7, leaves the buffer as it was.
pub fn judge_texts(
    image: &[u8],
    certificate: &[u8],
    out: &mut [u8],
) -> Result<usize, InvalidArgument>
    ensures result_value { written_outcome result ≡ printed_answer image.now certificate.now (length out.old) }
    ensures out_after { out.new ≡ printed_buffer image.now certificate.now out.old }
{
    let mut rom = judge::blank_image();
    let mut cert = judge::blank_certificate();
    let image_read = hex_text::read_text(image, &mut rom);
    let certificate_read = hex_text::read_text(certificate, &mut cert);
    let verdict = checker::check(Profile::Rom4K, &rom, &cert);
    let image_number = judge::numbered(image_read);
    let certificate_number = judge::numbered(certificate_read);
    judge::write_judgement(image_number, certificate_number, verdict, &cert, out)
}
