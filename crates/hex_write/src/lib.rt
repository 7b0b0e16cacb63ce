// Writes an image as Intel HEX.
#![tactic(auto)]

ghost use Rattle.std.specs.Prelude.{◌≡◌, ◌+◌, ◌*◌, ◌%◌, ◌<◌, ◌≤◌, ◌++◌, length, drop};
ghost use Rattle.base.specs.Parts.{part_of};
ghost use Rattle.hex_write.specs.ImageText.{hex_digit, head_byte, head_sum, record_byte, record_line, end_line, addressable, HasRecord, image_text, text_length, written_outcome, write_answer, write_buffer};
ghost use Rattle.hex_write.specs.ReadBack.{ReadsBack};

use base::{InvalidArgument, Profile};

// The bytes of the text of each part's image: the records of 16 bytes, each a line of 44; the end line, of 12.
pub const TEXT_LENGTH_4K: usize = base::IMAGE_4K / 16 * 44 + 12;

pub const TEXT_LENGTH_2K: usize = base::IMAGE_2K / 16 * 44 + 12;

pub fn text_length(profile: Profile) -> usize
    ensures { result ≡ text_length (part_of profile).rom }
{
    match profile {
        Profile::Rom4K => TEXT_LENGTH_4K,
        Profile::Rom2K => TEXT_LENGTH_2K,
    }
}

// The upper-case digit of the low four bits. Public for the crates above.
pub fn hex_digit(x: u8) -> u8
    ensures { result ≡ hex_digit (x % 16) }
{
    let low = x % 16;
    if low < 10 {
        b'0' + low
    } else {
        b'A' - 10 + low
    }
}

// Byte j of record k before its sum: length, address, type, data.
#[tactic(auto, unfolding(crate::specs::ImageText::head_byte))]
fn head_byte(image: &[u8], k: usize, j: usize) -> u8
    requires { HasRecord image.now k × (j < 20) }
    ensures { result ≡ head_byte image.now k j }
{
    match j {
        0 => 16,
        1 => (k * 16 / 256) as u8,
        2 => (k * 16 % 256) as u8,
        3 => 0,
        _ => image[k * 16 + (j - 4)],
    }
}

// The sum modulo 256 of the first n bytes of record k.
#[tactic(auto, using(crate::specs::ImageTextLaws::head_sum_more), unfolding(crate::specs::ImageText::head_sum))]
fn head_sum(image: &[u8], k: usize, n: usize) -> u8
    requires { HasRecord image.now k × (n ≤ 20) }
    ensures { result ≡ head_sum image.now k n }
{
    let mut sum: u8 = 0;
    for j in 0..n {
        sum = sum.wrapping_add(head_byte(image, k, j));
    }
    sum
}

// Byte j of record k, its sum included.
#[tactic(auto, unfolding(crate::specs::ImageText::record_byte))]
fn record_byte(image: &[u8], k: usize, j: usize) -> u8
    requires { HasRecord image.now k × (j < 21) }
    ensures { result ≡ record_byte image.now k j }
{
    if j < 20 {
        head_byte(image, k, j)
    } else {
        head_sum(image, k, 20).wrapping_neg()
    }
}

// Writes record k at the front of a part of the buffer.
fn write_record(out: &mut [u8], image: &[u8], k: usize)
    requires { HasRecord image.now k × (44 ≤ length out.old) }
    ensures { out.new ≡ record_line image.now k ++ drop 44 out.old }
{
    out[0] = b':';
    // By index: `record_byte` tells each byte by its place.
    for j in 0..21 {
        let b = record_byte(image, k, j);
        out[j * 2 + 1] = hex_digit(b / 16);
        out[j * 2 + 2] = hex_digit(b);
    }
    out[43] = b'\n';
}

// Writes the end line at the front of a part of the buffer.
fn write_end(out: &mut [u8])
    requires { 12 ≤ length out.old }
    ensures { out.new ≡ end_line ++ drop 12 out.old }
{
    out[..12].copy_from_slice(b":00000001FF\n");
}

fn write_lines(image: &[u8], out: &mut [u8])
    requires { (length image.now ≤ addressable) × (text_length (length image.now) ≤ length out.old) }
    ensures { out.new ≡ image_text (length image.now) image.now ++ drop (text_length (length image.now)) out.old }
{
    let records = image.len() / 16;
    // By index: `record_line` tells a record by its number.
    for k in 0..records {
        write_record(&mut out[k * 44..], image, k);
    }
    write_end(&mut out[records * 44..]);
}

// Writes the text of a part's image at the front of a buffer, and answers how many bytes were written. It reads back to the image. A refusal leaves the
// buffer as it was.
#[tactic(auto, unfolding(crate::specs::ImageText::write_answer, crate::specs::ImageText::write_buffer))]
pub fn write_image(profile: Profile, image: &[u8], out: &mut [u8]) -> Result<usize, InvalidArgument>
    ensures result_value { written_outcome result ≡ write_answer (part_of profile).rom (length image.now) (length out.old) }
    ensures out_after { out.new ≡ write_buffer (part_of profile).rom image.now out.old }
    ensures reads_back { ReadsBack (part_of profile).rom (written_outcome result) image.now out.new }
{
    if !base::is_image_of(profile, image.len()) {
        return Err(InvalidArgument);
    }
    let size = text_length(profile);
    if out.len() < size {
        return Err(InvalidArgument);
    }
    write_lines(image, out);
    Ok(size)
}
