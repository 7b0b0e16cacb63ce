// The two address spaces of the chip, the registers that code names, an address with an offset, the parts of the family, the lengths of image,
// certificate and record, the greatest cost of an interrupt entry, and a slice's byte. A register address never stands where a program address is
// meant.
#![tactic(auto)]

ghost use Rattle.std.specs.Prelude.{◌≡◌, ◌+◌, ◌*◌, ◌≤◌, ◌==◌, slice_index};
ghost use Rattle.base.specs.Addresses.{displaced};
ghost use Rattle.base.specs.Lengths.{largest_rom, is_certificate_length, is_entry_cost};
ghost use Rattle.base.specs.Parts.{part_of, is_image_length};

use std::error::Error;
use std::fmt;

// An address of the register file, 00H to FFH.
#[derive(Clone, Copy, Debug, PartialEq, Eq)]
pub struct RegAddr(pub u8);

// An address of program memory.
#[derive(Clone, Copy, Debug, PartialEq, Eq)]
pub struct RomAddr(pub u16);

// The addresses of FLAGS, SP and SYM (interrupt enable).
pub const FLAGS: u8 = 0xD5;

pub const SP: u8 = 0xD9;

pub const SYM: u8 = 0xDF;

// The places of FLAGS, SP, SYM and STOPCON in the register file.
pub const FLAGS_INDEX: usize = FLAGS as usize;

pub const SP_INDEX: usize = SP as usize;

pub const SYM_INDEX: usize = SYM as usize;

pub const STOPCON_INDEX: usize = 0xF4;

// A part of the family, by the bytes of its ROM: the S3F9454 has 4K, the S3C9444 2K.
#[derive(Clone, Copy, Debug, PartialEq, Eq)]
pub enum Profile {
    Rom4K,
    Rom2K,
}

// The bytes of an image of each part.
pub const IMAGE_4K: usize = 4096;

pub const IMAGE_2K: usize = 2048;

// The addresses of the largest ROM: the certificate has an entry, and a coverage map a bit, for each.
pub const LARGEST_ROM: u16 = IMAGE_4K as u16;

// The bytes of a certificate without the cycles of an interrupt entry, which are then 0, and with them.
pub const SHORT_CERTIFICATE_LENGTH: usize = 58498;

pub const LONG_CERTIFICATE_LENGTH: usize = 58499;

// The greatest cycles of an interrupt entry.
pub const GREATEST_ENTRY_COST: u8 = 63;

// The bytes of a schedule record.
pub const RECORD_LENGTH: usize = 8;

// The bytes of a part's ROM; the first address behind it.
pub fn rom_length(profile: Profile) -> u16
    ensures { result ≡ (part_of profile).rom }
{
    match profile {
        Profile::Rom4K => IMAGE_4K as u16,
        Profile::Rom2K => IMAGE_2K as u16,
    }
}

// The bytes of a part's image, at most those of the largest.
pub fn image_length(profile: Profile) -> usize
    ensures length { result ≡ (part_of profile).rom }
    ensures fits { result ≤ largest_rom }
{
    rom_length(profile) as usize
}

// Whether a part's A/D inputs from 3 on are grounded.
pub fn grounds(profile: Profile) -> bool
    ensures { result ≡ (part_of profile).grounds }
{
    match profile {
        Profile::Rom4K => false,
        Profile::Rom2K => true,
    }
}

// Whether a slice of n bytes is an image of a part.
pub fn is_image_of(profile: Profile, n: usize) -> bool
    ensures { result ≡ (n == (part_of profile).rom) }
{
    n == image_length(profile)
}

// Whether a slice of n bytes is an image of some part.
pub fn is_image_length(n: usize) -> bool
    ensures { result ≡ is_image_length n }
{
    (n == IMAGE_4K) | (n == IMAGE_2K)
}

// Whether a slice of n bytes is a certificate.
pub fn is_certificate_length(n: usize) -> bool
    ensures { result ≡ is_certificate_length n }
{
    (n == SHORT_CERTIFICATE_LENGTH) | (n == LONG_CERTIFICATE_LENGTH)
}

// Whether an interrupt entry may take n cycles.
pub fn is_entry_cost(n: u8) -> bool
    ensures { result ≡ is_entry_cost n }
{
    n <= GREATEST_ENTRY_COST
}

// Refusal 7: a slice of wrong or too short length, or a number that a call does not take.
#[derive(Clone, Copy, Debug, PartialEq, Eq)]
pub struct InvalidArgument;

impl fmt::Display for InvalidArgument {
    fn fmt<W: fmt::Write>(&self, f: &mut fmt::Formatter<W>) -> fmt::Result {
        f.write_str("a slice of wrong length, or a number that is not taken")
    }
}

impl Error for InvalidArgument {}

// The number of a refusal in the table of answers.
impl From<InvalidArgument> for u8 {
    ghost from_gives = { λ _ number. number ≡ 7 };

    fn from(_refusal: InvalidArgument) -> u8 {
        7
    }
}

// Two bytes as a word, high half first.
pub fn word(high: u8, low: u8) -> u16
    ensures { result ≡ high * 256 + low }
{
    u16::from_be_bytes([high, low])
}

// The byte at a position, 0 past the end.
pub fn byte_at(s: &[u8], at: usize) -> u8
    ensures { result ≡ slice_index s.now at }
{
    if at < s.len() { s[at] } else { 0 }
}

// The word with an offset of -128 to 127.
pub fn displaced(w: u16, x: u8) -> u16
    ensures { result ≡ displaced w x }
{
    if x < 128 {
        return std::num::wrapping_add_u16(w, x as u16);
    }
    std::num::wrapping_add_u16(w, 65280 + x as u16)
}
