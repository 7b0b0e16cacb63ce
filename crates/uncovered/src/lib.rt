// The lowest instruction start of a certificate that a coverage map has not marked.
#![tactic(auto)]

ghost use Rattle.std.specs.Prelude.{◌≡◌, not, ℕ, ◌+◌, ◌*◌, ◌<◌};
ghost use Rattle.base.specs.Addresses.{rom_addr};
ghost use Rattle.certificate.specs.Layout.{certificate_of};
ghost use Rattle.coverage.specs.Map.{bit_of};
ghost use Rattle.uncovered.specs.Lowest.{is_start, lowest_of, told};

use base::{InvalidArgument, RomAddr, byte_at};
use coverage::{Map, WORDS};

// The bits of a word of a map.
const WORD_BITS: u32 = coverage::WORD_BITS as u32;

// The address that a bit of a word of a map stands for.
fn address(word: usize, bit: u32) -> RomAddr
    requires { (word < 64) × (bit < 64) }
    ensures { result ≡ rom_addr (64 * word + bit) }
{
    RomAddr(coverage::WORD_BITS * word as u16 + bit as u16)
}

// Whether an instruction starts at an address: its entry's routine is not 0.
#[tactic(auto, unfolding(certificate::specs::Layout::certificate_of, certificate::specs::Layout::certificate_from))]
fn is_start(cert: &[u8], a: RomAddr) -> bool
    ensures { result ≡ is_start (certificate_of cert.now) a.0 }
{
    byte_at(entries::entry_part(cert, a), 0) != 0
}

// A bit for each address of a word of a map, the lowest address first: set where no instruction starts.
#[tactic(auto, using(crate::proofs::Words::upto_none, crate::proofs::Words::upto_set, crate::proofs::Words::upto_kept))]
fn others(cert: &[u8], word: usize) -> u64
    requires { word < 64 }
    ensures { (k : ℕ) → k < 64 → bit_of result k ≡ not (is_start (certificate_of cert.now) (64 * word + k)) }
{
    let mut bits = 0;
    for k in 0..WORD_BITS {
        if !is_start(cert, address(word, k)) {
            bits |= 1 << k;
        }
    }
    bits
}

// The lowest start of a certificate that the map has not marked, or none, where every start is marked. A start is an address whose entry's routine is
// not 0.
#[tactic(auto)]
pub fn lowest_unmarked(cert: &[u8], map: &Map) -> Result<Option<RomAddr>, InvalidArgument>
    ensures { told result ≡ lowest_of cert.now map.now }
{
    if !base::is_certificate_length(cert.len()) {
        return Err(InvalidArgument);
    }
    // Of a slice's words a proof knows that they fit 64 bits. By index, which makes the address.
    let map: &[u64] = map;
    for word in 0..WORDS {
        let bit = u64::trailing_zeros(!(map[word] | others(cert, word)));
        if bit < WORD_BITS {
            return Ok(Some(address(word, bit)));
        }
    }
    Ok(None)
}
