// The certificate checker.
#![tactic(auto)]

ghost use Rattle.std.specs.Prelude.{◌≡◌};
ghost use Rattle.base.specs.Parts.{part_of};
ghost use Rattle.certificate.specs.Layout.{certificate_of};
ghost use Rattle.certificate.specs.declared.Verdict.TheVariants.{Accepted};
ghost use Rattle.entries.specs.Fields.{said_by};
ghost use Rattle.safety.specs.Verdicts.{rules_on, rules_at, first_broken, number_at, scan, verdict_of, Exact};
ghost use Rattle.safety.specs.Statement.{setup_for, Demand3};
ghost use Rattle.semantics.specs.Setup.{setup_of};
ghost use Rattle.checker.specs.Broken.{number_told};

use base::{Profile, RomAddr};
use certificate::Verdict;
use claims::EntryAt;
use entries::Certificate;
use located::Located;
use semantics::Configuration;

// The lowest number of a rule that is broken by an instruction at an entry's address, of so many cycles, for a ROM of rom bytes.
#[tactic(auto, unfolding(safety::specs::Verdicts::rules_with, safety::specs::Verdicts::first_broken))]
fn first_broken(rom: u16, n: &EntryAt, i: Located, cost: u8) -> Option<u8>
    ensures { result ≡ number_told (first_broken (rules_on rom (said_by n.now.certificate) n.now.address.0 i.summary i.next.0 cost)) }
{
    let Located { summary, next } = i;
    if !rules::rule21(rom, n, summary, next) {
        return Some(21);
    }
    if !rules::rule22(n, summary) {
        return Some(22);
    }
    if !rules::rule23(n, summary) {
        return Some(23);
    }
    if !rule24::rule24(rom, n, summary) {
        return Some(24);
    }
    if !rule25::rule25(n, summary, next) {
        return Some(25);
    }
    if !rule26::rule26(n, summary, next) {
        return Some(26);
    }
    if !rule27::rule27(n, summary, cost, next) {
        return Some(27);
    }
    None
}

// The lowest number of a rule that is broken at an address with an entry. A function of its own: within the loop over the addresses it takes the registers
// of those that have none.
#[inline(never)]
#[tactic(auto, unfolding(located::specs::Located::located_in, safety::specs::Verdicts::summary_at, safety::specs::Verdicts::next_at))]
fn broken_in(rom: u16, image: &[u8], cert: &Certificate, a: RomAddr) -> Option<u8>
    ensures { result ≡ number_told (first_broken (rules_at rom (said_by cert.now) image.now a.0)) }
{
    let n = EntryAt::new(cert, a);
    let i = located::instruction_at(image, &n);
    first_broken(rom, &n, i, located::cost_at(image, a))
}

// The lowest number of a rule that is broken at an address; where no instruction starts, none is.
#[tactic(auto, unfolding(safety::specs::Verdicts::number_by))]
fn broken_at(rom: u16, image: &[u8], cert: &Certificate, a: RomAddr) -> Option<u8>
    ensures { result ≡ number_told (number_at rom (said_by cert.now) image.now a.0) }
{
    if cert.entry(a).routine == 0 {
        return None;
    }
    broken_in(rom, image, cert, a)
}

// The lowest address with a broken rule, and there the lowest number.
#[tactic(auto, using(crate::proofs::Laws::scan_on, crate::proofs::Laws::scan_stop), unfolding(safety::specs::Verdicts::scan_by))]
fn first_refusal(rom: u16, image: &[u8], cert: &Certificate) -> Verdict
    ensures { result ≡ scan rom (said_by cert.now) image.now rom 0 }
{
    for a in 0..rom {
        if let Some(number) = broken_at(rom, image, cert, RomAddr(a)) {
            return Verdict::Refused(number, RomAddr(a));
        }
    }
    Verdict::Accepted
}

// The verdict on an image and a certificate, for a ROM of rom bytes.
#[tactic(auto, using(crate::proofs::Laws::wrong_length, crate::proofs::Laws::layout_broken, crate::proofs::Laws::layout_holds))]
fn verdict_for(rom: u16, image: &[u8], cert: &[u8]) -> Verdict
    ensures { result ≡ verdict_of rom image.now cert.now }
{
    if image.len() != usize::from(rom) || !base::is_certificate_length(cert.len()) {
        return Verdict::Refused(7, RomAddr(0));
    }
    let cert = Certificate { bytes: cert };
    if !rule20::rule20(rom, image, &cert) {
        return Verdict::Refused(20, RomAddr(0));
    }
    first_refusal(rom, image, &cert)
}

// The verdict on an image of a part and a certificate: accepted exactly when no rule is broken, else the number and the address of the first broken
// rule (demand 2). What is accepted is safe on every run of that part from reset, under every schedule (demand 3).
pub fn check(profile: Profile, image: &[u8], cert: &[u8]) -> Verdict
    ensures verdict { result ≡ verdict_of (part_of profile).rom image.now cert.now }
    ensures exact { Exact (part_of profile).rom image.now cert.now result }
    ensures safe { result ≡ Accepted → Demand3 (part_of profile) (certificate_of cert.now) image.now }
{
    verdict_for(base::rom_length(profile), image, cert)
}

// The configuration of a part and a certificate: what a machine must be given beside the image for demand 3 to speak of its runs.
pub fn configuration_of(profile: Profile, cert: &[u8]) -> Configuration
    ensures { setup_of result ≡ setup_for (part_of profile) (certificate_of cert.now) }
{
    Configuration {
        profile,
        entry_cost: entries::entry_cost(cert),
    }
}
