// The instruction at an address, as the rules ask of it: its summary, the address behind it, and its cycles.
#![tactic(auto)]

ghost use Rattle.std.specs.Prelude.{◌≡◌};
ghost use Rattle.base.specs.Outcome.Outcome.{value};
ghost use Rattle.entries.specs.Fields.{said_by};
ghost use Rattle.safety.specs.CodeRange.{load_range};
ghost use Rattle.safety.specs.Verdicts.{cost_at};
ghost use Rattle.located.specs.Located.{none_at, located_in, located_at};

use base::RomAddr;
use certificate::Summary;
use claims::EntryAt;
use isa::Decoded;

// An instruction's summary, and the address behind it.
#[derive(Clone, Copy)]
pub struct Located {
    pub summary: Summary,
    pub next: RomAddr,
}

// What no accepted program has, one byte long.
fn no_instruction(a: RomAddr) -> Located
    ensures { result ≡ none_at a.0 }
{
    Located {
        summary: summary::forbidden(),
        next: RomAddr(a.0.wrapping_add(1)),
    }
}

// The instruction that was decoded at an address.
#[tactic(auto, unfolding(crate::specs::Located::located_in, safety::specs::Verdicts::summary_from))]
fn decoded_at(image: &[u8], at: &EntryAt, decoded: Decoded) -> Located
    ensures { result ≡ located_in (load_range (said_by at.now.certificate) image.now at.now.address.0) (value (decoded.instruction, decoded.length, decoded.names)) at.now.address.0 }
{
    let next = RomAddr(at.address.0.wrapping_add(u16::from(decoded.length)));
    let action = action::action_of(decoded.instruction, next);
    let summary = summary::summary_at_entry(image, at, action, decoded.names);
    Located { summary, next }
}

// The instruction at an entry's address; what does not decode there is forbidden.
#[tactic(auto, unfolding(crate::specs::Located::located_in, safety::specs::Verdicts::summary_from))]
pub fn instruction_at(image: &[u8], at: &EntryAt) -> Located
    ensures { result ≡ located_at (said_by at.now.certificate) image.now at.now.address.0 }
{
    match decode::decode(image, usize::from(at.address.0)) {
        Ok(decoded) => decoded_at(image, at, decoded),
        Err(_) => no_instruction(at.address),
    }
}

// The cycles of the instruction that starts at an address.
#[tactic(auto, unfolding(safety::specs::Verdicts::cost_at))]
pub fn cost_at(image: &[u8], a: RomAddr) -> u8
    ensures { result ≡ cost_at image.now a.0 }
{
    isa::cycles_of(base::byte_at(image, a.0 as usize))
}
