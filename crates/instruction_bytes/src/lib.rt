// The bytes of each instruction.
#![tactic(auto)]

ghost use Rattle.std.specs.Prelude.{◌≡◌, [], ◌∷◌, ◌/◌, ◌%◌};
ghost use Rattle.coded.specs.Answer.{bytes, coded};
ghost use Rattle.instruction_bytes.specs.Bytes.{bytes_of};

use base::RomAddr;
use coded::Code::{Four, One, Three, Two};
use coded::{Code, CodeError, byte, even_register, offset_pair};
use isa::Instruction;

// An opcode and an address, high half first.
fn with_address(op: u8, to: RomAddr) -> Code
    ensures { bytes result ≡ op ∷ to.0 / 256 ∷ to.0 % 256 ∷ [] }
{
    let [high, low] = to.0.to_be_bytes();
    Three(op, high, low)
}

// An opcode, a byte and 16 bits, low half first.
fn with_word(op: u8, operands: u8, x: u16) -> Code
    ensures { bytes result ≡ op ∷ operands ∷ x % 256 ∷ x / 256 ∷ [] }
{
    let [low, high] = x.to_le_bytes();
    Four(op, operands, low, high)
}

// An instruction's bytes.
pub fn bytes_of(i: Instruction) -> Result<Code, CodeError>
    ensures { coded result ≡ bytes_of i }
{
    Ok(match i {
        Instruction::UnaryReg(u, r) => Two(u as u8 * 16, r.0),
        Instruction::UnaryAt(u, r) => Two(u as u8 * 16 + 1, r.0),
        Instruction::Pop(r) => Two(0x50, r.0),
        Instruction::PopAt(r) => Two(0x51, r.0),
        Instruction::Push(r) => Two(0x70, r.0),
        Instruction::PushAt(r) => Two(0x71, r.0),
        Instruction::IncWork(r) => One(byte(r, 14)?),
        Instruction::AluWork(a, d, s) => Two(a as u8 * 16 + 2, byte(d, s)?),
        Instruction::AluWorkAt(a, d, s) => Two(a as u8 * 16 + 3, byte(d, s)?),
        Instruction::AluReg(a, d, s) => Three(a as u8 * 16 + 4, s.0, d.0),
        Instruction::AluRegAt(a, d, s) => Three(a as u8 * 16 + 5, s.0, d.0),
        Instruction::AluImm(a, d, x) => Three(a as u8 * 16 + 6, d.0, x),
        Instruction::LoadReg(d, s) => Three(0xE4, s.0, d.0),
        Instruction::LoadRegAt(d, s) => Three(0xE5, s.0, d.0),
        Instruction::LoadAtReg(d, s) => Three(0xF5, s.0, d.0),
        Instruction::LoadImm(d, x) => Three(0xE6, d.0, x),
        Instruction::LoadAtImm(d, x) => Three(0xD6, d.0, x),
        Instruction::LoadWorkAt(d, s) => Two(0xC7, byte(d, s)?),
        Instruction::LoadAtWork(d, s) => Two(0xD7, byte(d, s)?),
        Instruction::LoadIndexed(r, b, x) => Three(0x87, byte(r, b)?, x),
        Instruction::StoreIndexed(r, b, x) => Three(0x97, byte(r, b)?, x),
        Instruction::LoadWorkReg(r, s) => Two(byte(r, 8)?, s.0),
        Instruction::LoadRegWork(d, r) => Two(byte(r, 9)?, d.0),
        Instruction::LoadWorkImm(r, x) => Two(byte(r, 12)?, x),
        Instruction::LdcLoad(r, p) => Two(0xC3, byte(r, p)?),
        Instruction::LdcStore(r, p) => Two(0xD3, byte(r, p)?),
        Instruction::LdcDec(r, p) => Two(0xE2, byte(r, p)?),
        Instruction::LdcInc(r, p) => Two(0xE3, byte(r, p)?),
        Instruction::LdcLoadShort(r, p, x) => Three(0xE7, byte(r, p)?, x),
        Instruction::LdcStoreShort(r, p, x) => Three(0xF7, byte(r, p)?, x),
        Instruction::LdcLoadLong(r, p, x) => with_word(0xA7, byte(r, offset_pair(p)?)?, x),
        Instruction::LdcStoreLong(r, p, x) => with_word(0xB7, byte(r, offset_pair(p)?)?, x),
        Instruction::LdcLoadDirect(r, e, at) => with_word(0xA7, byte(r, u8::from(e))?, at.0),
        Instruction::LdcStoreDirect(r, e, at) => with_word(0xB7, byte(r, u8::from(e))?, at.0),
        Instruction::JumpRel(cc, x) => Two(byte(cc, 11)?, x),
        Instruction::Jump(cc, to) => with_address(byte(cc, 13)?, to),
        Instruction::JumpAt(r) => Two(0x30, even_register(r)?),
        Instruction::Call(to) => with_address(0xF6, to),
        Instruction::CallAt(r) => Two(0xF4, even_register(r)?),
        Instruction::Implied(p) => One(p as u8 * 16 + 15),
    })
}
