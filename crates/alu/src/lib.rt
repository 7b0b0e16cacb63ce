// Operations on bytes with their flags, and the FLAGS register.
#![tactic(auto)]

ghost use Rattle.std.specs.Prelude.{◌≡◌, ◌*◌, ◌%◌, ◌<◌, ◌≤◌};
ghost use Rattle.base.specs.Choice.{pick};
ghost use Rattle.alu.specs.Flags.{flags_byte, update};
ghost use Rattle.alu.specs.Operations.{is_zero, is_negative, biased, overflows, addition, subtraction, logical, operate, stores, increment, decrement, rotation, shift_right, modify};

use isa::{Alu, FlagSet, Unary};

// An operation's result, and a FLAGS byte with its flags.
#[derive(Clone, Copy, Debug, PartialEq, Eq)]
pub struct Computed {
    pub value: u8,
    pub flags: u8,
}

// w where b holds, else 0.
fn weight(b: bool, w: u8) -> u8
    ensures value { result ≡ pick b w 0 }
    ensures bounded { result ≤ w }
{
    if b { w } else { 0 }
}

// The FLAGS byte with these flags.
#[tactic(auto, unfolding(crate::specs::Flags::flags_byte))]
pub fn flags_byte(c: bool, z: bool, s: bool, v: bool) -> u8
    ensures { result ≡ flags_byte c z s v }
{
    weight(c, 128) + weight(z, 64) + weight(s, 32) + weight(v, 16)
}

// FLAGS once the flags that are named are as in x.
#[tactic(auto, using(crate::proofs::Masks::masks), unfolding(crate::specs::Flags::update, crate::specs::Flags::updated))]
pub fn update(flags: u8, names: FlagSet, x: u8) -> u8
    ensures { result ≡ update flags names x }
{
    let n = names.0 & 0xF0;
    (flags & (0xF0 ^ n)) | (x & n)
}

impl Computed {
    // A value with its Z and S, and with this C and V.
    fn new(value: u8, c: bool, v: bool) -> Computed
        ensures { result ≡ record { value = value; flags = flags_byte c (is_zero value) (is_negative value) v } }
    {
        Computed {
            value,
            flags: flags_byte(c, value == 0, 128 <= value, v),
        }
    }
}

// The signed value of a byte, plus 128.
#[tactic(auto, unfolding(crate::specs::Operations::biased))]
fn biased(x: u8) -> u16
    ensures value { result ≡ biased x }
    ensures bounded { result < 256 }
{
    u16::from(x.wrapping_add(128))
}

// Whether a signed result, plus 256, leaves -128 to 127.
#[tactic(auto, unfolding(crate::specs::Operations::overflows))]
fn overflows(n: u16) -> bool
    ensures { result ≡ overflows n }
{
    n < 128 || 384 <= n
}

// x + y + k, k at most 1; C is the carry out of bit 7.
#[tactic(auto, unfolding(crate::specs::Operations::addition))]
fn addition(x: u8, y: u8, k: u8) -> Computed
    requires { k ≤ 1 }
    ensures { result ≡ addition x y k }
{
    let value = x.wrapping_add(y).wrapping_add(k);
    let c = 256 <= u16::from(x) + u16::from(y) + u16::from(k);
    let v = overflows(biased(x) + biased(y) + u16::from(k));
    Computed::new(value, c, v)
}

// x - y - k, k at most 1; C is the borrow.
#[tactic(auto, unfolding(crate::specs::Operations::subtraction))]
fn subtraction(x: u8, y: u8, k: u8) -> Computed
    requires { k ≤ 1 }
    ensures { result ≡ subtraction x y k }
{
    let value = x.wrapping_sub(y).wrapping_sub(k);
    let c = u16::from(x) < u16::from(y) + u16::from(k);
    let v = overflows(biased(x) + 256 - (biased(y) + u16::from(k)));
    Computed::new(value, c, v)
}

// A logical operation's result: V is 0; C, which it does not name, is 0 here and not used.
#[tactic(auto, unfolding(crate::specs::Operations::logical))]
fn logical(value: u8) -> Computed
    ensures { result ≡ logical value }
{
    Computed::new(value, false, false)
}

// An operation on two bytes: x the destination's, y the source's, c the carry before.
#[tactic(auto, unfolding(crate::specs::Operations::operate))]
pub fn operate(op: Alu, x: u8, y: u8, c: bool) -> Computed
    ensures { result ≡ operate op x y c }
{
    match op {
        Alu::Add => addition(x, y, 0),
        Alu::Adc => addition(x, y, u8::from(c)),
        Alu::Sub | Alu::Cp => subtraction(x, y, 0),
        Alu::Sbc => subtraction(x, y, u8::from(c)),
        Alu::Or => logical(x | y),
        Alu::And | Alu::Tm => logical(x & y),
        Alu::Tcm => logical(!x & y),
        Alu::Xor => logical(x ^ y),
    }
}

// Whether it stores its value: TCM, TM and CP only set flags.
#[tactic(auto, unfolding(crate::specs::Operations::stores))]
pub fn stores(op: Alu) -> bool
    ensures { result ≡ stores op }
{
    !matches!(op, Alu::Tcm | Alu::Tm | Alu::Cp)
}

// INC; C is not used.
#[tactic(auto, unfolding(crate::specs::Operations::increment))]
fn increment(x: u8) -> Computed
    ensures { result ≡ increment x }
{
    Computed::new(x.wrapping_add(1), false, x == 127)
}

// DEC; C is not used.
#[tactic(auto, unfolding(crate::specs::Operations::decrement))]
fn decrement(x: u8) -> Computed
    ensures { result ≡ decrement x }
{
    Computed::new(x.wrapping_sub(1), false, x == 128)
}

// A rotation of x that gives value: C is the bit that left; V where bit 7 changes.
#[tactic(auto, unfolding(crate::specs::Operations::rotation))]
fn rotation(x: u8, value: u8, c: bool) -> Computed
    ensures { result ≡ rotation x value c }
{
    Computed::new(value, c, value / 128 != x / 128)
}

// SRA.
#[tactic(auto, unfolding(crate::specs::Operations::shift_right))]
fn shift_right(x: u8) -> Computed
    ensures { result ≡ shift_right x }
{
    Computed::new(x / 2 + x / 128 * 128, x % 2 == 1, false)
}

// Twice x modulo 256: x moved one place to the left.
fn doubled(x: u8) -> u8
    ensures value { result ≡ x * 2 % 256 }
    ensures bounded { result ≤ 254 }
{
    x % 128 * 2
}

// An operation on one byte, c being the carry before.
#[tactic(auto, unfolding(crate::specs::Operations::modify))]
pub fn modify(op: Unary, x: u8, c: bool) -> Computed
    ensures { result ≡ modify op x c }
{
    match op {
        Unary::Dec => decrement(x),
        Unary::Rlc => rotation(x, doubled(x) + u8::from(c), 128 <= x),
        Unary::Inc => increment(x),
        Unary::Com => logical(!x),
        Unary::Rl => rotation(x, doubled(x) + x / 128, 128 <= x),
        Unary::Clr => Computed { value: 0, flags: 0 },
        Unary::Rrc => rotation(x, x / 2 + weight(c, 128), x % 2 == 1),
        Unary::Sra => shift_right(x),
        Unary::Rr => rotation(x, x / 2 + x % 2 * 128, x % 2 == 1),
    }
}
