//! Products and quotients.

ghost use Rattle.std.specs.Prelude.{◌≡◌, ℕ, ◌<◌, ◌≤◌, ◌^◌, ◌+◌, ◌*◌};
ghost use Rattle.hm_thumb.specs.ArithRows.{accumulate_row, accumulated, long_result, long_row, magnitude, operated, operation_row, put_long, signed_product};
ghost use Rattle.hm_thumb.specs.ArithRows.{signed_quotient, t11};
ghost use Rattle.hm_thumb.specs.RegisterRows.{reg};

use hm_base::Place;
use hm_isa::words::{SIGN, sign_extended_64};
use hm_isa::{
    Accumulate, AccumulateName, LongProduct, LongProductName, Operation, OperationName, T11,
};
use hm_regs::Regs;

/// The magnitude of a word with its sign.
fn magnitude(x: u32) -> u32
    ensures value { result ≡ magnitude x }
{
    if x >= SIGN { x.wrapping_neg() } else { x }
}

/// The quotient of words with their signs, rounded towards 0.
fn signed_quotient(x: u32, y: u32) -> u32
    requires { 0 < y }
    ensures value { result ≡ signed_quotient x y }
{
    let quotient = magnitude(x) / magnitude(y);
    if (x >= SIGN) == (y >= SIGN) {
        quotient
    } else {
        quotient.wrapping_neg()
    }
}

/// A product, or a quotient, which by 0 is 0.
fn operated(name: OperationName, x: u32, y: u32) -> u32
    ensures value { result ≡ operated name x y }
{
    match name {
        OperationName::Mul => x.wrapping_mul(y),
        OperationName::Sdiv => { if y == 0 { 0 } else { signed_quotient(x, y) } }
        OperationName::Udiv => { if y == 0 { 0 } else { x / y } }
    }
}

/// `mul`, `sdiv`, `udiv rd,rn,rm`
fn operate(i: &Operation, regs: &mut Regs)
    ensures regs { regs.new ≡ operation_row i.now regs.old }
{
    let x = regs.get(Place::R(i.n.get() as u8));
    let y = regs.get(Place::R(i.m.get() as u8));
    regs.set(Place::R(i.d.get() as u8), operated(i.name, x, y));
}

/// A product added to a word or taken off it.
fn accumulated(name: AccumulateName, a: u32, product: u32) -> u32
    ensures value { result ≡ accumulated name a product }
{
    match name {
        AccumulateName::Mla => a.wrapping_add(product),
        AccumulateName::Mls => a.wrapping_sub(product),
    }
}

/// `mla`, `mls rd,rn,rm,ra`
fn accumulate(i: &Accumulate, regs: &mut Regs)
    ensures regs { regs.new ≡ accumulate_row i.now regs.old }
{
    let a = regs.get(Place::R(i.a.get() as u8));
    let x = regs.get(Place::R(i.n.get() as u8));
    let y = regs.get(Place::R(i.m.get() as u8));
    regs.set(
        Place::R(i.d.get() as u8),
        accumulated(i.name, a, x.wrapping_mul(y)),
    );
}

/// The product of words with their signs.
fn signed_product(x: u32, y: u32) -> u64
    ensures value { result ≡ signed_product x y }
{
    sign_extended_64(x).wrapping_mul(sign_extended_64(y))
}

/// A product of 64 bits, alone or added.
fn long_result(name: LongProductName, old: u64, x: u32, y: u32) -> u64
    ensures value { result ≡ long_result name old x y }
{
    match name {
        LongProductName::Smull => signed_product(x, y),
        LongProductName::Umull => x as u64 * y as u64,
        LongProductName::Smlal => old.wrapping_add(signed_product(x, y)),
        LongProductName::Umlal => old.wrapping_add(x as u64 * y as u64),
    }
}

/// The number of 64 bits with its low word in register `l` and its high one in register `h`.
fn long_at(l: u32, h: u32, regs: &Regs) -> u64
    requires low { l ≤ 14 }
    requires high { h ≤ 14 }
    ensures value { result ≡ reg h regs.now * 2 ^ 32 + reg l regs.now }
{
    let low = regs.get(Place::R(l as u8));
    let high = regs.get(Place::R(h as u8));
    high as u64 * 0x1_0000_0000 + low as u64
}

/// Puts the low word into register `l` and the high one into register `h`.
fn put_long(l: u32, h: u32, x: u64, regs: &mut Regs)
    requires low { l ≤ 14 }
    requires high { h ≤ 14 }
    ensures regs { regs.new ≡ put_long l h x regs.old }
{
    regs.set(Place::R(l as u8), (x % 0x1_0000_0000) as u32);
    regs.set(Place::R(h as u8), (x >> 32) as u32);
}

/// `smull`, `umull`, `smlal`, `umlal rl,rh,rn,rm`
fn multiply_long(i: &LongProduct, regs: &mut Regs)
    ensures regs { regs.new ≡ long_row i.now regs.old }
{
    let l = i.l.get();
    let h = i.h.get();
    let old = long_at(l, h, regs);
    let x = regs.get(Place::R(i.n.get() as u8));
    let y = regs.get(Place::R(i.m.get() as u8));
    put_long(l, h, long_result(i.name, old, x, y), regs);
}

/// `mul`, `mla`, `mls`, `smull`, `umull`, `smlal`, `umlal`, `sdiv` or `udiv`
pub fn multiply(i: &T11, regs: &mut Regs)
    ensures regs { regs.new ≡ t11 i.now regs.old }
{
    match i {
        T11::Operation(i) => operate(i, regs),
        T11::Accumulate(i) => accumulate(i, regs),
        T11::Long(i) => multiply_long(i, regs),
    }
}
