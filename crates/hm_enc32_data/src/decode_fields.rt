//! The rows T5 to T7, read.

ghost use Rattle.std.specs.Prelude.{◌≡◌, ◌≤◌, ◌<◌, IfSome, IfNone};
ghost use Rattle.hm_isa.specs.declared.data.T5.{T5};
ghost use Rattle.hm_isa.specs.declared.data.T6.{T6};
ghost use Rattle.hm_isa.specs.declared.data.T7.{T7};
ghost use Rattle.hm_isa.specs.DataRules.{is_bit_field, is_inserted, is_saturated};
ghost use Rattle.hm_isa.specs.DataCodes.{code_t5, code_t6, code_t7};

use hm_code_fields::{bits, is_general};
use hm_isa::{Below, ExtractName, SaturateName, T5, T6, T7};

/// Whether the row T5 has these letters.
fn may_be_t5(sh: u32, n: u32, d: u32, i3: u32, i2: u32) -> bool
    requires i3 { i3 < 8 }
    requires i2 { i2 < 4 }
    ensures { result ≡ is_saturated sh n d i3 i2 }
{
    if !is_general(n) || !is_general(d) {
        return false;
    }
    sh == 0 || i3 + i2 > 0
}

/// `ssat rd,#s+1,rn`, `usat rd,#s,rn`
pub fn decode_t5(w: u32) -> Option<T5>
    ensures found { IfSome result (λ r. code_t5 r ≡ w) }
    ensures none { IfNone result ((r : T5) → code_t5 r ≡ w → ⊥) }
{
    let sh = bits(w, 21, 1);
    let n = bits(w, 16, 4);
    let d = bits(w, 8, 4);
    let i3 = bits(w, 12, 3);
    let i2 = bits(w, 6, 2);
    let s = bits(w, 0, 5);
    let name = match w - (sh << 21) - (n << 16) - (d << 8) - (i3 << 12) - (i2 << 6) - s {
        0xf300_0000 => SaturateName::Ssat,
        0xf380_0000 => SaturateName::Usat,
        _ => return None,
    };
    if !may_be_t5(sh, n, d, i3, i2) {
        return None;
    }
    Some(T5 {
        name,
        sh: Below::new(sh),
        n: Below::new(n),
        d: Below::new(d),
        i3: Below::new(i3),
        i2: Below::new(i2),
        s: Below::new(s),
    })
}

/// Whether the row T6 has these letters.
fn may_be_t6(n: u32, d: u32, i3: u32, i2: u32, width: u32) -> bool
    requires i3 { i3 < 8 }
    requires i2 { i2 < 4 }
    requires width { width < 32 }
    ensures { result ≡ is_bit_field n d i3 i2 width }
{
    if !is_general(n) || !is_general(d) {
        return false;
    }
    4 * i3 + i2 + width <= 31
}

/// `sbfx`, `ubfx rd,rn,#lsb,#w+1`
pub fn decode_t6(w: u32) -> Option<T6>
    ensures found { IfSome result (λ r. code_t6 r ≡ w) }
    ensures none { IfNone result ((r : T6) → code_t6 r ≡ w → ⊥) }
{
    let n = bits(w, 16, 4);
    let d = bits(w, 8, 4);
    let i3 = bits(w, 12, 3);
    let i2 = bits(w, 6, 2);
    let width = bits(w, 0, 5);
    let name = match w - (n << 16) - (d << 8) - (i3 << 12) - (i2 << 6) - width {
        0xf340_0000 => ExtractName::Sbfx,
        0xf3c0_0000 => ExtractName::Ubfx,
        _ => return None,
    };
    if !may_be_t6(n, d, i3, i2, width) {
        return None;
    }
    Some(T6 {
        name,
        n: Below::new(n),
        d: Below::new(d),
        i3: Below::new(i3),
        i2: Below::new(i2),
        w: Below::new(width),
    })
}

/// Whether the row T7 has these letters.
fn may_be_t7(n: u32, d: u32, i3: u32, i2: u32, end: u32) -> bool
    requires i3 { i3 < 8 }
    requires i2 { i2 < 4 }
    ensures { result ≡ is_inserted n d i3 i2 end }
{
    if n == 13 || !is_general(d) {
        return false;
    }
    4 * i3 + i2 <= end
}

/// `bfi rd,rn,#lsb,#width`, `bfc rd,#lsb,#width`
pub fn decode_t7(w: u32) -> Option<T7>
    ensures found { IfSome result (λ r. code_t7 r ≡ w) }
    ensures none { IfNone result ((r : T7) → code_t7 r ≡ w → ⊥) }
{
    let n = bits(w, 16, 4);
    let d = bits(w, 8, 4);
    let i3 = bits(w, 12, 3);
    let i2 = bits(w, 6, 2);
    let end = bits(w, 0, 5);
    if w - (n << 16) - (d << 8) - (i3 << 12) - (i2 << 6) - end != 0xf360_0000 {
        return None;
    }
    if !may_be_t7(n, d, i3, i2, end) {
        return None;
    }
    Some(T7 {
        n: Below::new(n),
        d: Below::new(d),
        i3: Below::new(i3),
        i2: Below::new(i2),
        e: Below::new(end),
    })
}
