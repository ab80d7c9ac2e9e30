//! Shifts, products, quotients and choices, read and written.

ghost use Rattle.std.specs.Prelude.{◌≡◌, IfSome, IfNone};
ghost use Rattle.hm_isa.specs.declared.narrow.ExtendName.{ExtendName};
ghost use Rattle.hm_isa.specs.declared.arith.WideShiftName.{WideShiftName};
ghost use Rattle.hm_isa.specs.declared.arith.BitsName.{BitsName};
ghost use Rattle.hm_isa.specs.declared.arith.OperationName.{OperationName};
ghost use Rattle.hm_isa.specs.declared.arith.AccumulateName.{AccumulateName};
ghost use Rattle.hm_isa.specs.declared.arith.LongProductName.{LongProductName};
ghost use Rattle.hm_isa.specs.declared.arith.SelectName.{SelectName};
ghost use Rattle.hm_isa.specs.declared.arith.T8.{T8};
ghost use Rattle.hm_isa.specs.declared.arith.T9.{T9};
ghost use Rattle.hm_isa.specs.declared.arith.T10.{T10};
ghost use Rattle.hm_isa.specs.declared.arith.Operation.{Operation};
ghost use Rattle.hm_isa.specs.declared.arith.Accumulate.{Accumulate};
ghost use Rattle.hm_isa.specs.declared.arith.LongProduct.{LongProduct};
ghost use Rattle.hm_isa.specs.declared.arith.T11.{T11};
ghost use Rattle.hm_isa.specs.declared.arith.T20.{T20};
ghost use Rattle.hm_isa.specs.Rules.{is_accumulated, is_long_product};
ghost use Rattle.hm_isa.specs.ArithCodes.{wide_shift_base, code_t8, wide_extend_base, code_t9, bits_base, code_t10, operation_base, code_operation};
ghost use Rattle.hm_isa.specs.ArithCodes.{accumulate_base, code_accumulate, long_product_base, code_long_product, code_t11, select_base, code_t20};
ghost use Rattle.hm_layout.specs.Wide.{HasWord};

use hm_code_fields::{bits, is_general};
use hm_isa::{
    Accumulate, AccumulateName, Below, BitsName, ExtendName, Instr, LongProduct, LongProductName,
    Operation, OperationName, Scalar, SelectName, T8, T9, T10, T11, T20, WideShiftName,
};

/// The operation of the row T8 whose code without its fields is this.
fn wide_shift_name(rest: u32) -> Option<WideShiftName>
    ensures found { IfSome result (λ x. wide_shift_base x ≡ rest) }
    ensures none { IfNone result ((x : WideShiftName) → wide_shift_base x ≡ rest → ⊥) }
{
    match rest {
        0xfa00_f000 => Some(WideShiftName::Lsl),
        0xfa20_f000 => Some(WideShiftName::Lsr),
        0xfa40_f000 => Some(WideShiftName::Asr),
        0xfa60_f000 => Some(WideShiftName::Ror),
        _ => None,
    }
}

/// `lsl.w`, `lsr.w`, `asr.w`, `ror.w rd,rn,rm`
fn decode_t8(w: u32) -> Option<T8>
    ensures found { IfSome result (λ r. code_t8 r ≡ w) }
    ensures none { IfNone result ((r : T8) → code_t8 r ≡ w → ⊥) }
{
    let s = bits(w, 20, 1);
    let n = bits(w, 16, 4);
    let d = bits(w, 8, 4);
    let m = bits(w, 0, 4);
    if !is_general(n) || !is_general(d) || !is_general(m) {
        return None;
    }
    let rest = w - (s << 20) - (n << 16) - (d << 8) - m;
    let name = wide_shift_name(rest)?;
    Some(T8 {
        name,
        s: Below::new(s),
        n: Below::new(n),
        d: Below::new(d),
        m: Below::new(m),
    })
}

/// The operation of the row T9 whose code without its fields is this.
fn wide_extend_name(rest: u32) -> Option<ExtendName>
    ensures found { IfSome result (λ x. wide_extend_base x ≡ rest) }
    ensures none { IfNone result ((x : ExtendName) → wide_extend_base x ≡ rest → ⊥) }
{
    match rest {
        0xfa0f_f080 => Some(ExtendName::Sxth),
        0xfa1f_f080 => Some(ExtendName::Uxth),
        0xfa4f_f080 => Some(ExtendName::Sxtb),
        0xfa5f_f080 => Some(ExtendName::Uxtb),
        _ => None,
    }
}

/// `sxth.w`, `uxth.w`, `sxtb.w`, `uxtb.w rd,rm`
fn decode_t9(w: u32) -> Option<T9>
    ensures found { IfSome result (λ r. code_t9 r ≡ w) }
    ensures none { IfNone result ((r : T9) → code_t9 r ≡ w → ⊥) }
{
    let d = bits(w, 8, 4);
    let r = bits(w, 4, 2);
    let m = bits(w, 0, 4);
    if !is_general(d) || !is_general(m) {
        return None;
    }
    let rest = w - (d << 8) - (r << 4) - m;
    let name = wide_extend_name(rest)?;
    Some(T9 {
        name,
        d: Below::new(d),
        r: Below::new(r),
        m: Below::new(m),
    })
}

/// The operation of the row T10 whose code without its fields is this.
fn bits_name(rest: u32) -> Option<BitsName>
    ensures found { IfSome result (λ x. bits_base x ≡ rest) }
    ensures none { IfNone result ((x : BitsName) → bits_base x ≡ rest → ⊥) }
{
    match rest {
        0xfa90_f080 => Some(BitsName::Rev),
        0xfa90_f090 => Some(BitsName::Rev16),
        0xfa90_f0a0 => Some(BitsName::Rbit),
        0xfa90_f0b0 => Some(BitsName::Revsh),
        0xfab0_f080 => Some(BitsName::Clz),
        _ => None,
    }
}

/// `rev.w`, `rev16.w`, `rbit`, `revsh.w`, `clz rd,rm`
fn decode_t10(w: u32) -> Option<T10>
    ensures found { IfSome result (λ r. code_t10 r ≡ w) }
    ensures none { IfNone result ((r : T10) → code_t10 r ≡ w → ⊥) }
{
    let d = bits(w, 8, 4);
    let m = bits(w, 0, 4);
    if bits(w, 16, 4) != m || !is_general(d) || !is_general(m) {
        return None;
    }
    let rest = w - (m << 16) - (d << 8) - m;
    let name = bits_name(rest)?;
    Some(T10 {
        name,
        d: Below::new(d),
        m: Below::new(m),
    })
}

/// The operation of the row T11 whose code without its fields is this.
fn operation_name(rest: u32) -> Option<OperationName>
    ensures found { IfSome result (λ x. operation_base x ≡ rest) }
    ensures none { IfNone result ((x : OperationName) → operation_base x ≡ rest → ⊥) }
{
    match rest {
        0xfb00_f000 => Some(OperationName::Mul),
        0xfb90_f0f0 => Some(OperationName::Sdiv),
        0xfbb0_f0f0 => Some(OperationName::Udiv),
        _ => None,
    }
}

/// `mul`, `sdiv`, `udiv rd,rn,rm`
fn decode_operation(w: u32) -> Option<Operation>
    ensures found { IfSome result (λ r. code_operation r ≡ w) }
    ensures none { IfNone result ((r : Operation) → code_operation r ≡ w → ⊥) }
{
    let n = bits(w, 16, 4);
    let d = bits(w, 8, 4);
    let m = bits(w, 0, 4);
    if !is_general(n) || !is_general(d) || !is_general(m) {
        return None;
    }
    let rest = w - (n << 16) - (d << 8) - m;
    let name = operation_name(rest)?;
    Some(Operation {
        name,
        n: Below::new(n),
        d: Below::new(d),
        m: Below::new(m),
    })
}

/// The operation of the row T11 whose code without its fields is this.
fn accumulate_name(rest: u32) -> Option<AccumulateName>
    ensures found { IfSome result (λ x. accumulate_base x ≡ rest) }
    ensures none { IfNone result ((x : AccumulateName) → accumulate_base x ≡ rest → ⊥) }
{
    match rest {
        0xfb00_0000 => Some(AccumulateName::Mla),
        0xfb00_0010 => Some(AccumulateName::Mls),
        _ => None,
    }
}

/// Whether the row has these letters.
fn may_accumulate(n: u32, a: u32, d: u32, m: u32) -> bool
    ensures { result ≡ is_accumulated n a d m }
{
    is_general(n) && is_general(a) && is_general(d) && is_general(m)
}

/// `mla`, `mls rd,rn,rm,ra`
fn decode_accumulate(w: u32) -> Option<Accumulate>
    ensures found { IfSome result (λ r. code_accumulate r ≡ w) }
    ensures none { IfNone result ((r : Accumulate) → code_accumulate r ≡ w → ⊥) }
{
    let n = bits(w, 16, 4);
    let a = bits(w, 12, 4);
    let d = bits(w, 8, 4);
    let m = bits(w, 0, 4);
    if !may_accumulate(n, a, d, m) {
        return None;
    }
    let rest = w - (n << 16) - (a << 12) - (d << 8) - m;
    let name = accumulate_name(rest)?;
    Some(Accumulate {
        name,
        n: Below::new(n),
        a: Below::new(a),
        d: Below::new(d),
        m: Below::new(m),
    })
}

/// The operation of the row T11 whose code without its fields is this.
fn long_product_name(rest: u32) -> Option<LongProductName>
    ensures found { IfSome result (λ x. long_product_base x ≡ rest) }
    ensures none { IfNone result ((x : LongProductName) → long_product_base x ≡ rest → ⊥) }
{
    match rest {
        0xfb80_0000 => Some(LongProductName::Smull),
        0xfba0_0000 => Some(LongProductName::Umull),
        0xfbc0_0000 => Some(LongProductName::Smlal),
        0xfbe0_0000 => Some(LongProductName::Umlal),
        _ => None,
    }
}

/// Whether the row has these letters.
fn may_be_long_product(n: u32, l: u32, h: u32, m: u32) -> bool
    ensures { result ≡ is_long_product n l h m }
{
    is_general(n) && is_general(l) && is_general(h) && is_general(m) && l != h
}

/// `smull`, `umull`, `smlal`, `umlal rl,rh,rn,rm`
fn decode_long_product(w: u32) -> Option<LongProduct>
    ensures found { IfSome result (λ r. code_long_product r ≡ w) }
    ensures none { IfNone result ((r : LongProduct) → code_long_product r ≡ w → ⊥) }
{
    let n = bits(w, 16, 4);
    let l = bits(w, 12, 4);
    let h = bits(w, 8, 4);
    let m = bits(w, 0, 4);
    if !may_be_long_product(n, l, h, m) {
        return None;
    }
    let rest = w - (n << 16) - (l << 12) - (h << 8) - m;
    let name = long_product_name(rest)?;
    Some(LongProduct {
        name,
        n: Below::new(n),
        l: Below::new(l),
        h: Below::new(h),
        m: Below::new(m),
    })
}

/// `mul`, `mla`, `mls`, `smull`, `umull`, `smlal`, `umlal`, `sdiv` or `udiv`
fn decode_t11(w: u32) -> Option<T11>
    ensures found { IfSome result (λ r. code_t11 r ≡ w) }
    ensures none { IfNone result ((r : T11) → code_t11 r ≡ w → ⊥) }
{
    if let Some(r) = decode_operation(w) {
        return Some(T11::Operation(r));
    }
    if let Some(r) = decode_accumulate(w) {
        return Some(T11::Accumulate(r));
    }
    if let Some(r) = decode_long_product(w) {
        return Some(T11::Long(r));
    }
    None
}

/// The operation of the row T20 whose code without its fields is this.
fn select_name(rest: u32) -> Option<SelectName>
    ensures found { IfSome result (λ x. select_base x ≡ rest) }
    ensures none { IfNone result ((x : SelectName) → select_base x ≡ rest → ⊥) }
{
    match rest {
        0xea50_8000 => Some(SelectName::Csel),
        0xea50_9000 => Some(SelectName::Csinc),
        0xea50_a000 => Some(SelectName::Csinv),
        0xea50_b000 => Some(SelectName::Csneg),
        _ => None,
    }
}

/// `csel`, `csinc`, `csinv`, `csneg rd,rn,rm,cond`
fn decode_t20(w: u32) -> Option<T20>
    ensures found { IfSome result (λ r. code_t20 r ≡ w) }
    ensures none { IfNone result ((r : T20) → code_t20 r ≡ w → ⊥) }
{
    let n = bits(w, 16, 4);
    let d = bits(w, 8, 4);
    let c = bits(w, 4, 4);
    let m = bits(w, 0, 4);
    if n == 13 || c > 13 || m == 13 || !is_general(d) {
        return None;
    }
    let rest = w - (n << 16) - (d << 8) - (c << 4) - m;
    let name = select_name(rest)?;
    Some(T20 {
        name,
        n: Below::new(n),
        d: Below::new(d),
        c: Below::new(c),
        m: Below::new(m),
    })
}

/// The instruction of the rows T8 to T11 and T20 whose code is w, with the first halfword in bits 31 to 16, or None exactly where none of them
/// has it: DDI0553, "T32 instruction set encoding", the 32-bit codes.
pub fn find_arith(w: u32) -> Option<Instr>
    ensures found { IfSome result (λ i. HasWord i w) }
    ensures no_t8 { IfNone result ((r : T8) → code_t8 r ≡ w → ⊥) }
    ensures no_t9 { IfNone result ((r : T9) → code_t9 r ≡ w → ⊥) }
    ensures no_t10 { IfNone result ((r : T10) → code_t10 r ≡ w → ⊥) }
    ensures no_t11 { IfNone result ((r : T11) → code_t11 r ≡ w → ⊥) }
    ensures no_t20 { IfNone result ((r : T20) → code_t20 r ≡ w → ⊥) }
{
    if let Some(r) = decode_t8(w) {
        return Some(Instr::Scalar(Scalar::T8(r)));
    }
    if let Some(r) = decode_t9(w) {
        return Some(Instr::Scalar(Scalar::T9(r)));
    }
    if let Some(r) = decode_t10(w) {
        return Some(Instr::Scalar(Scalar::T10(r)));
    }
    if let Some(r) = decode_t11(w) {
        return Some(Instr::Scalar(Scalar::T11(r)));
    }
    if let Some(r) = decode_t20(w) {
        return Some(Instr::Scalar(Scalar::T20(r)));
    }
    None
}

/// The code of a name of the row T8 without its fields.
pub fn base_of_wide_shift(name: WideShiftName) -> u32
    ensures value { result ≡ wide_shift_base name }
{
    match name {
        WideShiftName::Lsl => 0xfa00_f000,
        WideShiftName::Lsr => 0xfa20_f000,
        WideShiftName::Asr => 0xfa40_f000,
        WideShiftName::Ror => 0xfa60_f000,
    }
}

/// The code of `lsl.w`, `lsr.w`, `asr.w`, `ror.w rd,rn,rm`, with the first halfword in bits 31 to 16.
pub fn encode_t8(r: &T8) -> u32
    ensures value { result ≡ code_t8 r.now }
{
    base_of_wide_shift(r.name)
        + (r.s.get() << 20)
        + (r.n.get() << 16)
        + (r.d.get() << 8)
        + r.m.get()
}

/// The code of a name of the row T9 without its fields.
pub fn base_of_wide_extend(name: ExtendName) -> u32
    ensures value { result ≡ wide_extend_base name }
{
    match name {
        ExtendName::Sxth => 0xfa0f_f080,
        ExtendName::Uxth => 0xfa1f_f080,
        ExtendName::Sxtb => 0xfa4f_f080,
        ExtendName::Uxtb => 0xfa5f_f080,
    }
}

/// The code of `sxth.w`, `uxth.w`, `sxtb.w`, `uxtb.w rd,rm`, with the first halfword in bits 31 to 16.
pub fn encode_t9(r: &T9) -> u32
    ensures value { result ≡ code_t9 r.now }
{
    base_of_wide_extend(r.name) + (r.d.get() << 8) + (r.r.get() << 4) + r.m.get()
}

/// The code of a name of the row T10 without its fields.
pub fn base_of_bits(name: BitsName) -> u32
    ensures value { result ≡ bits_base name }
{
    match name {
        BitsName::Rev => 0xfa90_f080,
        BitsName::Rev16 => 0xfa90_f090,
        BitsName::Rbit => 0xfa90_f0a0,
        BitsName::Revsh => 0xfa90_f0b0,
        BitsName::Clz => 0xfab0_f080,
    }
}

/// The code of `rev.w`, `rev16.w`, `rbit`, `revsh.w`, `clz rd,rm`, with the first halfword in bits 31 to 16.
pub fn encode_t10(r: &T10) -> u32
    ensures value { result ≡ code_t10 r.now }
{
    base_of_bits(r.name) + (r.m.get() << 16) + (r.d.get() << 8) + r.m.get()
}

/// The code of a name of the row T11 without its fields.
pub fn base_of_operation(name: OperationName) -> u32
    ensures value { result ≡ operation_base name }
{
    match name {
        OperationName::Mul => 0xfb00_f000,
        OperationName::Sdiv => 0xfb90_f0f0,
        OperationName::Udiv => 0xfbb0_f0f0,
    }
}

/// The code of `mul`, `sdiv`, `udiv rd,rn,rm`.
fn encode_operation(r: &Operation) -> u32
    ensures { result ≡ code_operation r.now }
{
    base_of_operation(r.name) + (r.n.get() << 16) + (r.d.get() << 8) + r.m.get()
}

/// The code of a name of the row T11 without its fields.
pub fn base_of_accumulate(name: AccumulateName) -> u32
    ensures value { result ≡ accumulate_base name }
{
    match name {
        AccumulateName::Mla => 0xfb00_0000,
        AccumulateName::Mls => 0xfb00_0010,
    }
}

/// The code of `mla`, `mls rd,rn,rm,ra`.
fn encode_accumulate(r: &Accumulate) -> u32
    ensures { result ≡ code_accumulate r.now }
{
    base_of_accumulate(r.name)
        + (r.n.get() << 16)
        + (r.a.get() << 12)
        + (r.d.get() << 8)
        + r.m.get()
}

/// The code of a name of the row T11 without its fields.
pub fn base_of_long_product(name: LongProductName) -> u32
    ensures value { result ≡ long_product_base name }
{
    match name {
        LongProductName::Smull => 0xfb80_0000,
        LongProductName::Umull => 0xfba0_0000,
        LongProductName::Smlal => 0xfbc0_0000,
        LongProductName::Umlal => 0xfbe0_0000,
    }
}

/// The code of `smull`, `umull`, `smlal`, `umlal rl,rh,rn,rm`.
fn encode_long_product(r: &LongProduct) -> u32
    ensures { result ≡ code_long_product r.now }
{
    base_of_long_product(r.name)
        + (r.n.get() << 16)
        + (r.l.get() << 12)
        + (r.h.get() << 8)
        + r.m.get()
}

/// The code of `mul`, `mla`, `mls`, `smull`, `umull`, `smlal`, `umlal`, `sdiv` or `udiv`, with the first halfword
/// in bits 31 to 16.
pub fn encode_t11(r: &T11) -> u32
    ensures value { result ≡ code_t11 r.now }
{
    match r {
        T11::Operation(r) => encode_operation(r),
        T11::Accumulate(r) => encode_accumulate(r),
        T11::Long(r) => encode_long_product(r),
    }
}

/// The code of a name of the row T20 without its fields.
pub fn base_of_select(name: SelectName) -> u32
    ensures value { result ≡ select_base name }
{
    match name {
        SelectName::Csel => 0xea50_8000,
        SelectName::Csinc => 0xea50_9000,
        SelectName::Csinv => 0xea50_a000,
        SelectName::Csneg => 0xea50_b000,
    }
}

/// The code of `csel`, `csinc`, `csinv`, `csneg rd,rn,rm,cond`, with the first halfword in bits 31 to 16.
pub fn encode_t20(r: &T20) -> u32
    ensures value { result ≡ code_t20 r.now }
{
    base_of_select(r.name) + (r.n.get() << 16) + (r.d.get() << 8) + (r.c.get() << 4) + r.m.get()
}
