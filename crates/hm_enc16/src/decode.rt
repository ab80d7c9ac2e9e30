//! The rows of 16-bit codes, read.

ghost use Rattle.std.specs.Prelude.{◌≡◌, ◌<◌, ◌*◌, ◌%◌, ◌^◌, not, nat_eq, ◌||◌, IfSome, IfNone, [], ◌∷◌};
ghost use Rattle.hm_isa.specs.declared.narrow.ListName.{ListName};
ghost use Rattle.hm_isa.specs.declared.narrow.LogicName.{LogicName};
ghost use Rattle.hm_isa.specs.declared.narrow.AccessName.{AccessName};
ghost use Rattle.hm_isa.specs.declared.narrow.S1.{S1};
ghost use Rattle.hm_isa.specs.declared.narrow.S2.{S2};
ghost use Rattle.hm_isa.specs.declared.narrow.S3.{S3};
ghost use Rattle.hm_isa.specs.declared.narrow.S4.{S4};
ghost use Rattle.hm_isa.specs.declared.narrow.S5.{S5};
ghost use Rattle.hm_isa.specs.declared.narrow.S6.{S6};
ghost use Rattle.hm_isa.specs.declared.narrow.S7.{S7};
ghost use Rattle.hm_isa.specs.declared.narrow.S8.{S8};
ghost use Rattle.hm_isa.specs.declared.narrow.S9.{S9};
ghost use Rattle.hm_isa.specs.declared.narrow.S10.{S10};
ghost use Rattle.hm_isa.specs.declared.narrow.S11.{S11};
ghost use Rattle.hm_isa.specs.declared.narrow.S12.{S12};
ghost use Rattle.hm_isa.specs.declared.narrow.S13.{S13};
ghost use Rattle.hm_isa.specs.declared.narrow.S14.{S14};
ghost use Rattle.hm_isa.specs.declared.narrow.S15.{S15};
ghost use Rattle.hm_isa.specs.declared.narrow.S16.{S16};
ghost use Rattle.hm_isa.specs.declared.narrow.S17.{S17};
ghost use Rattle.hm_isa.specs.declared.narrow.S18.{S18};
ghost use Rattle.hm_isa.specs.declared.narrow.S19.{S19};
ghost use Rattle.hm_isa.specs.declared.narrow.S20.{S20};
ghost use Rattle.hm_isa.specs.declared.narrow.S21.{S21};
ghost use Rattle.hm_isa.specs.declared.narrow.S23.{S23};
ghost use Rattle.hm_isa.specs.declared.narrow.S24.{S24};
ghost use Rattle.hm_isa.specs.declared.narrow.S25.{S25};
ghost use Rattle.hm_isa.specs.declared.widths.NarrowRow.{NarrowRow};
ghost use Rattle.hm_isa.specs.Rules.{listed_in, keeps_list, keeps_it};
ghost use Rattle.hm_isa.specs.Code.{code_s1, code_s2, code_s3, code_s4, logic_base, code_s5, code_s6, code_s7, code_s8, code_s9, code_s10, code_s11, code_s12};
ghost use Rattle.hm_isa.specs.Code.{code_s13, code_s14, access_base, code_s15, code_s16, code_s17, code_s18, code_s19, code_s20, code_s21, code_s23, code_s24};
ghost use Rattle.hm_isa.specs.Code.{code_s25, halfwords, narrow_code};

use hm_isa::{
    AccessName, Always, BaseName, Below, Branch, ByteName, Conditional, ExtendName, HintName,
    Instr, JumpName, ListName, LogicName, MaskingName, PlainName, S1, S2, S3, S4, S5, S6, S7, S8,
    S9, S10, S11, S12, S13, S14, S15, S16, S17, S18, S19, S20, S21, S23, S24, S25, Scalar,
    ShiftName, SumName, SwapName, WordName, ZeroName,
};

/// `lsls`, `lsrs`, `asrs rd,rm,#i`
fn decode_s1(h: u16) -> Option<S1>
    ensures found { IfSome result (λ r. code_s1 r ≡ h) }
    ensures none { IfNone result ((r : S1) → code_s1 r ≡ h → ⊥) }
{
    let w = h as u32;
    let name = match w >> 11 {
        0b0_0000 => ShiftName::Lsl,
        0b0_0001 => ShiftName::Lsr,
        0b0_0010 => ShiftName::Asr,
        _ => return None,
    };
    Some(S1 {
        name,
        i: Below::new((w >> 6) & 31),
        m: Below::new((w >> 3) & 7),
        d: Below::new(w & 7),
    })
}

/// `adds`, `subs rd,rn,rm`
fn decode_s2(h: u16) -> Option<S2>
    ensures found { IfSome result (λ r. code_s2 r ≡ h) }
    ensures none { IfNone result ((r : S2) → code_s2 r ≡ h → ⊥) }
{
    let w = h as u32;
    let name = match w >> 9 {
        0b000_1100 => SumName::Add,
        0b000_1101 => SumName::Sub,
        _ => return None,
    };
    Some(S2 {
        name,
        m: Below::new((w >> 6) & 7),
        n: Below::new((w >> 3) & 7),
        d: Below::new(w & 7),
    })
}

/// `adds`, `subs rd,rn,#i`
fn decode_s3(h: u16) -> Option<S3>
    ensures found { IfSome result (λ r. code_s3 r ≡ h) }
    ensures none { IfNone result ((r : S3) → code_s3 r ≡ h → ⊥) }
{
    let w = h as u32;
    let name = match w >> 9 {
        0b000_1110 => SumName::Add,
        0b000_1111 => SumName::Sub,
        _ => return None,
    };
    Some(S3 {
        name,
        i: Below::new((w >> 6) & 7),
        n: Below::new((w >> 3) & 7),
        d: Below::new(w & 7),
    })
}

/// `movs`, `cmp`, `adds`, `subs rd,#i`
fn decode_s4(h: u16) -> Option<S4>
    ensures found { IfSome result (λ r. code_s4 r ≡ h) }
    ensures none { IfNone result ((r : S4) → code_s4 r ≡ h → ⊥) }
{
    let w = h as u32;
    let name = match w >> 11 {
        0b0_0100 => ByteName::Mov,
        0b0_0101 => ByteName::Cmp,
        0b0_0110 => ByteName::Add,
        0b0_0111 => ByteName::Sub,
        _ => return None,
    };
    Some(S4 {
        name,
        d: Below::new((w >> 8) & 7),
        i: Below::new(w & 255),
    })
}

/// The operation of the row S5 with these bits 15 to 6.
fn logic_name(high: u32) -> Option<LogicName>
    ensures found { IfSome result (λ x. logic_base x ≡ high * 2 ^ 6) }
    ensures none { IfNone result ((x : LogicName) → logic_base x ≡ high * 2 ^ 6 → ⊥) }
{
    match high {
        0b01_0000_0000 => Some(LogicName::Ands),
        0b01_0000_0001 => Some(LogicName::Eors),
        0b01_0000_0010 => Some(LogicName::Lsls),
        0b01_0000_0011 => Some(LogicName::Lsrs),
        0b01_0000_0100 => Some(LogicName::Asrs),
        0b01_0000_0101 => Some(LogicName::Adcs),
        0b01_0000_0110 => Some(LogicName::Sbcs),
        0b01_0000_0111 => Some(LogicName::Rors),
        0b01_0000_1000 => Some(LogicName::Tst),
        0b01_0000_1001 => Some(LogicName::Rsbs),
        0b01_0000_1010 => Some(LogicName::Cmp),
        0b01_0000_1011 => Some(LogicName::Cmn),
        0b01_0000_1100 => Some(LogicName::Orrs),
        0b01_0000_1101 => Some(LogicName::Muls),
        0b01_0000_1110 => Some(LogicName::Bics),
        0b01_0000_1111 => Some(LogicName::Mvns),
        _ => None,
    }
}

/// `ands`, `eors`, `lsls`, `lsrs`, `asrs`, `adcs`, `sbcs`, `rors`, `tst`, `rsbs`, `cmp`, `cmn`, `orrs`, `muls`, `bics` or `mvns` of two registers
fn decode_s5(h: u16) -> Option<S5>
    ensures found { IfSome result (λ r. code_s5 r ≡ h) }
    ensures none { IfNone result ((r : S5) → code_s5 r ≡ h → ⊥) }
{
    let w = h as u32;
    let name = logic_name(w >> 6)?;
    Some(S5 {
        name,
        m: Below::new((w >> 3) & 7),
        d: Below::new(w & 7),
    })
}

/// `add rd,rm` of any registers but pc twice
fn decode_s6(h: u16) -> Option<S6>
    ensures found { IfSome result (λ r. code_s6 r ≡ h) }
    ensures none { IfNone result ((r : S6) → code_s6 r ≡ h → ⊥) }
{
    let w = h as u32;
    let d = ((w >> 7) & 1) * 8 + (w & 7);
    let m = (w >> 3) & 15;
    if w >> 8 != 0b0100_0100 || (d == 15 && m == 15) {
        return None;
    }
    Some(S6 {
        d: Below::new(d),
        m: Below::new(m),
    })
}

/// `cmp rd,rm` of registers one of which is r8 or higher, and none pc
fn decode_s7(h: u16) -> Option<S7>
    ensures found { IfSome result (λ r. code_s7 r ≡ h) }
    ensures none { IfNone result ((r : S7) → code_s7 r ≡ h → ⊥) }
{
    let w = h as u32;
    let d = ((w >> 7) & 1) * 8 + (w & 7);
    let m = (w >> 3) & 15;
    if w >> 8 != 0b0100_0101 || (d < 8 && m < 8) || d == 15 || m == 15 {
        return None;
    }
    Some(S7 {
        d: Below::new(d),
        m: Below::new(m),
    })
}

/// `mov rd,rm` of any registers
fn decode_s8(h: u16) -> Option<S8>
    ensures found { IfSome result (λ r. code_s8 r ≡ h) }
    ensures none { IfNone result ((r : S8) → code_s8 r ≡ h → ⊥) }
{
    let w = h as u32;
    if w >> 8 != 0b0100_0110 {
        return None;
    }
    Some(S8 {
        d: Below::new(((w >> 7) & 1) * 8 + (w & 7)),
        m: Below::new((w >> 3) & 15),
    })
}

/// `add rd,pc,#4i`, `add rd,sp,#4i`
fn decode_s9(h: u16) -> Option<S9>
    ensures found { IfSome result (λ r. code_s9 r ≡ h) }
    ensures none { IfNone result ((r : S9) → code_s9 r ≡ h → ⊥) }
{
    let w = h as u32;
    let name = match w >> 11 {
        0b1_0100 => BaseName::Pc,
        0b1_0101 => BaseName::Sp,
        _ => return None,
    };
    Some(S9 {
        name,
        d: Below::new((w >> 8) & 7),
        i: Below::new(w & 255),
    })
}

/// `add sp,#4i`, `sub sp,#4i`
fn decode_s10(h: u16) -> Option<S10>
    ensures found { IfSome result (λ r. code_s10 r ≡ h) }
    ensures none { IfNone result ((r : S10) → code_s10 r ≡ h → ⊥) }
{
    let name = match h >> 7 {
        0b1_0110_0000 => SumName::Add,
        0b1_0110_0001 => SumName::Sub,
        _ => return None,
    };
    Some(S10 {
        name,
        i: Below::new(h as u32 & 127),
    })
}

/// `sxth`, `sxtb`, `uxth`, `uxtb rd,rm`
fn decode_s11(h: u16) -> Option<S11>
    ensures found { IfSome result (λ r. code_s11 r ≡ h) }
    ensures none { IfNone result ((r : S11) → code_s11 r ≡ h → ⊥) }
{
    let w = h as u32;
    let name = match w >> 6 {
        0b10_1100_1000 => ExtendName::Sxth,
        0b10_1100_1001 => ExtendName::Sxtb,
        0b10_1100_1010 => ExtendName::Uxth,
        0b10_1100_1011 => ExtendName::Uxtb,
        _ => return None,
    };
    Some(S11 {
        name,
        m: Below::new((w >> 3) & 7),
        d: Below::new(w & 7),
    })
}

/// `rev`, `rev16`, `revsh rd,rm`
fn decode_s12(h: u16) -> Option<S12>
    ensures found { IfSome result (λ r. code_s12 r ≡ h) }
    ensures none { IfNone result ((r : S12) → code_s12 r ≡ h → ⊥) }
{
    let w = h as u32;
    let name = match w >> 6 {
        0b10_1110_1000 => SwapName::Rev,
        0b10_1110_1001 => SwapName::Rev16,
        0b10_1110_1011 => SwapName::Revsh,
        _ => return None,
    };
    Some(S12 {
        name,
        m: Below::new((w >> 3) & 7),
        d: Below::new(w & 7),
    })
}

/// `cpsie i`, `cpsid i`
fn decode_s13(h: u16) -> Option<S13>
    ensures found { IfSome result (λ r. code_s13 r ≡ h) }
    ensures none { IfNone result ((r : S13) → code_s13 r ≡ h → ⊥) }
{
    let name = match h {
        0b1011_0110_0110_0010 => MaskingName::Cpsie,
        0b1011_0110_0111_0010 => MaskingName::Cpsid,
        _ => return None,
    };
    Some(S13 { name })
}

/// `ldr rt,label`
fn decode_s14(h: u16) -> Option<S14>
    ensures found { IfSome result (λ r. code_s14 r ≡ h) }
    ensures none { IfNone result ((r : S14) → code_s14 r ≡ h → ⊥) }
{
    let w = h as u32;
    if w >> 11 != 0b0_1001 {
        return None;
    }
    Some(S14 {
        t: Below::new((w >> 8) & 7),
        i: Below::new(w & 255),
    })
}

/// The operation of the row S15 with these bits 15 to 9.
fn access_name(high: u32) -> Option<AccessName>
    ensures found { IfSome result (λ x. access_base x ≡ high * 2 ^ 9) }
    ensures none { IfNone result ((x : AccessName) → access_base x ≡ high * 2 ^ 9 → ⊥) }
{
    match high {
        0b010_1000 => Some(AccessName::Str),
        0b010_1001 => Some(AccessName::Strh),
        0b010_1010 => Some(AccessName::Strb),
        0b010_1011 => Some(AccessName::Ldrsb),
        0b010_1100 => Some(AccessName::Ldr),
        0b010_1101 => Some(AccessName::Ldrh),
        0b010_1110 => Some(AccessName::Ldrb),
        0b010_1111 => Some(AccessName::Ldrsh),
        _ => None,
    }
}

/// `str`, `strh`, `strb`, `ldrsb`, `ldr`, `ldrh`, `ldrb` or `ldrsh` with `rt,[rn,rm]`
fn decode_s15(h: u16) -> Option<S15>
    ensures found { IfSome result (λ r. code_s15 r ≡ h) }
    ensures none { IfNone result ((r : S15) → code_s15 r ≡ h → ⊥) }
{
    let w = h as u32;
    let name = access_name(w >> 9)?;
    Some(S15 {
        name,
        m: Below::new((w >> 6) & 7),
        n: Below::new((w >> 3) & 7),
        t: Below::new(w & 7),
    })
}

/// `str`, `ldr`, `strb`, `ldrb`, `strh` or `ldrh` with `rt,[rn,#i]`
fn decode_s16(h: u16) -> Option<S16>
    ensures found { IfSome result (λ r. code_s16 r ≡ h) }
    ensures none { IfNone result ((r : S16) → code_s16 r ≡ h → ⊥) }
{
    let w = h as u32;
    let name = match w >> 11 {
        0b0_1100 => PlainName::Str,
        0b0_1101 => PlainName::Ldr,
        0b0_1110 => PlainName::Strb,
        0b0_1111 => PlainName::Ldrb,
        0b1_0000 => PlainName::Strh,
        0b1_0001 => PlainName::Ldrh,
        _ => return None,
    };
    Some(S16 {
        name,
        i: Below::new((w >> 6) & 31),
        n: Below::new((w >> 3) & 7),
        t: Below::new(w & 7),
    })
}

/// `str`, `ldr rt,[sp,#4i]`
fn decode_s17(h: u16) -> Option<S17>
    ensures found { IfSome result (λ r. code_s17 r ≡ h) }
    ensures none { IfNone result ((r : S17) → code_s17 r ≡ h → ⊥) }
{
    let w = h as u32;
    let name = match w >> 11 {
        0b1_0010 => WordName::Str,
        0b1_0011 => WordName::Ldr,
        _ => return None,
    };
    Some(S17 {
        name,
        t: Below::new((w >> 8) & 7),
        i: Below::new(w & 255),
    })
}

/// `bkpt #i`
fn decode_s18(h: u16) -> Option<S18>
    ensures found { IfSome result (λ r. code_s18 r ≡ h) }
    ensures none { IfNone result ((r : S18) → code_s18 r ≡ h → ⊥) }
{
    if h >> 8 != 0b1011_1110 {
        return None;
    }
    Some(S18 {
        i: Below::new(h as u32 & 255),
    })
}

/// `nop`, `yield`, `wfe`, `wfi`, `sev`
fn decode_s19(h: u16) -> Option<S19>
    ensures found { IfSome result (λ r. code_s19 r ≡ h) }
    ensures none { IfNone result ((r : S19) → code_s19 r ≡ h → ⊥) }
{
    let name = match h {
        0b1011_1111_0000_0000 => HintName::Nop,
        0b1011_1111_0001_0000 => HintName::Yield,
        0b1011_1111_0010_0000 => HintName::Wfe,
        0b1011_1111_0011_0000 => HintName::Wfi,
        0b1011_1111_0100_0000 => HintName::Sev,
        _ => return None,
    };
    Some(S19 { name })
}

/// Whether register n is not in a list, or is its lowest.
fn is_lowest(list: u32, n: u32) -> bool
    requires { n < 8 }
    ensures { result ≡ (not (listed_in list n) || nat_eq (list % 2 ^ n) 0) }
{
    (list >> n) % 2 == 0 || list % (1 << n) == 0
}

/// Whether the row S20 has a list of these letters.
fn is_list(name: ListName, x: u32, n: u32, list: u32) -> bool
    requires n { n < 8 }
    requires list { list < 256 }
    requires x { x < 2 }
    ensures { result ≡ keeps_list name x n list }
{
    match name {
        ListName::Push | ListName::Pop => list + x > 0 && n == 0,
        ListName::Stm => list > 0 && x == 0 && is_lowest(list, n),
        ListName::Ldm => list > 0 && x == 0,
    }
}

/// `push`, `pop`, `stm`, `ldm`
fn decode_s20(h: u16) -> Option<S20>
    ensures found { IfSome result (λ r. code_s20 r ≡ h) }
    ensures none { IfNone result ((r : S20) → code_s20 r ≡ h → ⊥) }
{
    let w = h as u32;
    let list = w & 255;
    let (name, x, n) = match w >> 9 {
        0b101_1010 => (ListName::Push, (w >> 8) & 1, 0),
        0b101_1110 => (ListName::Pop, (w >> 8) & 1, 0),
        0b110_0000..=0b110_0011 => (ListName::Stm, 0, (w >> 8) & 7),
        0b110_0100..=0b110_0111 => (ListName::Ldm, 0, (w >> 8) & 7),
        _ => return None,
    };
    if !is_list(name, x, n, list) {
        return None;
    }
    Some(S20 {
        name,
        x: Below::new(x),
        n: Below::new(n),
        list: Below::new(list),
    })
}

/// Whether the row S21 has this condition and mask.
fn is_block(c: u32, mask: u32) -> bool
    ensures { result ≡ keeps_it c mask }
{
    mask > 0 && (c != 14 || mask == 8 || mask == 4 || mask == 2 || mask == 1)
}

/// `it`
fn decode_s21(h: u16) -> Option<S21>
    ensures found { IfSome result (λ r. code_s21 r ≡ h) }
    ensures none { IfNone result ((r : S21) → code_s21 r ≡ h → ⊥) }
{
    let c = (h as u32 >> 4) & 15;
    let mask = h as u32 & 15;
    if h >> 8 != 0b1011_1111 || c == 15 {
        return None;
    }
    if !is_block(c, mask) {
        return None;
    }
    Some(S21 {
        c: Below::new(c),
        mask: Below::new(mask),
    })
}

/// `bx`, `blx rm`
fn decode_s23(h: u16) -> Option<S23>
    ensures found { IfSome result (λ r. code_s23 r ≡ h) }
    ensures none { IfNone result ((r : S23) → code_s23 r ≡ h → ⊥) }
{
    let m = (h as u32 >> 3) & 15;
    if h & 7 != 0 || m == 13 || m == 15 {
        return None;
    }
    let name = match h >> 7 {
        0b0_1000_1110 => JumpName::Bx,
        0b0_1000_1111 => JumpName::Blx,
        _ => return None,
    };
    Some(S23 {
        name,
        m: Below::new(m),
    })
}

/// `cbz`, `cbnz rn,label`
fn decode_s24(h: u16) -> Option<S24>
    ensures found { IfSome result (λ r. code_s24 r ≡ h) }
    ensures none { IfNone result ((r : S24) → code_s24 r ≡ h → ⊥) }
{
    let w = h as u32;
    let name = match w >> 10 {
        0b10_1100 => ZeroName::Cbz,
        0b10_1110 => ZeroName::Cbnz,
        _ => return None,
    };
    if (w >> 8) & 1 == 0 {
        return None;
    }
    Some(S24 {
        name,
        i: Below::new(((w >> 9) & 1) * 32 + ((w >> 3) & 31)),
        n: Below::new(w & 7),
    })
}

/// `b label` under a condition or none
fn decode_s25(h: u16) -> Option<S25>
    ensures found { IfSome result (λ r. code_s25 r ≡ h) }
    ensures none { IfNone result ((r : S25) → code_s25 r ≡ h → ⊥) }
{
    let w = h as u32;
    if w >> 11 == 0b1_1100 {
        return Some(S25::Always(Always {
            i: Below::new(w & 2047),
        }));
    }
    let c = (w >> 8) & 15;
    if w >> 12 != 0b1101 || c >= 14 {
        return None;
    }
    Some(S25::Conditional(Conditional {
        c: Below::new(c),
        i: Below::new(w & 255),
    }))
}

/// The branch whose code is h, or None where none has it.
fn find_branch(h: u16) -> Option<Instr>
    ensures found { IfSome result (λ i. halfwords i ≡ h ∷ []) }
    ensures no_s23 { IfNone result ((r : S23) → code_s23 r ≡ h → ⊥) }
    ensures no_s24 { IfNone result ((r : S24) → code_s24 r ≡ h → ⊥) }
    ensures no_s25 { IfNone result ((r : S25) → code_s25 r ≡ h → ⊥) }
{
    if let Some(r) = decode_s23(h) {
        return Some(Instr::Branch(Branch::S23(r)));
    }
    if let Some(r) = decode_s24(h) {
        return Some(Instr::Branch(Branch::S24(r)));
    }
    if let Some(r) = decode_s25(h) {
        return Some(Instr::Branch(Branch::S25(r)));
    }
    None
}

/// The instruction whose code is h, or None where none has it.
pub fn find(h: u16) -> Option<Instr>
    ensures found { IfSome result (λ i. halfwords i ≡ h ∷ []) }
    ensures none { IfNone result ((r : NarrowRow) → narrow_code r ≡ h → ⊥) }
{
    if let Some(r) = decode_s1(h) {
        return Some(Instr::Scalar(Scalar::S1(r)));
    }
    if let Some(r) = decode_s2(h) {
        return Some(Instr::Scalar(Scalar::S2(r)));
    }
    if let Some(r) = decode_s3(h) {
        return Some(Instr::Scalar(Scalar::S3(r)));
    }
    if let Some(r) = decode_s4(h) {
        return Some(Instr::Scalar(Scalar::S4(r)));
    }
    if let Some(r) = decode_s5(h) {
        return Some(Instr::Scalar(Scalar::S5(r)));
    }
    if let Some(r) = decode_s6(h) {
        return Some(Instr::Scalar(Scalar::S6(r)));
    }
    if let Some(r) = decode_s7(h) {
        return Some(Instr::Scalar(Scalar::S7(r)));
    }
    if let Some(r) = decode_s8(h) {
        return Some(Instr::Scalar(Scalar::S8(r)));
    }
    if let Some(r) = decode_s9(h) {
        return Some(Instr::Scalar(Scalar::S9(r)));
    }
    if let Some(r) = decode_s10(h) {
        return Some(Instr::Scalar(Scalar::S10(r)));
    }
    if let Some(r) = decode_s11(h) {
        return Some(Instr::Scalar(Scalar::S11(r)));
    }
    if let Some(r) = decode_s12(h) {
        return Some(Instr::Scalar(Scalar::S12(r)));
    }
    if let Some(r) = decode_s13(h) {
        return Some(Instr::Scalar(Scalar::S13(r)));
    }
    if let Some(r) = decode_s14(h) {
        return Some(Instr::Scalar(Scalar::S14(r)));
    }
    if let Some(r) = decode_s15(h) {
        return Some(Instr::Scalar(Scalar::S15(r)));
    }
    if let Some(r) = decode_s16(h) {
        return Some(Instr::Scalar(Scalar::S16(r)));
    }
    if let Some(r) = decode_s17(h) {
        return Some(Instr::Scalar(Scalar::S17(r)));
    }
    if let Some(r) = decode_s18(h) {
        return Some(Instr::Scalar(Scalar::S18(r)));
    }
    if let Some(r) = decode_s19(h) {
        return Some(Instr::Scalar(Scalar::S19(r)));
    }
    if let Some(r) = decode_s20(h) {
        return Some(Instr::Scalar(Scalar::S20(r)));
    }
    if let Some(r) = decode_s21(h) {
        return Some(Instr::Scalar(Scalar::S21(r)));
    }
    if let Some(i) = find_branch(h) {
        return Some(i);
    }
    None
}
