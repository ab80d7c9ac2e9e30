//! The rows of 16-bit codes, written.

ghost use Rattle.std.specs.Prelude.{◌≡◌};
ghost use Rattle.hm_isa.specs.Code.{shift_base, sum_base, byte_base, logic_base, address_base, stack_sum_base, extend_base, swap_base, access_base, plain_base};
ghost use Rattle.hm_isa.specs.Code.{word_base, list_base, masking_base, hint_base, jump_base, zero_base, code_s1, code_s2, code_s3, code_s4, code_s5};
ghost use Rattle.hm_isa.specs.Code.{code_s6, code_s7, code_s8, code_s9, code_s10, code_s11, code_s12, code_s13, code_s14, code_s15, code_s16};
ghost use Rattle.hm_isa.specs.Code.{code_s17, code_s18, code_s19, code_s20, code_s21, code_s23, code_s24, code_s25, narrow_code};

use hm_isa::{
    AccessName, BaseName, ByteName, ExtendName, HintName, JumpName, ListName, LogicName,
    MaskingName, NarrowRow, PlainName, S1, S2, S3, S4, S5, S6, S7, S8, S9, S10, S11, S12, S13, S14,
    S15, S16, S17, S18, S19, S20, S21, S23, S24, S25, ShiftName, SumName, SwapName, WordName,
    ZeroName,
};

/// The code of a name of the row S1 without its fields.
pub fn base_of_shift(name: ShiftName) -> u32
    ensures value { result ≡ shift_base name }
{
    match name {
        ShiftName::Lsl => 0x0000,
        ShiftName::Lsr => 0x0800,
        ShiftName::Asr => 0x1000,
    }
}

/// The code of `lsls`, `lsrs`, `asrs rd,rm,#i`.
fn encode_s1(r: &S1) -> u16
    ensures { result ≡ code_s1 r.now }
{
    (base_of_shift(r.name) + (r.i.get() << 6) + (r.m.get() << 3) + r.d.get()) as u16
}

/// The code of a name of the row S2 without its fields.
pub fn base_of_sum(name: SumName) -> u32
    ensures value { result ≡ sum_base name }
{
    match name {
        SumName::Add => 0x1800,
        SumName::Sub => 0x1a00,
    }
}

/// The code of `adds`, `subs rd,rn,rm`.
fn encode_s2(r: &S2) -> u16
    ensures { result ≡ code_s2 r.now }
{
    (base_of_sum(r.name) + (r.m.get() << 6) + (r.n.get() << 3) + r.d.get()) as u16
}

/// The code of `adds`, `subs rd,rn,#i`.
fn encode_s3(r: &S3) -> u16
    ensures { result ≡ code_s3 r.now }
{
    (base_of_sum(r.name) + 0x0400 + (r.i.get() << 6) + (r.n.get() << 3) + r.d.get()) as u16
}

/// The code of a name of the row S4 without its fields.
pub fn base_of_byte(name: ByteName) -> u32
    ensures value { result ≡ byte_base name }
{
    match name {
        ByteName::Mov => 0x2000,
        ByteName::Cmp => 0x2800,
        ByteName::Add => 0x3000,
        ByteName::Sub => 0x3800,
    }
}

/// The code of `movs`, `cmp`, `adds`, `subs rd,#i`.
fn encode_s4(r: &S4) -> u16
    ensures { result ≡ code_s4 r.now }
{
    (base_of_byte(r.name) + (r.d.get() << 8) + r.i.get()) as u16
}

/// The code of a name of the row S5 without its fields.
pub fn base_of_logic(name: LogicName) -> u32
    ensures value { result ≡ logic_base name }
{
    0x4000 + ((name as u32) << 6)
}

/// The code of `ands`, `eors`, `lsls`, `lsrs`, `asrs`, `adcs`, `sbcs`, `rors`, `tst`, `rsbs`, `cmp`, `cmn`, `orrs`, `muls`, `bics` or `mvns` of two
/// registers.
fn encode_s5(r: &S5) -> u16
    ensures { result ≡ code_s5 r.now }
{
    (base_of_logic(r.name) + (r.m.get() << 3) + r.d.get()) as u16
}

/// The code of `add rd,rm` of any registers.
fn encode_s6(r: &S6) -> u16
    ensures { result ≡ code_s6 r.now }
{
    let d = r.d.get();
    (0x4400 + ((d / 8) << 7) + (r.m.get() << 3) + d % 8) as u16
}

/// The code of `cmp rd,rm`, one of them r8 or higher.
fn encode_s7(r: &S7) -> u16
    ensures { result ≡ code_s7 r.now }
{
    let d = r.d.get();
    (0x4500 + ((d / 8) << 7) + (r.m.get() << 3) + d % 8) as u16
}

/// The code of `mov rd,rm` of any registers.
fn encode_s8(r: &S8) -> u16
    ensures { result ≡ code_s8 r.now }
{
    let d = r.d.get();
    (0x4600 + ((d / 8) << 7) + (r.m.get() << 3) + d % 8) as u16
}

/// The code of a name of the row S9 without its fields.
pub fn base_of_address(name: BaseName) -> u32
    ensures value { result ≡ address_base name }
{
    match name {
        BaseName::Pc => 0xa000,
        BaseName::Sp => 0xa800,
    }
}

/// The code of `add rd,pc,#4i`, `add rd,sp,#4i`.
fn encode_s9(r: &S9) -> u16
    ensures { result ≡ code_s9 r.now }
{
    (base_of_address(r.name) + (r.d.get() << 8) + r.i.get()) as u16
}

/// The code of a name of the row S10 without its fields.
pub fn base_of_stack_sum(name: SumName) -> u32
    ensures value { result ≡ stack_sum_base name }
{
    match name {
        SumName::Add => 0xb000,
        SumName::Sub => 0xb080,
    }
}

/// The code of `add sp,#4i`, `sub sp,#4i`.
fn encode_s10(r: &S10) -> u16
    ensures { result ≡ code_s10 r.now }
{
    (base_of_stack_sum(r.name) + r.i.get()) as u16
}

/// The code of a name of the row S11 without its fields.
pub fn base_of_extend(name: ExtendName) -> u32
    ensures value { result ≡ extend_base name }
{
    0xb200 + ((name as u32) << 6)
}

/// The code of `sxth`, `sxtb`, `uxth`, `uxtb`.
fn encode_s11(r: &S11) -> u16
    ensures { result ≡ code_s11 r.now }
{
    (base_of_extend(r.name) + (r.m.get() << 3) + r.d.get()) as u16
}

/// The code of a name of the row S12 without its fields.
pub fn base_of_swap(name: SwapName) -> u32
    ensures value { result ≡ swap_base name }
{
    match name {
        SwapName::Rev => 0xba00,
        SwapName::Rev16 => 0xba40,
        SwapName::Revsh => 0xbac0,
    }
}

/// The code of `rev`, `rev16`, `revsh`.
fn encode_s12(r: &S12) -> u16
    ensures { result ≡ code_s12 r.now }
{
    (base_of_swap(r.name) + (r.m.get() << 3) + r.d.get()) as u16
}

/// The code of a name of the row S13, which has no fields.
pub fn base_of_masking(name: MaskingName) -> u32
    ensures value { result ≡ masking_base name }
{
    match name {
        MaskingName::Cpsie => 0xb662,
        MaskingName::Cpsid => 0xb672,
    }
}

/// The code of `cpsie i`, `cpsid i`.
fn encode_s13(r: &S13) -> u16
    ensures { result ≡ code_s13 r.now }
{
    base_of_masking(r.name) as u16
}

/// The code of `ldr rt,label`.
fn encode_s14(r: &S14) -> u16
    ensures { result ≡ code_s14 r.now }
{
    (0x4800 + (r.t.get() << 8) + r.i.get()) as u16
}

/// The code of a name of the row S15 without its fields.
pub fn base_of_access(name: AccessName) -> u32
    ensures value { result ≡ access_base name }
{
    0x5000 + ((name as u32) << 9)
}

/// The code of `str`, `strh`, `strb`, `ldrsb`, `ldr`, `ldrh`, `ldrb` or `ldrsh` with `rt,[rn,rm]`.
fn encode_s15(r: &S15) -> u16
    ensures { result ≡ code_s15 r.now }
{
    (base_of_access(r.name) + (r.m.get() << 6) + (r.n.get() << 3) + r.t.get()) as u16
}

/// The code of a name of the row S16 without its fields.
pub fn base_of_plain(name: PlainName) -> u32
    ensures value { result ≡ plain_base name }
{
    0x6000 + ((name as u32) << 11)
}

/// The code of `str`, `ldr`, `strb`, `ldrb`, `strh` or `ldrh` with `rt,[rn,#i]`.
fn encode_s16(r: &S16) -> u16
    ensures { result ≡ code_s16 r.now }
{
    (base_of_plain(r.name) + (r.i.get() << 6) + (r.n.get() << 3) + r.t.get()) as u16
}

/// The code of a name of the row S17 without its fields.
pub fn base_of_word(name: WordName) -> u32
    ensures value { result ≡ word_base name }
{
    match name {
        WordName::Str => 0x9000,
        WordName::Ldr => 0x9800,
    }
}

/// The code of `str`, `ldr rt,[sp,#4i]`.
fn encode_s17(r: &S17) -> u16
    ensures { result ≡ code_s17 r.now }
{
    (base_of_word(r.name) + (r.t.get() << 8) + r.i.get()) as u16
}

/// The code of `bkpt #i`.
fn encode_s18(r: &S18) -> u16
    ensures { result ≡ code_s18 r.now }
{
    0xbe00 + r.i.get() as u16
}

/// The code of a name of the row S19, which has no fields.
pub fn base_of_hint(name: HintName) -> u32
    ensures value { result ≡ hint_base name }
{
    0xbf00 + ((name as u32) << 4)
}

/// The code of `nop`, `yield`, `wfe`, `wfi`, `sev`.
fn encode_s19(r: &S19) -> u16
    ensures { result ≡ code_s19 r.now }
{
    base_of_hint(r.name) as u16
}

/// The code of a name of the row S20 without its fields.
pub fn base_of_list(name: ListName) -> u32
    ensures value { result ≡ list_base name }
{
    match name {
        ListName::Push => 0xb400,
        ListName::Pop => 0xbc00,
        ListName::Stm => 0xc000,
        ListName::Ldm => 0xc800,
    }
}

/// The code of `push`, `pop`, `stm`, `ldm`.
fn encode_s20(r: &S20) -> u16
    ensures { result ≡ code_s20 r.now }
{
    (base_of_list(r.name) + (r.x.get() << 8) + (r.n.get() << 8) + r.list.get()) as u16
}

/// The code of `it`.
fn encode_s21(r: &S21) -> u16
    ensures { result ≡ code_s21 r.now }
{
    (0xbf00 + (r.c.get() << 4) + r.mask.get()) as u16
}

/// The code of a name of the row S23 without its fields.
pub fn base_of_jump(name: JumpName) -> u32
    ensures value { result ≡ jump_base name }
{
    match name {
        JumpName::Bx => 0x4700,
        JumpName::Blx => 0x4780,
    }
}

/// The code of `bx`, `blx rm`.
fn encode_s23(r: &S23) -> u16
    ensures { result ≡ code_s23 r.now }
{
    (base_of_jump(r.name) + (r.m.get() << 3)) as u16
}

/// The code of a name of the row S24 without its fields.
pub fn base_of_zero(name: ZeroName) -> u32
    ensures value { result ≡ zero_base name }
{
    match name {
        ZeroName::Cbz => 0xb100,
        ZeroName::Cbnz => 0xb900,
    }
}

/// The code of `cbz`, `cbnz rn,label`.
fn encode_s24(r: &S24) -> u16
    ensures { result ≡ code_s24 r.now }
{
    let i = r.i.get();
    (base_of_zero(r.name) + ((i / 32) << 9) + ((i % 32) << 3) + r.n.get()) as u16
}

/// The code of a branch of one halfword: under a condition, as `beq label`, or `b label`.
fn encode_s25(r: &S25) -> u16
    ensures { result ≡ code_s25 r.now }
{
    match r {
        S25::Conditional(r) => (0xd000 + (r.c.get() << 8) + r.i.get()) as u16,
        S25::Always(r) => (0xe000 + r.i.get()) as u16,
    }
}

/// The code of a row of one halfword.
pub fn narrow_code(r: &NarrowRow) -> u16
    ensures { result ≡ narrow_code r.now }
{
    match r {
        NarrowRow::S1(r) => encode_s1(r),
        NarrowRow::S2(r) => encode_s2(r),
        NarrowRow::S3(r) => encode_s3(r),
        NarrowRow::S4(r) => encode_s4(r),
        NarrowRow::S5(r) => encode_s5(r),
        NarrowRow::S6(r) => encode_s6(r),
        NarrowRow::S7(r) => encode_s7(r),
        NarrowRow::S8(r) => encode_s8(r),
        NarrowRow::S9(r) => encode_s9(r),
        NarrowRow::S10(r) => encode_s10(r),
        NarrowRow::S11(r) => encode_s11(r),
        NarrowRow::S12(r) => encode_s12(r),
        NarrowRow::S13(r) => encode_s13(r),
        NarrowRow::S14(r) => encode_s14(r),
        NarrowRow::S15(r) => encode_s15(r),
        NarrowRow::S16(r) => encode_s16(r),
        NarrowRow::S17(r) => encode_s17(r),
        NarrowRow::S18(r) => encode_s18(r),
        NarrowRow::S19(r) => encode_s19(r),
        NarrowRow::S20(r) => encode_s20(r),
        NarrowRow::S21(r) => encode_s21(r),
        NarrowRow::S23(r) => encode_s23(r),
        NarrowRow::S24(r) => encode_s24(r),
        NarrowRow::S25(r) => encode_s25(r),
    }
}
