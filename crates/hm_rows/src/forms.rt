//! The forms of the rows that touch registers alone.

ghost use Rattle.std.specs.Prelude.{◌≡◌, ◌<◌};
ghost use Rattle.hm_forms.specs.declared.form.Form.TheVariants as form;
ghost use Rattle.hm_isa.specs.declared.Vector.TheVariants as vector;
ghost use Rattle.hm_isa.specs.declared.vectors.V22.TheVariants as v22;
ghost use Rattle.hm_rows.specs.Rows.{Registers, add_fn, bitwise_fn, compare_form, constant_shift_fn, doubling_fn, high_fn, kind_of, long_form, offsets_form};
ghost use Rattle.hm_rows.specs.Rows.{one_fn, one_form, predicate_form, scalar_fn, shift_operand, shift_unsigned, signed_fn, sum_form};
ghost use Rattle.hm_rows.specs.Rows.{vector_shift_fn};

use hm_forms::{Comparison, Form, Lanes, LongSums, Steps, Sums, Terms, Widening};
use hm_isa::{
    AddName, BitwiseName, ConstantShiftName, DoublingName, HighName, LongDot, LongSum, OneName,
    QRegister, ScalarName, SignedName, V1, V2, V3, V4, V5, V7, V10, V11, V12, V13, V18, V19, V20,
    V21, V22, VectorShiftName,
};
use hm_lane::Size;
use hm_lane_fns::{LaneFn, Operand, element_size, size};

/// A row on lanes.
fn lanes(f: LaneFn, unsigned: bool, z: Size, d: QRegister, n: QRegister, by: Operand) -> Form
    ensures { result ≡ form.Lanes (record { f = f; unsigned = unsigned; z = z; d = d; n = n; by = by }) }
{
    Form::Lanes(Lanes {
        f,
        unsigned,
        z,
        d,
        n,
        by,
    })
}

/// The function of a row V1.
fn add_fn(name: AddName) -> LaneFn
    ensures { result ≡ add_fn name }
{
    match name {
        AddName::Add => LaneFn::Add,
        AddName::Sub => LaneFn::Sub,
        AddName::Mul => LaneFn::Mul,
    }
}

/// The function of a row V2.
fn bitwise_fn(name: BitwiseName) -> LaneFn
    ensures { result ≡ bitwise_fn name }
{
    match name {
        BitwiseName::And => LaneFn::And,
        BitwiseName::Bic => LaneFn::Bic,
        BitwiseName::Orr => LaneFn::Orr,
        BitwiseName::Orn => LaneFn::Orn,
        BitwiseName::Eor => LaneFn::Eor,
    }
}

/// The function of a row V3.
fn signed_fn(name: SignedName) -> LaneFn
    ensures { result ≡ signed_fn name }
{
    match name {
        SignedName::Max => LaneFn::Max,
        SignedName::Min => LaneFn::Min,
        SignedName::Abd => LaneFn::Abd,
        SignedName::Hadd => LaneFn::Hadd,
        SignedName::Rhadd => LaneFn::Rhadd,
        SignedName::Hsub => LaneFn::Hsub,
        SignedName::Qadd => LaneFn::Qadd,
        SignedName::Qsub => LaneFn::Qsub,
    }
}

/// The function of a row V4.
fn vector_shift_fn(name: VectorShiftName) -> LaneFn
    ensures { result ≡ vector_shift_fn name }
{
    match name {
        VectorShiftName::Shl => LaneFn::Shl,
        VectorShiftName::Qshl => LaneFn::Qshl,
        VectorShiftName::Rshl => LaneFn::Rshl,
        VectorShiftName::Qrshl => LaneFn::Qrshl,
    }
}

/// The function of a row V11.
fn constant_shift_fn(name: ConstantShiftName) -> LaneFn
    ensures { result ≡ constant_shift_fn name }
{
    match name {
        ConstantShiftName::Shr | ConstantShiftName::Shl => LaneFn::Shl,
        ConstantShiftName::Rshr => LaneFn::Rshl,
        ConstantShiftName::Qshl => LaneFn::Qshl,
        ConstantShiftName::Qshlu => LaneFn::Qshlu,
        ConstantShiftName::Sri => LaneFn::Sri,
        ConstantShiftName::Sli => LaneFn::Sli,
    }
}

/// What each lane is shifted by: a shift to the right by k is one by -k as a byte, but that of `vsri`.
fn shift_operand(row: &V11) -> u32
    ensures { result ≡ shift_operand row.now.name row.now.x.value }
{
    match row.name {
        ConstantShiftName::Shr | ConstantShiftName::Rshr => 256 - row.amount(),
        _ => row.amount(),
    }
}

/// Whether the range of the results of a row V11 has no sign.
fn shift_unsigned(name: ConstantShiftName, u: u32) -> bool
    ensures { result ≡ shift_unsigned name u }
{
    match name {
        ConstantShiftName::Qshlu => true,
        _ => u == 1,
    }
}

/// The function of a row V5.
fn doubling_fn(name: DoublingName) -> LaneFn
    ensures { result ≡ doubling_fn name }
{
    match name {
        DoublingName::Qdmulh => LaneFn::Qdmulh,
        DoublingName::Qrdmulh => LaneFn::Qrdmulh,
    }
}

/// The function of a row V7.
fn high_fn(name: HighName, unsigned: bool) -> LaneFn
    ensures { result ≡ high_fn name unsigned }
{
    match (name, unsigned) {
        (HighName::Mulh, false) => LaneFn::High,
        (HighName::Mulh, true) => LaneFn::HighUnsigned,
        (HighName::Rmulh, false) => LaneFn::RoundHigh,
        (HighName::Rmulh, true) => LaneFn::RoundHighUnsigned,
    }
}

/// The function of a row V10.
fn scalar_fn(name: ScalarName) -> LaneFn
    ensures { result ≡ scalar_fn name }
{
    match name {
        ScalarName::Add => LaneFn::Add,
        ScalarName::Sub => LaneFn::Sub,
        ScalarName::Mul => LaneFn::Mul,
        ScalarName::Hadd => LaneFn::Hadd,
        ScalarName::Hsub => LaneFn::Hsub,
        ScalarName::Qadd => LaneFn::Qadd,
        ScalarName::Qsub => LaneFn::Qsub,
        ScalarName::Qdmulh => LaneFn::Qdmulh,
        ScalarName::Qrdmulh => LaneFn::Qrdmulh,
        ScalarName::Mla => LaneFn::Mla,
        ScalarName::Mlas => LaneFn::Mlas,
    }
}

/// The function of a row V13 on elements.
fn one_fn(name: OneName) -> LaneFn
    ensures { result ≡ one_fn name }
{
    match name {
        OneName::Cls => LaneFn::Cls,
        OneName::Clz => LaneFn::Clz,
        OneName::Abs => LaneFn::Abs,
        OneName::Neg => LaneFn::Neg,
        OneName::Qabs => LaneFn::Qabs,
        OneName::Qneg => LaneFn::Qneg,
    }
}

/// The form of a row V12.
pub fn long_form(row: &V12) -> Form
    ensures { result ≡ long_form row.now }
{
    match row {
        V12::Bytes(row) => Form::Widening(Widening {
            halves: false,
            unsigned: row.u.get() == 1,
            odd: row.t.get() == 1,
            factor: 1 << row.k.get(),
            d: row.d,
            m: row.m,
        }),
        V12::Halves(row) => Form::Widening(Widening {
            halves: true,
            unsigned: row.u.get() == 1,
            odd: row.t.get() == 1,
            factor: 1 << row.k.get(),
            d: row.d,
            m: row.m,
        }),
        V12::Full(row) => Form::Widening(Widening {
            halves: row.z.get() == 1,
            unsigned: row.u.get() == 1,
            odd: row.t.get() == 1,
            factor: if row.z.get() == 1 { 1 << 16 } else { 1 << 8 },
            d: row.d,
            m: row.m,
        }),
    }
}

/// The form of a row V13.
pub fn one_form(row: &V13) -> Form
    ensures { result ≡ one_form row.now }
{
    match row {
        V13::Elements(row) => lanes(
            one_fn(row.name),
            false,
            size(&row.z),
            row.d,
            row.m,
            Operand::Vector(row.m),
        ),
        V13::Not(row) => lanes(
            LaneFn::Not,
            false,
            Size::Word,
            row.d,
            row.m,
            Operand::Vector(row.m),
        ),
    }
}

/// The form of a row V19.
pub fn offsets_form(row: &V19) -> Form
    ensures { result ≡ offsets_form row.now }
{
    match row {
        V19::Free(row) => Form::Offsets(Steps {
            name: row.name,
            z: size(&row.z),
            n: row.n,
            d: row.d,
            k: row.k,
            round: None,
        }),
        V19::Wrapped(row) => Form::Offsets(Steps {
            name: row.name,
            z: size(&row.z),
            n: row.n,
            d: row.d,
            k: row.k,
            round: Some(row.r),
        }),
    }
}

/// The form of a row V20.
pub fn compare_form(row: &V20) -> Form
    ensures { result ≡ compare_form row.now }
{
    match row {
        V20::Vectors(row) => Form::Compare(Comparison {
            c: row.c,
            z: size(&row.z),
            n: row.n,
            by: Operand::Vector(row.m),
            k: row.k,
        }),
        V20::Scalar(row) => Form::Compare(Comparison {
            c: row.c,
            z: size(&row.z),
            n: row.n,
            by: Operand::Scalar(row.m),
            k: row.k,
        }),
    }
}

/// The form of a row V21: a block with the mask 0 is `vpnot`.
pub fn predicate_form(row: &V21) -> Form
    ensures { result ≡ predicate_form row.now }
{
    match row {
        V21::Block(row) => {
            if row.k.get() == 0 {
                Form::Invert
            } else {
                Form::Block(*row)
            }
        }
        V21::Select(row) => Form::Select(*row),
        V21::Tail(row) => Form::Count(*row),
    }
}

/// The form of `vaddlv` and `vaddlva`.
fn long_sum_form(row: &LongSum) -> Form
    ensures { result ≡ sum_form (v22.LongSum row.now) }
{
    Form::Long(LongSums {
        terms: Terms {
            products: false,
            unsigned: row.u.get() == 1,
            z: Size::Word,
        },
        goes_on: row.a.get() == 1,
        l: row.l,
        h: row.h,
        n: row.m,
        m: row.m,
    })
}

/// The form of `vmlaldav` and `vmlaldava`.
fn long_dot_form(row: &LongDot) -> Form
    ensures { result ≡ sum_form (v22.LongDot row.now) }
{
    let z = if row.s.get() == 1 {
        Size::Word
    } else {
        Size::Half
    };
    Form::Long(LongSums {
        terms: Terms {
            products: true,
            unsigned: row.u.get() == 1,
            z,
        },
        goes_on: row.a.get() == 1,
        l: row.l,
        h: row.h,
        n: row.n,
        m: row.m,
    })
}

/// The form of a row V22.
pub fn sum_form(row: &V22) -> Form
    ensures { result ≡ sum_form row.now }
{
    match row {
        V22::Sum(row) => Form::Sum(Sums {
            terms: Terms {
                products: false,
                unsigned: row.u.get() == 1,
                z: size(&row.z),
            },
            goes_on: row.a.get() == 1,
            l: row.l,
            n: row.m,
            m: row.m,
        }),
        V22::Dot(row) => Form::Sum(Sums {
            terms: Terms {
                products: true,
                unsigned: row.u.get() == 1,
                z: element_size(row.size),
            },
            goes_on: row.a.get() == 1,
            l: row.l,
            n: row.n,
            m: row.m,
        }),
        V22::LongSum(row) => long_sum_form(row),
        V22::LongDot(row) => long_dot_form(row),
    }
}

/// The form of a row V1.
pub fn add_form(row: &V1) -> Form
    ensures { Registers result ≡ kind_of (vector.V1 row.now) }
{
    lanes(
        add_fn(row.name),
        false,
        size(&row.z),
        row.d,
        row.n,
        Operand::Vector(row.m),
    )
}

/// The form of a row V2.
pub fn bitwise_form(row: &V2) -> Form
    ensures { Registers result ≡ kind_of (vector.V2 row.now) }
{
    lanes(
        bitwise_fn(row.name),
        false,
        Size::Word,
        row.d,
        row.n,
        Operand::Vector(row.m),
    )
}

/// The form of a row V3.
pub fn signed_form(row: &V3) -> Form
    ensures { Registers result ≡ kind_of (vector.V3 row.now) }
{
    lanes(
        signed_fn(row.name),
        row.u.get() == 1,
        size(&row.z),
        row.d,
        row.n,
        Operand::Vector(row.m),
    )
}

/// The form of a row V4.
pub fn vector_shift_form(row: &V4) -> Form
    ensures { Registers result ≡ kind_of (vector.V4 row.now) }
{
    lanes(
        vector_shift_fn(row.name),
        row.u.get() == 1,
        size(&row.z),
        row.d,
        row.m,
        Operand::Vector(row.n),
    )
}

/// The form of a row V11.
pub fn constant_shift_form(row: &V11) -> Form
    ensures { Registers result ≡ kind_of (vector.V11 row.now) }
{
    lanes(
        constant_shift_fn(row.name),
        shift_unsigned(row.name, row.u.get()),
        size(&row.element_size()),
        row.d,
        row.m,
        Operand::Constant(shift_operand(row)),
    )
}

/// The form of a row V5.
pub fn doubling_form(row: &V5) -> Form
    ensures { Registers result ≡ kind_of (vector.V5 row.now) }
{
    lanes(
        doubling_fn(row.name),
        false,
        size(&row.z),
        row.d,
        row.n,
        Operand::Vector(row.m),
    )
}

/// The form of a row V7.
pub fn high_form(row: &V7) -> Form
    ensures { Registers result ≡ kind_of (vector.V7 row.now) }
{
    lanes(
        high_fn(row.name, row.u.get() == 1),
        false,
        size(&row.z),
        row.d,
        row.n,
        Operand::Vector(row.m),
    )
}

/// The form of a row V10.
pub fn scalar_form(row: &V10) -> Form
    ensures { Registers result ≡ kind_of (vector.V10 row.now) }
{
    lanes(
        scalar_fn(row.name),
        row.u.get() == 1,
        size(&row.z),
        row.d,
        row.n,
        Operand::Scalar(row.m),
    )
}

/// The form of a row V18.
pub fn copies_form(row: &V18) -> Form
    ensures { Registers result ≡ kind_of (vector.V18 row.now) }
{
    lanes(
        LaneFn::Dup,
        true,
        element_size(row.size),
        row.d,
        row.d,
        Operand::Scalar(row.t),
    )
}
