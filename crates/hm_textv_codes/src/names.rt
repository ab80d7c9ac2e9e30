//! Names of rows, by their mnemonics, alone and with a part, a size or a mask.

ghost use Rattle.std.specs.Prelude.{◌≡◌, ◌<◌, IfSome};
ghost use Rattle.std.specs.Option.{option_or};
ghost use Rattle.hm_text_rows.specs.Names.{bit_values, named};
ghost use Rattle.hm_text_rows.specs.Shapes.{either};
ghost use Rattle.hm_textv_rows.specs.Mnemonics.{add_mnemonic, bitwise_mnemonic, block_mnemonic, block_word, carry_mnemonic, compare_word};
ghost use Rattle.hm_textv_rows.specs.Mnemonics.{complex_sum_mnemonic, constant_shift_mnemonic, dot_mnemonic, doubling_mnemonic, extreme_mnemonic};
ghost use Rattle.hm_textv_rows.specs.Mnemonics.{high_mnemonic, long_move_mnemonic, long_shift_mnemonic};
ghost use Rattle.hm_textv_rows.specs.Mnemonics.{offsets_mnemonic, one_mnemonic, other_dot_mnemonic, reverse_mnemonic};
ghost use Rattle.hm_textv_rows.specs.Mnemonics.{scalar_mnemonic, signed_mnemonic, vector_shift_mnemonic, wrapped_mnemonic};
ghost use Rattle.hm_textv_codes.specs.Names.{access_in, add_names, bitwise_names, carry_names, complex_sum_names, constant_in};
ghost use Rattle.hm_textv_codes.specs.Names.{constant_shift_names, doubling_names, extreme_names, high_names, interleaved_in, masks, narrowing_in};
ghost use Rattle.hm_textv_codes.specs.Names.{offsets_names, one_names, reverse_names, scalar_names, signed_names, vector_shift_names};

use hm_isa::{
    AddName, BitwiseName, CarryName, ComplexSumName, ConstantShiftName, DoublingName, ExtremeName,
    HighName, NarrowingName, OffsetsName, OneName, ReverseName, ScalarName, SignedName,
    VectorShiftName,
};
use hm_text_rows::named;

/// Which of two mnemonics a word is: 0 for the first, 1 for the second, and None where it is another.
pub fn bit_by(mnemonic: &[u8], first: &str, second: &str) -> Option<u8>
    ensures value { result ≡ named (λ b. either b first.now second.now) bit_values mnemonic.now }
    ensures small { IfSome result (λ b. b < 2) }
{
    named(&[(0, first), (1, second)], mnemonic)
}

/// The name of a row V1.
pub fn add_name(mnemonic: &[u8]) -> Option<AddName>
    ensures { result ≡ named add_mnemonic add_names mnemonic.now }
{
    let names = &[
        (AddName::Add, "vadd"),
        (AddName::Sub, "vsub"),
        (AddName::Mul, "vmul"),
    ];
    named(names, mnemonic)
}

/// The name of a row V2.
pub fn bitwise_name(mnemonic: &[u8]) -> Option<BitwiseName>
    ensures { result ≡ named bitwise_mnemonic bitwise_names mnemonic.now }
{
    let names = &[
        (BitwiseName::And, "vand"),
        (BitwiseName::Bic, "vbic"),
        (BitwiseName::Orr, "vorr"),
        (BitwiseName::Orn, "vorn"),
        (BitwiseName::Eor, "veor"),
    ];
    named(names, mnemonic)
}

/// The name of a row V3.
pub fn signed_name(mnemonic: &[u8]) -> Option<SignedName>
    ensures { result ≡ named signed_mnemonic signed_names mnemonic.now }
{
    let names = &[
        (SignedName::Max, "vmax"),
        (SignedName::Min, "vmin"),
        (SignedName::Abd, "vabd"),
        (SignedName::Hadd, "vhadd"),
        (SignedName::Rhadd, "vrhadd"),
        (SignedName::Hsub, "vhsub"),
        (SignedName::Qadd, "vqadd"),
        (SignedName::Qsub, "vqsub"),
    ];
    named(names, mnemonic)
}

/// The name of a row V4.
pub fn vector_shift_name(mnemonic: &[u8]) -> Option<VectorShiftName>
    ensures { result ≡ named vector_shift_mnemonic vector_shift_names mnemonic.now }
{
    let names = &[
        (VectorShiftName::Shl, "vshl"),
        (VectorShiftName::Qshl, "vqshl"),
        (VectorShiftName::Rshl, "vrshl"),
        (VectorShiftName::Qrshl, "vqrshl"),
    ];
    named(names, mnemonic)
}

/// The name of a row V5.
pub fn doubling_name(mnemonic: &[u8]) -> Option<DoublingName>
    ensures { result ≡ named doubling_mnemonic doubling_names mnemonic.now }
{
    let names = &[
        (DoublingName::Qdmulh, "vqdmulh"),
        (DoublingName::Qrdmulh, "vqrdmulh"),
    ];
    named(names, mnemonic)
}

/// The name of a row V7.
pub fn high_name(mnemonic: &[u8]) -> Option<HighName>
    ensures { result ≡ named high_mnemonic high_names mnemonic.now }
{
    let names = &[(HighName::Mulh, "vmulh"), (HighName::Rmulh, "vrmulh")];
    named(names, mnemonic)
}

/// The name of a row V8.
pub fn carry_name(mnemonic: &[u8]) -> Option<CarryName>
    ensures { result ≡ named carry_mnemonic carry_names mnemonic.now }
{
    let names = &[
        (CarryName::Adc, "vadc"),
        (CarryName::Adci, "vadci"),
        (CarryName::Sbc, "vsbc"),
        (CarryName::Sbci, "vsbci"),
    ];
    named(names, mnemonic)
}

/// The name of a row V9.
pub fn complex_sum_name(mnemonic: &[u8]) -> Option<ComplexSumName>
    ensures { result ≡ named complex_sum_mnemonic complex_sum_names mnemonic.now }
{
    let names = &[
        (ComplexSumName::Cadd, "vcadd"),
        (ComplexSumName::Hcadd, "vhcadd"),
    ];
    named(names, mnemonic)
}

/// The name of a row V10.
pub fn scalar_name(mnemonic: &[u8]) -> Option<ScalarName>
    ensures { result ≡ named scalar_mnemonic scalar_names mnemonic.now }
{
    let names = &[
        (ScalarName::Add, "vadd"),
        (ScalarName::Sub, "vsub"),
        (ScalarName::Mul, "vmul"),
        (ScalarName::Hadd, "vhadd"),
        (ScalarName::Hsub, "vhsub"),
        (ScalarName::Qadd, "vqadd"),
        (ScalarName::Qsub, "vqsub"),
        (ScalarName::Qdmulh, "vqdmulh"),
        (ScalarName::Qrdmulh, "vqrdmulh"),
        (ScalarName::Mla, "vmla"),
        (ScalarName::Mlas, "vmlas"),
    ];
    named(names, mnemonic)
}

/// The name of a row V11.
pub fn constant_shift_name(mnemonic: &[u8]) -> Option<ConstantShiftName>
    ensures { result ≡ named constant_shift_mnemonic constant_shift_names mnemonic.now }
{
    let names = &[
        (ConstantShiftName::Shr, "vshr"),
        (ConstantShiftName::Rshr, "vrshr"),
        (ConstantShiftName::Qshl, "vqshl"),
        (ConstantShiftName::Qshlu, "vqshlu"),
        (ConstantShiftName::Shl, "vshl"),
        (ConstantShiftName::Sri, "vsri"),
        (ConstantShiftName::Sli, "vsli"),
    ];
    named(names, mnemonic)
}

/// The part of a row V12: 0 for the lower halves of wide elements, 1 for the upper.
pub fn long_shift_part(mnemonic: &[u8]) -> Option<u8>
    ensures { result ≡ option_or (named long_shift_mnemonic bit_values mnemonic.now) (named long_move_mnemonic bit_values mnemonic.now) }
{
    let parts = &[(0, "vshllb"), (1, "vshllt"), (0, "vmovlb"), (1, "vmovlt")];
    named(parts, mnemonic)
}

/// The name of a row V13.
pub fn one_name(mnemonic: &[u8]) -> Option<OneName>
    ensures { result ≡ named one_mnemonic one_names mnemonic.now }
{
    let names = &[
        (OneName::Cls, "vcls"),
        (OneName::Clz, "vclz"),
        (OneName::Abs, "vabs"),
        (OneName::Neg, "vneg"),
        (OneName::Qabs, "vqabs"),
        (OneName::Qneg, "vqneg"),
    ];
    named(names, mnemonic)
}

/// The name of a row V14.
pub fn reverse_name(mnemonic: &[u8]) -> Option<ReverseName>
    ensures { result ≡ named reverse_mnemonic reverse_names mnemonic.now }
{
    let names = &[
        (ReverseName::Rev64, "vrev64"),
        (ReverseName::Rev32, "vrev32"),
        (ReverseName::Rev16, "vrev16"),
    ];
    named(names, mnemonic)
}

/// VMOV, VMVN, VORR and VBIC of a row V15 as 0 to 3: bit 0 is 1 for VMVN and VBIC, and bit 1 is 1 where the immediate is merged.
pub fn constant_in(mnemonic: &[u8]) -> Option<u32>
    ensures { result ≡ constant_in mnemonic.now }
{
    let numbers = &[(0, "vmov"), (1, "vmvn"), (2, "vorr"), (3, "vbic")];
    named(numbers, mnemonic)
}

/// The name and the part of a row V16.
pub fn narrowing_in(mnemonic: &[u8]) -> Option<(NarrowingName, u8)>
    ensures { result ≡ narrowing_in mnemonic.now }
{
    let names = &[
        ((NarrowingName::Plain, 0), "vmovnb"),
        ((NarrowingName::Plain, 1), "vmovnt"),
        ((NarrowingName::ToUnsigned, 0), "vqmovunb"),
        ((NarrowingName::ToUnsigned, 1), "vqmovunt"),
        ((NarrowingName::Signed, 0), "vqmovnb"),
        ((NarrowingName::Signed, 1), "vqmovnt"),
    ];
    named(names, mnemonic)
}

/// The name of a row V19 from one register.
pub fn offsets_name(mnemonic: &[u8]) -> Option<OffsetsName>
    ensures { result ≡ named offsets_mnemonic offsets_names mnemonic.now }
{
    let names = &[(OffsetsName::Up, "vidup"), (OffsetsName::Down, "vddup")];
    named(names, mnemonic)
}

/// The name of a row V19 that goes round.
pub fn wrapped_name(mnemonic: &[u8]) -> Option<OffsetsName>
    ensures { result ≡ named wrapped_mnemonic offsets_names mnemonic.now }
{
    let names = &[(OffsetsName::Up, "viwdup"), (OffsetsName::Down, "vdwdup")];
    named(names, mnemonic)
}

/// The mask of a row V20, 0 of VCMP.
pub fn compare_mask(mnemonic: &[u8]) -> Option<u32>
    ensures { result ≡ named (block_mnemonic compare_word) masks mnemonic.now }
{
    let masks = &[
        (0, "vcmp"),
        (1, "vptttt"),
        (2, "vpttt"),
        (3, "vpttte"),
        (4, "vptt"),
        (5, "vpttee"),
        (6, "vptte"),
        (7, "vpttet"),
        (8, "vpt"),
        (9, "vpteee"),
        (10, "vptee"),
        (11, "vpteet"),
        (12, "vpte"),
        (13, "vptett"),
        (14, "vptet"),
        (15, "vptete"),
    ];
    named(masks, mnemonic)
}

/// The mask of a row V21, 0 of VPNOT.
pub fn block_mask(mnemonic: &[u8]) -> Option<u32>
    ensures { result ≡ named (block_mnemonic block_word) masks mnemonic.now }
{
    let masks = &[
        (0, "vpnot"),
        (1, "vpstttt"),
        (2, "vpsttt"),
        (3, "vpsttte"),
        (4, "vpstt"),
        (5, "vpsttee"),
        (6, "vpstte"),
        (7, "vpsttet"),
        (8, "vpst"),
        (9, "vpsteee"),
        (10, "vpstee"),
        (11, "vpsteet"),
        (12, "vpste"),
        (13, "vpstett"),
        (14, "vpstet"),
        (15, "vpstete"),
    ];
    named(masks, mnemonic)
}

/// The bit A of a row V22 of products: 1 where it goes on from the old value.
pub fn dot_bit(mnemonic: &[u8]) -> Option<u8>
    ensures { result ≡ option_or (named dot_mnemonic bit_values mnemonic.now) (named other_dot_mnemonic bit_values mnemonic.now) }
{
    let bits = &[(0, "vmladav"), (1, "vmladava"), (0, "vmlav"), (1, "vmlava")];
    named(bits, mnemonic)
}

/// The name of a row V23.
pub fn extreme_name(mnemonic: &[u8]) -> Option<ExtremeName>
    ensures { result ≡ named extreme_mnemonic extreme_names mnemonic.now }
{
    let names = &[(ExtremeName::Max, "vmaxv"), (ExtremeName::Min, "vminv")];
    named(names, mnemonic)
}

/// Of a row V24 to V27, 1 for a load and 0 for a store, and the size of its elements in memory.
pub fn access_in(mnemonic: &[u8]) -> Option<(u8, u32)>
    ensures value { result ≡ access_in mnemonic.now }
    ensures small { IfSome result (λ p. p.1 < 3) }
{
    let accesses = &[
        ((0, 0), "vstrb"),
        ((0, 1), "vstrh"),
        ((0, 2), "vstrw"),
        ((1, 0), "vldrb"),
        ((1, 1), "vldrh"),
        ((1, 2), "vldrw"),
    ];
    named(accesses, mnemonic)
}

/// Of a row V28, 1 for four registers and 0 for two, 1 for a load and 0 for a store, and its part.
pub fn interleaved_in(mnemonic: &[u8]) -> Option<(u8, u8, u8)>
    ensures { result ≡ interleaved_in mnemonic.now }
{
    let parts = &[
        ((0, 0, 0), "vst20"),
        ((0, 0, 1), "vst21"),
        ((0, 1, 0), "vld20"),
        ((0, 1, 1), "vld21"),
        ((1, 0, 0), "vst40"),
        ((1, 0, 1), "vst41"),
        ((1, 0, 2), "vst42"),
        ((1, 0, 3), "vst43"),
        ((1, 1, 0), "vld40"),
        ((1, 1, 1), "vld41"),
        ((1, 1, 2), "vld42"),
        ((1, 1, 3), "vld43"),
    ];
    named(parts, mnemonic)
}
