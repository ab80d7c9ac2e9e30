//! The codes of the vector rows, read and written: DDI0553, "M-profile Vector Extension".
#![tactic(auto)]

ghost use Rattle.std.specs.Prelude.{◌≡◌, ◌↔◌, Some, IfSome, IfNone};
ghost use Rattle.hm_isa.specs.declared.Vector.{Vector};
ghost use Rattle.hm_isa.specs.Code.{vector_code};

use hm_encv_memory::{decode_memory, encode_v24, encode_v25, encode_v26, encode_v27, encode_v28};
use hm_encv_registers::{
    decode_predicate, decode_register, decode_total, encode_v10, encode_v17, encode_v18,
    encode_v19, encode_v20, encode_v21, encode_v22, encode_v23,
};
use hm_encv_vectors::{
    decode_one, decode_pair, decode_v11, encode_v1, encode_v2, encode_v3, encode_v4, encode_v5,
    encode_v6, encode_v7, encode_v8, encode_v9, encode_v11, encode_v12, encode_v13, encode_v14,
    encode_v15, encode_v16,
};
use hm_isa::Vector;

/// The instruction of the table of vector instructions whose code is w.
fn find(w: u32) -> Option<Vector>
    ensures found { IfSome result (λ v. vector_code v ≡ w) }
    ensures none { IfNone result ((v : Vector) → vector_code v ≡ w → ⊥) }
{
    if let Some(v) = decode_pair(w) {
        return Some(v);
    }
    if let Some(v) = decode_one(w) {
        return Some(v);
    }
    if let Some(v) = decode_register(w) {
        return Some(v);
    }
    if let Some(v) = decode_total(w) {
        return Some(v);
    }
    if let Some(v) = decode_predicate(w) {
        return Some(v);
    }
    if let Some(r) = decode_v11(w) {
        return Some(Vector::V11(r));
    }
    if let Some(v) = decode_memory(w) {
        return Some(v);
    }
    None
}

/// The vector instruction whose code is w, with the first halfword in bits 31 to 16, or None exactly where no vector
/// instruction has it: DDI0553, "T32 instruction set encoding", the 32-bit codes.
pub fn decodev(w: u32) -> Option<Vector>
    ensures found { IfSome result (λ v. vector_code v ≡ w) }
    ensures none { IfNone result ((v : Vector) → vector_code v ≡ w → ⊥) }
    ensures exact { (v : Vector) → (result ≡ Some v) ↔ (vector_code v ≡ w) }
{
    find(w)
}

/// The code of a vector instruction, with the first halfword in bits 31 to 16. `decodev` gives the instruction of this code again.
pub fn encodev(v: &Vector) -> u32
    ensures value { result ≡ vector_code v.now }
{
    match v {
        Vector::V1(r) => encode_v1(r),
        Vector::V2(r) => encode_v2(r),
        Vector::V3(r) => encode_v3(r),
        Vector::V4(r) => encode_v4(r),
        Vector::V5(r) => encode_v5(r),
        Vector::V6(r) => encode_v6(r),
        Vector::V7(r) => encode_v7(r),
        Vector::V8(r) => encode_v8(r),
        Vector::V9(r) => encode_v9(r),
        Vector::V10(r) => encode_v10(r),
        Vector::V11(r) => encode_v11(r),
        Vector::V12(r) => encode_v12(r),
        Vector::V13(r) => encode_v13(r),
        Vector::V14(r) => encode_v14(r),
        Vector::V15(r) => encode_v15(r),
        Vector::V16(r) => encode_v16(r),
        Vector::V17(r) => encode_v17(r),
        Vector::V18(r) => encode_v18(r),
        Vector::V19(r) => encode_v19(r),
        Vector::V20(r) => encode_v20(r),
        Vector::V21(r) => encode_v21(r),
        Vector::V22(r) => encode_v22(r),
        Vector::V23(r) => encode_v23(r),
        Vector::V24(r) => encode_v24(r),
        Vector::V25(r) => encode_v25(r),
        Vector::V26(r) => encode_v26(r),
        Vector::V27(r) => encode_v27(r),
        Vector::V28(r) => encode_v28(r),
    }
}
