//! The row of wide lists, read and written.

ghost use Rattle.std.specs.Prelude.{◌≡◌, ◌<◌, IfSome, IfNone};
ghost use Rattle.hm_isa.specs.declared.wide.WideListName.{WideListName};
ghost use Rattle.hm_isa.specs.declared.wide.T14.{T14};
ghost use Rattle.hm_isa.specs.Rules.{is_wide_list, listed_in, may_list};
ghost use Rattle.hm_isa.specs.Code.{code_t14, wide_list_base};

use hm_code_fields::bits;
use hm_isa::{Below, T14, WideListName};

/// Whether register k stands in a list.
fn listed(list: u32, k: u32) -> bool
    requires { k < 16 }
    ensures { result ≡ listed_in list k }
{
    (list >> k) % 2 == 1
}

/// Whether the operation may store or load pc, and lr besides.
fn may_list(x: WideListName, list: u32) -> bool
    ensures { result ≡ may_list x list }
{
    match x {
        WideListName::Stmia | WideListName::Stmdb => !listed(list, 15),
        WideListName::Ldmia | WideListName::Ldmdb => !(listed(list, 14) && listed(list, 15)),
    }
}

/// Whether the row T14 has these letters.
fn may_be_wide_list(x: WideListName, w: u32, n: u32, list: u32) -> bool
    requires { n < 16 }
    ensures { result ≡ is_wide_list x w n list }
{
    if list.count_ones() < 2 || listed(list, 13) || n == 15 {
        return false;
    }
    if w != 0 && listed(list, n) {
        return false;
    }
    may_list(x, list)
}

/// The operation of the row T14 whose code without its fields is this.
fn list_name(rest: u32) -> Option<WideListName>
    ensures found { IfSome result (λ x. wide_list_base x ≡ rest) }
    ensures none { IfNone result ((x : WideListName) → wide_list_base x ≡ rest → ⊥) }
{
    match rest {
        0xe880_0000 => Some(WideListName::Stmia),
        0xe890_0000 => Some(WideListName::Ldmia),
        0xe900_0000 => Some(WideListName::Stmdb),
        0xe910_0000 => Some(WideListName::Ldmdb),
        _ => None,
    }
}

/// `stmia.w`, `ldmia.w`, `stmdb`, `ldmdb`
pub fn decode_t14(w: u32) -> Option<T14>
    ensures found { IfSome result (λ r. code_t14 r ≡ w) }
    ensures none { IfNone result ((r : T14) → code_t14 r ≡ w → ⊥) }
{
    let back = bits(w, 21, 1);
    let n = bits(w, 16, 4);
    let list = bits(w, 0, 16);
    let name = list_name(w - (back << 21) - (n << 16) - list)?;
    if !may_be_wide_list(name, back, n, list) {
        return None;
    }
    Some(T14 {
        name,
        w: Below::new(back),
        n: Below::new(n),
        list: Below::new(list),
    })
}

/// The code of a name of the row T14 without its fields.
pub fn base_of_wide_list(name: WideListName) -> u32
    ensures value { result ≡ wide_list_base name }
{
    match name {
        WideListName::Stmia => 0xe880_0000,
        WideListName::Ldmia => 0xe890_0000,
        WideListName::Stmdb => 0xe900_0000,
        WideListName::Ldmdb => 0xe910_0000,
    }
}

/// The code of `stmia.w`, `ldmia.w`, `stmdb`, `ldmdb`, with the first halfword in bits 31 to 16.
pub fn encode_t14(r: &T14) -> u32
    ensures value { result ≡ code_t14 r.now }
{
    base_of_wide_list(r.name) + (r.w.get() << 21) + (r.n.get() << 16) + r.list.get()
}
