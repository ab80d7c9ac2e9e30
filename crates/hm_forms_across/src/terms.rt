//! What the active elements of a word of each of two vectors add to a sum.

ghost use Rattle.std.specs.Prelude.{◌≡◌, ◌+◌, ◌%◌, ◌^◌, ◌<◌, cond};
ghost use Rattle.hm_lane.specs.declared.lanes.Size.TheVariants as size;
ghost use Rattle.hm_lane.specs.Lanes.{bytes_of, firsts, lanes, modulus};
ghost use Rattle.hm_forms_across.specs.Forms.{added, term};

use hm_lane::{Size, bytes};
use hm_lane_fns::{extended_lane, lane_product};

/// What of two vectors is added, V22, by `vaddv`, `vaddva`, `vmladav`, `vmladava`, `vaddlv`, `vaddlva`, `vmlaldav` or `vmlaldava`: DDI0553,
/// "VADDV", "VMLADAV", "VADDLV" and "VMLALDAV".
#[derive(Clone, Copy)]
pub struct Terms {
    /// Whether products are added, or else the elements of the second vector.
    pub products: bool,
    /// Whether the elements are taken without a sign.
    pub unsigned: bool,
    /// The size of the elements.
    pub z: Size,
}

/// What a pair of lanes adds, modulo 2^64.
fn term(terms: Terms, x: u32, y: u32) -> u64
    requires first { x < modulus terms.z }
    requires second { y < modulus terms.z }
    ensures { result ≡ term terms x y }
{
    if terms.products {
        lane_product(terms.unsigned, terms.z, x, y)
    } else {
        extended_lane(terms.unsigned, terms.z, y)
    }
}

/// A sum with one more term where it is active.
fn plus(active: bool, sum: u64, term: u64) -> u64
    ensures { result ≡ cond active ((sum + term) % 2 ^ 64) sum }
{
    if active { sum.wrapping_add(term) } else { sum }
}

/// A sum with the terms of the bytes of a word.
fn sum_bytes(terms: Terms, active: [bool; 4], x: u32, y: u32, sum: u64) -> u64
    requires { terms.z ≡ size.Byte }
    ensures { result ≡ added (2 ^ 64) (term terms) active (bytes_of x) (bytes_of y) sum }
{
    let [p0, p1, p2, p3] = active;
    let [x0, x1, x2, x3] = bytes(x);
    let [y0, y1, y2, y3] = bytes(y);
    let t0 = term(terms, x0 as u32, y0 as u32);
    let t1 = term(terms, x1 as u32, y1 as u32);
    let t2 = term(terms, x2 as u32, y2 as u32);
    let t3 = term(terms, x3 as u32, y3 as u32);
    let s0 = plus(p0, sum, t0);
    let s1 = plus(p1, s0, t1);
    let s2 = plus(p2, s1, t2);
    plus(p3, s2, t3)
}

/// A sum of 64 bits with the terms of a word.
pub fn sum_word(terms: Terms, active: [bool; 4], x: u32, y: u32, sum: u64) -> u64
    ensures { result ≡ added (2 ^ 64) (term terms) (firsts terms.z active) (lanes terms.z (bytes_of x)) (lanes terms.z (bytes_of y)) sum }
{
    let [p0, _, p2, _] = active;
    match terms.z {
        Size::Byte => sum_bytes(terms, active, x, y, sum),
        Size::Half => {
            let s0 = plus(p0, sum, term(terms, x % 65536, y % 65536));
            plus(p2, s0, term(terms, x >> 16, y >> 16))
        }
        Size::Word => plus(p0, sum, term(terms, x, y)),
    }
}
