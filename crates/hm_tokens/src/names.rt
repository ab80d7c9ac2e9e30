//! The names of registers, halves of vector registers and conditions.

ghost use Rattle.std.specs.Prelude.{◌≡◌, ◌<◌, ◌≤◌, ◌||◌, bytes_eq, codes, length, map, IfSome};
ghost use Rattle.hm_tokens.specs.Names.{are_name_bytes, condition_in, condition_name, double_in, double_name, is_label_name, is_letter, is_name};
ghost use Rattle.hm_tokens.specs.Names.{is_number_given, is_reserved, number_of, register_in, register_name, vector_in, vector_name};

/// The names of the core registers, in the order of their numbers.
const REGISTERS: [&str; 16] = [
    "r0", "r1", "r2", "r3", "r4", "r5", "r6", "r7", "r8", "r9", "r10", "r11", "r12", "sp", "lr",
    "pc",
];

/// The names of the vector registers, in the order of their numbers.
const VECTORS: [&str; 8] = ["q0", "q1", "q2", "q3", "q4", "q5", "q6", "q7"];

/// The names of the halves of vector registers, in the order of their numbers.
const DOUBLES: [&str; 16] = [
    "d0", "d1", "d2", "d3", "d4", "d5", "d6", "d7", "d8", "d9", "d10", "d11", "d12", "d13", "d14",
    "d15",
];

/// The names of the conditions but `al`, in the order of their numbers.
const CONDITIONS: [&str; 14] = [
    "eq", "ne", "cs", "cc", "mi", "pl", "vs", "vc", "hi", "ls", "ge", "lt", "gt", "le",
];

/// What stands where a condition or a register does, and is in no list of these.
const OTHER_NAMES: [&str; 3] = ["al", "zr", "apsr"];

/// The name of a core register: `r0` to `r12`, `sp`, `lr`, `pc`.
pub fn register_name(n: u32) -> &'static str
    requires { n < 16 }
    ensures text { result.now ≡ register_name n }
    ensures short { length result.now ≤ 3 }
{
    REGISTERS[n as usize]
}

/// The name of a vector register: `q0` to `q7`.
pub fn vector_name(n: u32) -> &'static str
    requires { n < 8 }
    ensures text { result.now ≡ vector_name n }
    ensures short { length result.now ≤ 2 }
{
    VECTORS[n as usize]
}

/// The name of a half of a vector register: `d0` to `d15`.
pub fn double_name(n: u32) -> &'static str
    requires { n < 16 }
    ensures text { result.now ≡ double_name n }
{
    DOUBLES[n as usize]
}

/// The name of a condition: `eq` to `le`, from 0 to 13.
pub fn condition_name(n: u32) -> &'static str
    requires { n < 14 }
    ensures text { result.now ≡ condition_name n }
    ensures short { length result.now ≤ 2 }
{
    CONDITIONS[n as usize]
}

/// The place of a word among at most 16 names, counted from 0.
fn number_of(names: &[&str], word: &[u8]) -> Option<u32>
    requires few { length names.now ≤ 16 }
    ensures value { result ≡ number_of 0 word.now (map (λ name. name.now) names.now) }
    ensures below { IfSome result (λ n. n < length names.now) }
{
    let mut n = 0;
    for name in names {
        if word == name.as_bytes() {
            return Some(n);
        }
        n += 1;
    }
    None
}

/// The number of the core register that has this name.
pub fn read_register(name: &[u8]) -> Option<u32>
    ensures value { result ≡ register_in name.now }
    ensures below { IfSome result (λ n. n < 16) }
{
    number_of(&REGISTERS, name)
}

/// The number of the vector register that has this name.
pub fn read_vector(name: &[u8]) -> Option<u32>
    ensures value { result ≡ vector_in name.now }
    ensures below { IfSome result (λ n. n < 8) }
{
    number_of(&VECTORS, name)
}

/// The number of the half of a vector register that has this name.
pub fn read_double(name: &[u8]) -> Option<u32>
    ensures value { result ≡ double_in name.now }
{
    number_of(&DOUBLES, name)
}

/// The number of the condition that has this name.
pub fn read_condition(name: &[u8]) -> Option<u32>
    ensures value { result ≡ condition_in name.now }
    ensures below { IfSome result (λ n. n < 14) }
{
    number_of(&CONDITIONS, name)
}

/// Whether a byte is a letter or `_`.
fn is_letter(c: u8) -> bool
    ensures value { result ≡ is_letter c }
{
    matches!(c, b'a'..=b'z' | b'_')
}

/// Whether bytes are letters, digits and `_`.
fn are_name_bytes(bytes: &[u8]) -> bool
    ensures value { result ≡ are_name_bytes bytes.now }
{
    let mut rest = bytes;
    while let [c, more @ ..] = rest {
        if !(is_letter(*c) || matches!(*c, b'0'..=b'9')) {
            return false;
        }
        rest = more;
    }
    true
}

/// Whether a word is a name: it begins with a letter or `_` and goes on with these and digits.
fn is_name(word: &[u8]) -> bool
    ensures value { result ≡ is_name word.now }
{
    match word {
        [] => false,
        [c, rest @ ..] => is_letter(*c) && are_name_bytes(rest),
    }
}

/// Whether a word is one of at most 16 names.
fn is_among(names: &[&str], word: &[u8]) -> bool
    requires few { length names.now ≤ 16 }
    ensures value { result ≡ is_number_given (number_of 0 word.now (map (λ name. name.now) names.now)) }
{
    number_of(names, word).is_some()
}

/// Whether a word is `al`, `zr` or `apsr`, which stand where a condition or a register does.
fn is_other_name(word: &[u8]) -> bool
    ensures value { result ≡ (bytes_eq word.now (codes "al") || bytes_eq word.now (codes "zr") || bytes_eq word.now (codes "apsr")) }
{
    is_among(&OTHER_NAMES, word)
}

/// Whether a name is that of a register or a condition.
fn is_reserved(name: &[u8]) -> bool
    ensures value { result ≡ is_reserved name.now }
{
    is_among(&REGISTERS, name)
        || is_among(&VECTORS, name)
        || is_among(&CONDITIONS, name)
        || is_among(&DOUBLES, name)
        || is_other_name(name)
}

/// Whether a label may have this name: a letter or `_`, then letters, digits and `_`, and not the name of a register (r0 to
/// r12, sp, lr, pc, q0 to q7, d0 to d15), `zr`, `apsr` or a condition, `al` among them.
pub fn is_label_name(name: &[u8]) -> bool
    ensures value { result ≡ is_label_name name.now }
{
    is_name(name) && !is_reserved(name)
}
