//! Expressions over the arrays that are there.

ghost use Rattle.std.specs.Prelude.{◌≡◌, ◌<◌, ◌≤◌, true, IfOk, IfSome, is_some, length, map, nat_le};
ghost use Rattle.hm_kernel_lang.specs.Language.{modulus};
ghost use Rattle.hm_kernel_lang.specs.Texts.{IsOver};
ghost use Rattle.hm_kernel_text.specs.Held.{tree_of, array_written, expr_written, name_at};
ghost use Rattle.hm_kernel_text.specs.ReadLine.{in_range, is_there, knows};
ghost use Rattle.hm_kernel_text.specs.Trees.{tree_need, word};

use crate::tree::Tree;
use crate::words::{is_name, number_below};
use hm_base::OutOfMemory;
use hm_kernel_lang::text::{Array, ElementType, Expr};
use hm_text_base::read_word;
use std::alloc::Global;

/// How many numbers an element of a type holds.
pub fn modulus(element: ElementType) -> u64
    ensures value { result ≡ modulus element }
{
    match element {
        ElementType::U8 | ElementType::S8 => 0x100,
        ElementType::U16 | ElementType::S16 => 0x1_0000,
        ElementType::U32 | ElementType::S32 => 0x1_0000_0000,
    }
}

/// The number of the array of a name.
pub fn position(arrays: &[Array], name: &[u8]) -> Option<u8>
    requires few { length arrays.now ≤ 256 }
    ensures there { is_some result ≡ is_there name.now (map array_written arrays.now) }
    ensures within { IfSome result (λ i. i < length arrays.now) }
    ensures name { IfSome result (λ i. name_at arrays.now i ≡ name.now) }
{
    for (i, array) in arrays.iter().enumerate() {
        if array.name.as_slice() == name {
            return Some(i as u8);
        }
    }
    None
}

/// Whether each name of an expression is there.
pub fn knows(arrays: &[Array], tree: &Tree<'_>) -> bool
    requires few { length arrays.now ≤ 256 }
    ensures value { result ≡ knows (map array_written arrays.now) (tree_of tree.now) }
{
    match tree {
        Tree::Word(word) => !is_name(word) || position(arrays, word).is_some(),
        Tree::Apply(_, left, right) => knows(arrays, left) && knows(arrays, right),
    }
}

/// Whether each number of an expression is below a limit.
pub fn in_range(limit: u64, tree: &Tree<'_>) -> bool
    ensures value { result ≡ in_range limit (tree_of tree.now) }
{
    match tree {
        Tree::Word(word) => is_name(word) || number_below(limit, word).is_some(),
        Tree::Apply(_, left, right) => in_range(limit, left) && in_range(limit, right),
    }
}

/// Whether an expression needs no more than so many registers.
pub fn needs_at_most(registers: u32, tree: &Tree<'_>) -> bool
    ensures value { result ≡ nat_le (tree_need (tree_of tree.now)) registers }
{
    match tree {
        Tree::Word(_) => registers >= 1,
        Tree::Apply(_, left, right) => registers >= 1
            && needs_at_most(registers, left)
            && needs_at_most(registers - 1, right),
    }
}

/// What a word stands for that is the name of an array that is there, or a number of the type.
fn leaf(element: ElementType, arrays: &[Array], text: &[u8]) -> Expr
    requires few { length arrays.now ≤ 256 }
    requires known { knows (map array_written arrays.now) (word text.now) ≡ true }
    requires small { in_range (modulus element) (word text.now) ≡ true }
    ensures expr { expr_written arrays.now result ≡ word text.now }
    ensures over { IsOver element (length arrays.now) result }
{
    if is_name(text) {
        return Expr::Name(position(arrays, text).unwrap());
    }
    Expr::Number(number_below(modulus(element), text).unwrap())
}

/// The expression over arrays of one whose names are there and whose numbers are of the type.
pub fn resolve(
    alloc: Global,
    element: ElementType,
    arrays: &[Array],
    tree: &Tree<'_>,
) -> Result<Expr, OutOfMemory>
    requires few { length arrays.now ≤ 256 }
    requires known { knows (map array_written arrays.now) (tree_of tree.now) ≡ true }
    requires small { in_range (modulus element) (tree_of tree.now) ≡ true }
    ensures expr { IfOk result (λ e. expr_written arrays.now e ≡ tree_of tree.now) }
    ensures over { IfOk result (IsOver element (length arrays.now)) }
{
    match tree {
        Tree::Word(word) => Ok(leaf(element, arrays, word)),
        Tree::Apply(op, left, right) => {
            let left = resolve(alloc, element, arrays, left)?;
            let right = resolve(alloc, element, arrays, right)?;
            let left = Box::new(alloc, left)?;
            let right = Box::new(alloc, right)?;
            Ok(Expr::Apply(*op, left, right))
        }
    }
}
