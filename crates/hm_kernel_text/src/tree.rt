//! Expressions as trees of their words.

ghost use Rattle.std.specs.Prelude.{◌≡◌, IfOk, option_map};
ghost use Rattle.hm_kernel_text.specs.Words.{words_behind};
ghost use Rattle.hm_kernel_text.specs.Trees.{apply};
ghost use Rattle.hm_kernel_text.specs.Shapes.{tree_at};
ghost use Rattle.hm_kernel_text.specs.Held.{tree_of};

use crate::shape::opens;
use crate::words::{next_word, read_op};
use hm_base::OutOfMemory;
use hm_kernel_lang::text::Op;
use hm_text_base::span;
use std::alloc::Global;

/// An expression as it is written: a name or a number, or an operation on two.
#[derive(Drop)]
pub enum Tree<'a> {
    Word(&'a [u8]),
    Apply(Op, Box<Tree<'a>>, Box<Tree<'a>>),
}

/// The operation on two expressions.
fn apply<'a>(
    alloc: Global,
    op: Op,
    left: Tree<'a>,
    right: Tree<'a>,
) -> Result<Tree<'a>, OutOfMemory>
    ensures tree { IfOk result (λ t. tree_of t ≡ apply op (tree_of left.entry) (tree_of right.entry)) }
{
    let left = Box::new(alloc, left)?;
    let right = Box::new(alloc, right)?;
    Ok(Tree::Apply(op, left, right))
}

/// The tree of the expression that the words behind a place begin with, and what follows its last word. They are known to be one, no deeper
/// than `deep`, so the brackets behind its words are passed over; None comes only where they are not.
pub fn read_tree<'a>(
    alloc: Global,
    text: &'a [u8],
    deep: u32,
) -> Result<Option<(Tree<'a>, &'a [u8])>, OutOfMemory>
    ensures value { IfOk result (λ t. option_map (λ x. (tree_of x.0, words_behind x.1.now)) t ≡ tree_at deep (words_behind text.now)) }
{
    if deep == 0 {
        return Ok(None);
    }
    if text.is_empty() {
        return Ok(None);
    }
    let (word, rest) = next_word(text);
    if !opens(word) {
        let (leaf, _brackets) = span(b')', word);
        return Ok(Some((Tree::Word(leaf), rest)));
    }
    let Some(op) = read_op(&word[1..]) else {
        return Ok(None);
    };
    let Some((left, behind_left)) = read_tree(alloc, rest, deep - 1)? else {
        return Ok(None);
    };
    let Some((right, behind_right)) = read_tree(alloc, behind_left, deep - 1)? else {
        return Ok(None);
    };
    let tree = apply(alloc, op, left, right)?;
    Ok(Some((tree, behind_right)))
}
