//! Whether words are an expression, and how many names and numbers it has.
//!
//! An expression may be as long and as deep as a file, so this keeps no tree and does not recur: what is open lies in a vector.

ghost use Rattle.std.specs.Prelude.{◌≡◌, ◌+◌, ◌<◌, ◌^◌, Some, None, IfOk, reverse, option_map, if◌then◌else◌};
ghost use Rattle.hm_kernel_text.specs.Words.{words_behind};
ghost use Rattle.hm_kernel_text.specs.ReadTree.{is_leaf, tree_in};
ghost use Rattle.hm_kernel_text.specs.Trees.{leaves};
ghost use Rattle.hm_kernel_text.specs.Shapes.{close_side, closed_sides, open_shape, opens, operations_behind, place_of, shape_in, stands_side};

use crate::words::{is_name, is_numeral, next_word, read_op};
use hm_base::OutOfMemory;
use hm_text_base::span;
use std::alloc::Global;

/// Which argument of an open operation is awaited.
#[derive(Clone, Copy)]
pub enum Side {
    First,
    Second,
}

/// What is behind a word.
#[derive(Clone, Copy)]
pub enum Place {
    /// The whole expression.
    End,
    /// A part of it.
    Inside,
    /// Something that no expression begins with.
    Wrong,
}

/// Whether a word opens an operation.
pub fn opens(word: &[u8]) -> bool
    ensures value { result ≡ opens word.now }
{
    !word.is_empty() && word[0] == b'('
}

/// How many operations there are behind a word.
fn operations_behind(before: usize, word: &[u8]) -> usize
    requires room { before + 1 < 2 ^ 64 }
    ensures value { result ≡ operations_behind before word.now }
{
    if opens(word) { before + 1 } else { before }
}

/// Whether a word is a name or a number.
fn is_leaf(word: &[u8]) -> bool
    ensures value { result ≡ is_leaf word.now }
{
    is_name(word) || is_numeral(word)
}

/// Opens an operation by its word.
fn open_one(awaited: &mut Vec<Side>, word: &[u8]) -> Result<Place, OutOfMemory>
    ensures place { IfOk result (λ p. open_shape (reverse awaited.old.items) word.now ≡ place_of p (reverse awaited.new.items)) }
{
    if read_op(word).is_none() {
        return Ok(Place::Wrong);
    }
    awaited.push(Side::First)?;
    Ok(Place::Inside)
}

/// Closes the innermost operation. The answer is whether there is one whose second argument was awaited.
fn close_one(awaited: &mut Vec<Side>) -> bool
    ensures closed { close_side (reverse awaited.old.items) ≡ (if result then Some (reverse awaited.new.items) else None) }
{
    match awaited.pop() {
        Some(Side::Second) => true,
        Some(Side::First) => false,
        None => false,
    }
}

/// Closes an operation for each bracket. The answer is whether there are nothing but brackets, each of which closes one.
fn close_all(awaited: &mut Vec<Side>, brackets: &[u8]) -> bool
    ensures closed { closed_sides (reverse awaited.old.items) brackets.now ≡ (if result then Some (reverse awaited.new.items) else None) }
{
    for bracket in brackets {
        if *bracket != b')' {
            return false;
        }
        if !close_one(awaited) {
            return false;
        }
    }
    true
}

/// Goes on behind an argument that no bracket follows.
fn stand(awaited: &mut Vec<Side>) -> Result<Place, OutOfMemory>
    ensures place { IfOk result (λ p. stands_side (reverse awaited.old.items) ≡ place_of p (reverse awaited.new.items)) }
{
    match awaited.pop() {
        None => Ok(Place::End),
        Some(Side::First) => {
            awaited.push(Side::Second)?;
            Ok(Place::Inside)
        }
        Some(Side::Second) => Ok(Place::Wrong),
    }
}

/// Goes on behind a word.
#[tactic(auto, unfolding(crate::specs::Shapes::shape_in))]
fn take_word(awaited: &mut Vec<Side>, word: &[u8]) -> Result<Place, OutOfMemory>
    ensures place { IfOk result (λ p. shape_in (reverse awaited.old.items) word.now ≡ place_of p (reverse awaited.new.items)) }
{
    if opens(word) {
        return open_one(awaited, &word[1..]);
    }
    let (leaf, brackets) = span(b')', word);
    if !is_leaf(leaf) {
        return Ok(Place::Wrong);
    }
    if !close_all(awaited, brackets) {
        return Ok(Place::Wrong);
    }
    stand(awaited)
}

/// How many names and numbers the expression has that the words behind a place are. None where they are no expression.
pub fn count_leaves(alloc: Global, text: &[u8]) -> Result<Option<usize>, OutOfMemory>
    ensures value { IfOk result (λ n. n ≡ option_map leaves (tree_in (words_behind text.now))) }
{
    let mut awaited = Vec::new(alloc);
    let mut operations = 0;
    let mut rest = text;
    while !rest.is_empty() {
        let (word, after) = next_word(rest);
        operations = operations_behind(operations, word);
        match take_word(&mut awaited, word)? {
            Place::Wrong => return Ok(None),
            Place::End if after.is_empty() => return Ok(Some(operations + 1)),
            Place::End => return Ok(None),
            Place::Inside => {}
        }
        rest = after;
    }
    Ok(None)
}
