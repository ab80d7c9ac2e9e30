//! Lines of arrays, and lines that set arrays.

ghost use Rattle.std.specs.Prelude.{◌≡◌, ◌<◌, ◌≤◌, All, IfOk, IsSomeAnd, OnOk, MatchOption, None, Some, [], length, map, nat_le, option_map};
ghost use Rattle.std.specs.Prelude.{if◌then◌else◌};
ghost use Rattle.std.specs.List.{list_all, list_any};
ghost use Rattle.hm_kernel_lang.specs.Texts.{IsSet};
ghost use Rattle.hm_kernel_text.specs.Words.{is_name, is_numeral, words_behind};
ghost use Rattle.hm_kernel_text.specs.ReadLine.{array_form, behind_array, bounded_values, by_form, form_in, form_of, is_placed, line_in, set_form, share};
ghost use Rattle.hm_kernel_text.specs.ReadLine.{values_in, with_array, with_set, with_written_array, with_written_set};
ghost use Rattle.hm_kernel_text.specs.ReadFile.{Gives, on_line};
ghost use Rattle.hm_kernel_text.specs.ReadTree.{tree_in};
ghost use Rattle.hm_kernel_text.specs.Trees.{leaves};
ghost use Rattle.hm_kernel_text.specs.Held.{array_written, set_written, tree_of, written};

use crate::errors::{KernelErr, KernelKind};
use crate::names::{in_range, knows, modulus, needs_at_most, position, resolve};
use crate::shape::count_leaves;
use crate::tree::{Tree, read_tree};
use crate::words::{first_word, is_name, is_numeral, next_word, number_below};
use hm_base::{OutOfMemory, SRAM_SIZE, SRAM_START};
use hm_kernel_lang::text::{Array, ElementType, Line, Text};
use hm_text_base::read_hex8;
use std::alloc::Global;

/// The most arrays of a text, and the most lines that set one.
const MOST_LINES: usize = 16;

/// The most names and numbers of an expression.
const MOST_LEAVES: u32 = 64;

/// How many registers an expression may need.
const REGISTERS: u32 = 8;

/// The first address past SRAM.
const SRAM_END: u64 = SRAM_START as u64 + SRAM_SIZE as u64;

/// A line by its first three words, of which the second is a name, and the text behind them.
#[derive(Clone, Copy)]
pub struct Parts<'a> {
    kind: &'a [u8],
    name: &'a [u8],
    third: &'a [u8],
    more: &'a [u8],
}

/// A line in parts; None where it has fewer words, or the second is no name.
#[tactic(auto, unfolding(crate::specs::ReadLine::form_in))]
fn parts_of(text: &[u8]) -> Option<Parts<'_>>
    ensures form { MatchOption result (form_in text.now ≡ None)
        (λ p. form_in text.now ≡ form_of p.kind.now p.name.now p.third.now (words_behind p.more.now)) }
{
    let (kind, rest) = first_word(text);
    if rest.is_empty() {
        return None;
    }
    let (name, rest) = next_word(rest);
    if rest.is_empty() {
        return None;
    }
    let (third, more) = next_word(rest);
    if !is_name(name) {
        return None;
    }
    Some(Parts {
        kind,
        name,
        third,
        more,
    })
}

/// Whether the words behind a place are numbers.
fn are_numerals(text: &[u8]) -> bool
    ensures value { result ≡ list_all is_numeral (words_behind text.now) }
{
    let mut rest = text;
    while !rest.is_empty() {
        let (word, after) = next_word(rest);
        if !is_numeral(word) {
            return false;
        }
        rest = after;
    }
    true
}

/// Whether so many elements from an address on are aligned and lie in SRAM.
fn is_placed(element: ElementType, count: u32, addr: u32) -> bool
    ensures value { result ≡ is_placed element count addr }
{
    let size = u64::from(element.bytes());
    if u64::from(addr) % size != 0 {
        return false;
    }
    if addr < SRAM_START {
        return false;
    }
    u64::from(addr) + size * u64::from(count) <= SRAM_END
}

/// Whether so many elements from an address on share a byte with those of an array.
fn shares(element: ElementType, count: u32, arrays: &[Array], addr: u32) -> bool
    ensures value { result ≡ list_any (λ a. share element count a.addr addr) (map array_written arrays.now) }
{
    let size = u64::from(element.bytes()) * u64::from(count);
    for array in arrays {
        if u64::from(array.addr) < u64::from(addr) + size
            && u64::from(addr) < u64::from(array.addr) + size
        {
            return true;
        }
    }
    false
}

/// The values of the words behind a place, no more than `most`, each below a limit.
fn read_values(
    alloc: Global,
    limit: u64,
    most: u32,
    text: &[u8],
) -> Result<Option<Vec<u32>>, OutOfMemory>
    ensures value { IfOk result (λ v. option_map (λ values. values.items) v
        ≡ (if nat_le (length (words_behind text.now)) most then values_in limit (words_behind text.now) else None)) }
{
    let mut values = Vec::new(alloc);
    let mut rest = text;
    while !rest.is_empty() {
        let (word, after) = next_word(rest);
        if values.len() >= most as usize {
            return Ok(None);
        }
        match number_below(limit, word) {
            Some(value) => values.push(value)?,
            None => return Ok(None),
        }
        rest = after;
    }
    Ok(Some(values))
}

/// The values of an array that is in its bounds.
fn bounded_values(
    alloc: Global,
    x: &Text,
    addr: u32,
    text: &[u8],
) -> Result<Option<Vec<u32>>, OutOfMemory>
    ensures value { IfOk result (λ v. option_map (λ values. values.items) v ≡ bounded_values x.now.element x.now.count addr (words_behind text.now)) }
{
    if !is_placed(x.element, x.count, addr) {
        return Ok(None);
    }
    read_values(alloc, modulus(x.element), x.count, text)
}

/// A line's refusal.
pub fn refused(line: u32, kind: KernelKind) -> KernelErr
    ensures value { result ≡ KernelErr.Line line kind }
{
    KernelErr::Line { line, kind }
}

/// The array of a line whose name is new, where its values are in bounds and it shares no byte with an earlier one.
fn placed_array(
    alloc: Global,
    x: &Text,
    said: Parts<'_>,
    addr: u32,
    line: u32,
) -> Result<Array, KernelErr>
    ensures read { Gives (λ a. with_written_array (written x.now) (array_written a)) result
        (on_line line (behind_array (written x.now) said.entry.name.now addr
        (bounded_values x.now.element x.now.count addr (words_behind said.entry.more.now)))) }
{
    let Some(values) = bounded_values(alloc, x, addr, said.more)? else {
        return Err(refused(line, KernelKind::Range));
    };
    if shares(x.element, x.count, &x.arrays, addr) {
        return Err(refused(line, KernelKind::Overlap));
    }
    let name = Vec::from_slice(alloc, said.name)?;
    Ok(Array { name, addr, values })
}

/// The array of a line, behind the arrays and lines of a text: its name, its address, and the words of its values.
#[tactic(auto, unfolding(crate::specs::ReadLine::with_array))]
fn new_array(
    alloc: Global,
    x: &Text,
    said: Parts<'_>,
    addr: u32,
    line: u32,
) -> Result<Array, KernelErr>
    requires few { length x.now.arrays.items ≤ 16 }
    ensures none { IfOk result (λ _. x.now.lines.items ≡ []) }
    ensures read { Gives (λ a. with_written_array (written x.now) (array_written a)) result
        (on_line line (with_array (written x.now) said.entry.name.now addr (words_behind said.entry.more.now))) }
{
    if !x.lines.is_empty() {
        return Err(refused(line, KernelKind::Syntax));
    }
    if x.arrays.len() >= MOST_LINES {
        return Err(refused(line, KernelKind::Large));
    }
    if position(&x.arrays, said.name).is_some() {
        return Err(refused(line, KernelKind::Name));
    }
    placed_array(alloc, x, said, addr, line)
}

/// The array that a line is said to be of, in the line of a number.
fn read_array(alloc: Global, x: &Text, said: Parts<'_>, line: u32) -> Result<Array, KernelErr>
    requires few { length x.now.arrays.items ≤ 16 }
    ensures none { IfOk result (λ _. x.now.lines.items ≡ []) }
    ensures read { Gives (λ a. with_written_array (written x.now) (array_written a)) result
        (on_line line (by_form (written x.now) (array_form said.entry.name.now said.entry.third.now (words_behind said.entry.more.now)))) }
{
    if !are_numerals(said.more) {
        return Err(refused(line, KernelKind::Syntax));
    }
    let Some(addr) = read_hex8(said.third) else {
        return Err(refused(line, KernelKind::Syntax));
    };
    new_array(alloc, x, said, addr, line)
}

/// The tree of words that are known to be an expression of at most 64 names and numbers.
fn read_expr<'a>(alloc: Global, text: &'a [u8]) -> Result<Tree<'a>, OutOfMemory>
    requires few { IsSomeAnd (tree_in (words_behind text.now)) (λ t. leaves t ≤ 64) }
    ensures tree { IfOk result (λ t. tree_in (words_behind text.now) ≡ Some (tree_of t)) }
{
    match read_tree(alloc, text, MOST_LEAVES)? {
        Some((tree, _rest)) => Ok(tree),
        None => unreachable!(),
    }
}

/// The line that sets the array of a name to an expression, in the line of a number, where there are arrays and it is not too large.
#[tactic(auto, unfolding(crate::specs::ReadLine::with_set))]
fn new_set(
    alloc: Global,
    x: &Text,
    name: &[u8],
    tree: &Tree<'_>,
    line: u32,
) -> Result<Line, KernelErr>
    requires few { length x.now.arrays.items ≤ 16 }
    requires some { 1 ≤ length x.now.arrays.items }
    requires room { length x.now.lines.items < 16 }
    requires short { leaves (tree_of tree.now) ≤ 64 }
    ensures read { Gives (λ l. with_written_set (written x.now) (set_written x.now.arrays.items l)) result
        (on_line line (with_set (written x.now) name.now (tree_of tree.now))) }
    ensures set { IfOk result (IsSet x.now.element (length x.now.arrays.items)) }
{
    let Some(array) = position(&x.arrays, name) else {
        return Err(refused(line, KernelKind::Name));
    };
    if !knows(&x.arrays, tree) {
        return Err(refused(line, KernelKind::Name));
    }
    if !in_range(modulus(x.element), tree) {
        return Err(refused(line, KernelKind::Range));
    }
    if !needs_at_most(REGISTERS, tree) {
        return Err(refused(line, KernelKind::Deep));
    }
    let expr = resolve(alloc, x.element, &x.arrays, tree)?;
    Ok(Line { array, expr })
}

/// The line that sets an array, as a line is said to, in the line of a number.
#[tactic(auto, unfolding(crate::specs::ReadLine::with_set))]
fn read_set(alloc: Global, x: &Text, said: Parts<'_>, line: u32) -> Result<Line, KernelErr>
    requires few { length x.now.arrays.items ≤ 16 }
    ensures read { Gives (λ l. with_written_set (written x.now) (set_written x.now.arrays.items l)) result
        (on_line line (by_form (written x.now) (set_form said.entry.name.now said.entry.third.now (words_behind said.entry.more.now)))) }
    ensures set { IfOk result (IsSet x.now.element (length x.now.arrays.items)) }
{
    if said.third != b"=".as_slice() {
        return Err(refused(line, KernelKind::Syntax));
    }
    let Some(leaves) = count_leaves(alloc, said.more)? else {
        return Err(refused(line, KernelKind::Syntax));
    };
    if x.arrays.is_empty() {
        return Err(refused(line, KernelKind::Syntax));
    }
    if x.lines.len() >= MOST_LINES {
        return Err(refused(line, KernelKind::Large));
    }
    if leaves > MOST_LEAVES as usize {
        return Err(refused(line, KernelKind::Large));
    }
    let tree = read_expr(alloc, said.more)?;
    new_set(alloc, x, said.name, &tree, line)
}

/// Adds what a line says to a text, in the line of a number.
pub fn add_line(alloc: Global, x: &mut Text, text: &[u8], line: u32) -> Result<(), KernelErr>
    requires few { length x.old.arrays.items ≤ 16 }
    requires sets { All (IsSet x.old.element (length x.old.arrays.items)) x.old.lines.items }
    ensures read { Gives (λ _. written x.new) result (on_line line (line_in (written x.old) text.now)) }
    ensures sets { OnOk result (All (IsSet x.new.element (length x.new.arrays.items)) x.new.lines.items) }
{
    let Some(said) = parts_of(text) else {
        return Err(refused(line, KernelKind::Syntax));
    };
    if said.kind == b"array".as_slice() {
        let array = read_array(alloc, x, said, line)?;
        x.arrays.push(array)?;
        return Ok(());
    }
    if said.kind == b"set".as_slice() {
        let set = read_set(alloc, x, said, line)?;
        x.lines.push(set)?;
        return Ok(());
    }
    Err(refused(line, KernelKind::Syntax))
}
