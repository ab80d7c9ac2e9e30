//! What the text of a line says.

ghost use Rattle.std.specs.Prelude.{◌≡◌, ◌<◌, ◌^◌, ℕ, length, IfSome, IfNone, IsSomeAnd};
ghost use Rattle.hm_source.specs.Shown.{ShowsSaid};
ghost use Rattle.hm_source.specs.Statements.{Said, Says};
ghost use Rattle.hm_text_tables.specs.Texts.{HasWidth};

use crate::directives::{Directive, read_directive};
use hm_text::shape;

/// What the text of a line says.
#[derive(Clone, Copy)]
pub enum Statement<'a> {
    /// Nothing.
    Nothing,
    /// An instruction whose code has so many bytes.
    Instruction(u32),
    /// A directive.
    Directive(Directive<'a>),
}

/// What an instruction's text says.
fn read_instruction(text: &[u8]) -> Option<Statement<'_>>
    ensures found { IfSome result (λ s. (n : ℕ) × HasWidth text.now n × (s ≡ Statement.Instruction n)) }
    ensures only { (n : ℕ) → HasWidth text.now n → IsSomeAnd result (λ s. s ≡ Statement.Instruction n) }
    ensures none { IfNone result ((n : ℕ) → HasWidth text.now n → ⊥) }
{
    match shape(text) {
        Ok(width) => Some(Statement::Instruction(width)),
        Err(_) => None,
    }
}

/// What the text of a line says, of which no space stands at the front. None where no row and no directive has it.
pub fn read_statement(text: &[u8]) -> Option<Statement<'_>>
    requires small { length text.now < 2 ^ 31 }
    ensures found { IfSome result (λ s. (said : Said) × Says text.now said × ShowsSaid text.now s said) }
    ensures only { (said : Said) → Says text.now said → IsSomeAnd result (λ s. ShowsSaid text.now s said) }
    ensures none { IfNone result ((said : Said) → Says text.now said → ⊥) }
{
    if text.is_empty() {
        return Some(Statement::Nothing);
    }
    if text[0] == b'.' {
        let directive = read_directive(text)?;
        return Some(Statement::Directive(directive));
    }
    read_instruction(text)
}
