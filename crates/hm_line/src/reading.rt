//! Reading the form of a text.

ghost use Rattle.std.specs.Prelude.{◌≡◌, ◌≤◌, ◌↔◌, ℕ, List, length, nat_lt, MatchResult, IsOk, Err};
ghost use Rattle.hm_line.specs.Texts.{column, IsLast, IsOfForm, IsRefused};
ghost use Rattle.hm_tokens.specs.Tokens.{skip};

use crate::form::{Form, State, is_end, step};
use hm_tokens::{skip, token_at};

/// The column, from 1, at which the last bytes of a text begin; 4,294,967,295 where it is past that.
pub fn column(text: &[u8], rest: &[u8]) -> u32
    requires { length rest.now ≤ length text.now }
    ensures value { result ≡ column text.now rest.now }
{
    let before = text.len() - rest.len();
    if before < 0xffff_ffff {
        before as u32 + 1
    } else {
        0xffff_ffff
    }
}

/// Whether a space stands at the front of a text, of which this stands behind its spaces.
fn stands_apart(text: &[u8], here: &[u8]) -> bool
    ensures value { result ≡ nat_lt (length here.now) (length text.now) }
{
    here.len() < text.len()
}

/// Reads a text to its end, and answers the column where it leaves the form.
fn follow(form: Form, text: &[u8]) -> Result<(), u32>
    ensures read { MatchResult result (λ _. IsOfForm form text.now) (λ c. IsRefused form text.now c) }
{
    let mut state = State::Start;
    let mut rest = text;
    loop {
        let here = skip(rest);
        if here.is_empty() {
            return if is_end(form, state) {
                Ok(())
            } else {
                Err(column(text, rest))
            };
        }
        let Some((token, after)) = token_at(here) else {
            return Err(column(text, here));
        };
        let Some(next) = step(form, state, stands_apart(rest, here), token) else {
            return Err(column(text, here));
        };
        state = next;
        rest = after;
    }
}

/// Reads the form of a text, and answers the column where the text leaves it, from 1: that of the first token, or byte of
/// no token, at which the tokens so far begin none of the form; where the text ends too early, one past its last token.
pub fn check_form(form: Form, text: &[u8]) -> Result<(), u32>
    ensures fits { IsOk result ↔ IsOfForm form text.now }
    ensures refused { (c : ℕ) → (IsRefused form text.now c ↔ (result ≡ Err c)) }
{
    follow(form, text)
}

/// The column of the last token of a text, from 1. That is the column of a label, which is an instruction's last operand.
pub fn last_column(text: &[u8]) -> u32
    ensures value { (here : List ℕ) → IsLast text.now here → result ≡ column text.now (skip here) }
{
    let mut rest = text;
    loop {
        let here = skip(rest);
        let Some((_token, after)) = token_at(here) else {
            return column(text, here);
        };
        if skip(after).is_empty() {
            return column(text, here);
        }
        rest = after;
    }
}
