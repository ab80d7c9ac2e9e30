//! The form of a line's tokens, read token by token.

ghost use Rattle.std.specs.Prelude.{◌≡◌, if◌then◌else◌};
ghost use Rattle.hm_line.specs.Kinds.{kind};
ghost use Rattle.hm_line.specs.Steps.{behind_address, behind_first_word, behind_hash, behind_item, behind_item_word, behind_label_or_word, behind_lane};
ghost use Rattle.hm_line.specs.Steps.{behind_operand, behind_word, first_operand, is_line_end, is_word, line_step, operand_step};
ghost use Rattle.hm_tokens.specs.Tokens.{tok};

use hm_tokens::{Mark, Token, is_number};

/// What a text is read as.
#[derive(Clone, Copy)]
pub enum Form {
    /// An instruction or directive alone.
    Instruction,
    /// A line of a source: an optional label, and an optional instruction or directive.
    Line,
}

/// Whether an operand stands in the brackets of an address.
#[derive(Clone, Copy)]
pub enum Depth {
    Outside,
    Inside,
}

/// What was read last of the operands.
#[derive(Clone, Copy)]
pub enum Operands {
    /// A comma or `[`: an operand follows.
    Operand(Depth),
    /// A word that begins an operand.
    Word(Depth),
    /// A `#` that begins an operand.
    Hash(Depth),
    /// What a number must follow, and then nothing more of the operand.
    Number(Depth),
    /// The `[` of a lane.
    LaneNumber(Depth),
    /// The number of a lane.
    LaneEnd(Depth),
    /// An operand, whole.
    Done(Depth),
    /// The `]` of an address.
    Address,
    /// A `{`, or a comma of a list.
    List,
    /// A word of a list.
    ListWord,
    /// The `-` of two words of a list.
    ListTo,
    /// Two words of a list, with `-` between them.
    ListDone,
}

/// What was read last of a line.
#[derive(Clone, Copy)]
pub enum State {
    /// Nothing.
    Start,
    /// The first word of a line: that of an instruction or directive, or a label where `:` follows.
    LabelOrWord,
    /// A label with its `:`.
    Label,
    /// The first word of an instruction or directive, behind a label.
    FirstWord,
    /// Something of the operands.
    Operands(Operands),
}

/// What an operand's first token leads to.
fn first_operand(depth: Depth, token: Token<'_>) -> Option<Operands>
    ensures { result ≡ first_operand depth (kind (tok token.entry)) }
{
    match token {
        Token::Word(_) => Some(Operands::Word(depth)),
        Token::Number(_) => Some(Operands::Done(depth)),
        Token::Mark(Mark::Hash) => Some(Operands::Hash(depth)),
        Token::Mark(Mark::Minus) => Some(Operands::Number(depth)),
        Token::Mark(Mark::OpenBracket) => match depth {
            Depth::Outside => Some(Operands::Operand(Depth::Inside)),
            Depth::Inside => None,
        },
        Token::Mark(Mark::OpenBrace) => match depth {
            Depth::Outside => Some(Operands::List),
            Depth::Inside => None,
        },
        Token::Mark(_) => None,
    }
}

/// What a token behind a whole operand leads to.
fn behind_operand(depth: Depth, token: Token<'_>) -> Option<Operands>
    ensures { result ≡ behind_operand depth (kind (tok token.entry)) }
{
    match token {
        Token::Mark(Mark::Comma) => Some(Operands::Operand(depth)),
        Token::Mark(Mark::CloseBracket) => match depth {
            Depth::Outside => None,
            Depth::Inside => Some(Operands::Address),
        },
        _ => None,
    }
}

/// What a token behind an operand's first word leads to.
fn behind_word(depth: Depth, token: Token<'_>) -> Option<Operands>
    ensures { result ≡ behind_word depth (kind (tok token.entry)) }
{
    match token {
        Token::Mark(Mark::Bang) => Some(Operands::Done(depth)),
        Token::Mark(Mark::Hash) => Some(Operands::Number(depth)),
        Token::Mark(Mark::Plus) => Some(Operands::Number(depth)),
        Token::Mark(Mark::OpenBracket) => Some(Operands::LaneNumber(depth)),
        other => behind_operand(depth, other),
    }
}

/// What a token behind the `#` of an immediate leads to.
fn behind_hash(depth: Depth, token: Token<'_>) -> Option<Operands>
    ensures { result ≡ behind_hash depth (kind (tok token.entry)) }
{
    match token {
        Token::Number(_) => Some(Operands::Done(depth)),
        Token::Mark(Mark::Minus) => Some(Operands::Number(depth)),
        _ => None,
    }
}

/// What a token behind the number of a lane leads to.
fn behind_lane(depth: Depth, token: Token<'_>) -> Option<Operands>
    ensures { result ≡ behind_lane depth (kind (tok token.entry)) }
{
    match token {
        Token::Mark(Mark::CloseBracket) => Some(Operands::Done(depth)),
        _ => None,
    }
}

/// What a token behind the `]` of an address leads to.
fn behind_address(token: Token<'_>) -> Option<Operands>
    ensures { result ≡ behind_address (kind (tok token.entry)) }
{
    match token {
        Token::Mark(Mark::Bang) => Some(Operands::Done(Depth::Outside)),
        other => behind_operand(Depth::Outside, other),
    }
}

/// What a token behind a whole item of a list leads to.
fn behind_item(token: Token<'_>) -> Option<Operands>
    ensures { result ≡ behind_item (kind (tok token.entry)) }
{
    match token {
        Token::Mark(Mark::Comma) => Some(Operands::List),
        Token::Mark(Mark::CloseBrace) => Some(Operands::Done(Depth::Outside)),
        _ => None,
    }
}

/// What a token behind the first word of an item leads to.
fn behind_item_word(token: Token<'_>) -> Option<Operands>
    ensures { result ≡ behind_item_word (kind (tok token.entry)) }
{
    match token {
        Token::Mark(Mark::Minus) => Some(Operands::ListTo),
        other => behind_item(other),
    }
}

/// Whether a token is a word.
fn is_word(token: Token<'_>) -> bool
    ensures { result ≡ is_word (kind (tok token.entry)) }
{
    match token {
        Token::Word(_) => true,
        Token::Number(_) | Token::Mark(_) => false,
    }
}

/// What is left of a step where a condition holds.
fn only_if<T: Drop>(holds: bool, next: T) -> Option<T>
    ensures { result ≡ (if holds then Some next else None) }
{
    if holds { Some(next) } else { None }
}

/// What a token of the operands leads to.
fn operand_step(last: Operands, token: Token<'_>) -> Option<Operands>
    ensures { result ≡ operand_step last (kind (tok token.entry)) }
{
    match last {
        Operands::Operand(depth) => first_operand(depth, token),
        Operands::Word(depth) => behind_word(depth, token),
        Operands::Hash(depth) => behind_hash(depth, token),
        Operands::Number(depth) => only_if(is_number(token), Operands::Done(depth)),
        Operands::LaneNumber(depth) => only_if(is_number(token), Operands::LaneEnd(depth)),
        Operands::LaneEnd(depth) => behind_lane(depth, token),
        Operands::Done(depth) => behind_operand(depth, token),
        Operands::Address => behind_address(token),
        Operands::List => only_if(is_word(token), Operands::ListWord),
        Operands::ListWord => behind_item_word(token),
        Operands::ListTo => only_if(is_word(token), Operands::ListDone),
        Operands::ListDone => behind_item(token),
    }
}

/// What a token behind the first word of an instruction or directive leads to.
fn behind_first_word(apart: bool, token: Token<'_>) -> Option<State>
    ensures { result ≡ behind_first_word apart (kind (tok token.entry)) }
{
    if !apart {
        return None;
    }
    match first_operand(Depth::Outside, token) {
        Some(last) => Some(State::Operands(last)),
        None => None,
    }
}

/// What a token behind the first word of a line leads to.
fn behind_label_or_word(form: Form, apart: bool, token: Token<'_>) -> Option<State>
    ensures { result ≡ behind_label_or_word form apart (kind (tok token.entry)) }
{
    match token {
        Token::Mark(Mark::Colon) => match form {
            Form::Instruction => None,
            Form::Line => Some(State::Label),
        },
        other => behind_first_word(apart, other),
    }
}

/// What a token leads to, of which is known whether a space stands before it; None where it may not stand there.
pub fn step(form: Form, state: State, apart: bool, token: Token<'_>) -> Option<State>
    ensures { result ≡ line_step form state apart (kind (tok token.entry)) }
{
    match state {
        State::Start => only_if(is_word(token), State::LabelOrWord),
        State::LabelOrWord => behind_label_or_word(form, apart, token),
        State::Label => only_if(is_word(token), State::FirstWord),
        State::FirstWord => behind_first_word(apart, token),
        State::Operands(last) => match operand_step(last, token) {
            Some(next) => Some(State::Operands(next)),
            None => None,
        },
    }
}

/// Whether a line may end here.
pub fn is_end(form: Form, state: State) -> bool
    ensures { result ≡ is_line_end form state }
{
    match state {
        State::Start => matches!(form, Form::Line),
        State::LabelOrWord | State::Label | State::FirstWord => true,
        State::Operands(last) => matches!(
            last,
            Operands::Word(Depth::Outside) | Operands::Done(Depth::Outside) | Operands::Address
        ),
    }
}
