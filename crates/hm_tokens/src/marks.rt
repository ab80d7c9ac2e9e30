//! The marks of assembly text.

ghost use Rattle.std.specs.Prelude.{◌≡◌, ◌∷◌, [], None, Some, option_map, if◌then◌else◌};
ghost use Rattle.hm_tokens.specs.Marks.{is_mark, mark_byte};

/// A mark.
#[derive(Clone, Copy)]
pub enum Mark {
    /// `:`
    Colon,
    /// `,`
    Comma,
    /// `#`
    Hash,
    /// `[`
    OpenBracket,
    /// `]`
    CloseBracket,
    /// `{`
    OpenBrace,
    /// `}`
    CloseBrace,
    /// `!`
    Bang,
    /// `-`
    Minus,
    /// `+`
    Plus,
}

impl Mark {
    /// The mark that a byte is.
    pub fn of(c: u8) -> Option<Mark>
        ensures value { option_map mark_byte result ≡ (if is_mark c then Some c else None) }
    {
        match c {
            b':' => Some(Mark::Colon),
            b',' => Some(Mark::Comma),
            b'#' => Some(Mark::Hash),
            b'[' => Some(Mark::OpenBracket),
            b']' => Some(Mark::CloseBracket),
            b'{' => Some(Mark::OpenBrace),
            b'}' => Some(Mark::CloseBrace),
            b'!' => Some(Mark::Bang),
            b'-' => Some(Mark::Minus),
            b'+' => Some(Mark::Plus),
            _ => None,
        }
    }

    /// How it is written.
    pub fn text(self) -> &'static str
        ensures text { result.now ≡ mark_byte self ∷ [] }
    {
        match self {
            Mark::Colon => ":",
            Mark::Comma => ",",
            Mark::Hash => "#",
            Mark::OpenBracket => "[",
            Mark::CloseBracket => "]",
            Mark::OpenBrace => "{",
            Mark::CloseBrace => "}",
            Mark::Bang => "!",
            Mark::Minus => "-",
            Mark::Plus => "+",
        }
    }
}
