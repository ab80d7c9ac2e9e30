//! Cutting a text at a mark.

ghost use Rattle.std.specs.Prelude.{◌≡◌, ◌≤◌, length};
ghost use Rattle.hm_text_base.specs.Spans.{span};

/// What stands before the first mark, and the rest from that mark on: nothing, where the text has no mark.
#[tactic(auto, using(crate::proofs::SpanLaws::span_is))]
pub fn span(mark: u8, text: &[u8]) -> (&[u8], &[u8])
    ensures parts { (result.0.now, result.1.now) ≡ span mark text.now }
    ensures shorter { length result.1.now ≤ length text.now }
{
    let mut at = 0;
    while at < text.len() && text[at] != mark {
        at += 1;
    }
    text.split_at(at)
}
