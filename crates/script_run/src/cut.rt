ghost use Rattle.std.specs.Prelude.{◌≡◌, ◌==◌, ◌+◌, ◌++◌, List, ℕ, [], ◌∷◌, length, position, MatchOption, IfSome};
ghost use Rattle.script_text.specs.Script.{parts_of};
ghost use Rattle.script_run.specs.Reach.{HasNoFeed};

fn feed_at(text: &[u8]) -> Option<usize>
    ensures { result ≡ position (λ b. b == 10) text.now }
{
    text.iter().position(|b| *b == b'\n')
}

/// The first line without its line feed, and what stands after that, where there is a line feed.
pub fn first_line(text: &[u8]) -> Option<(&[u8], &[u8])>
    ensures parts { MatchOption result (HasNoFeed text.now) (λ cut. (more : List ℕ) → parts_of (text.now ++ more) ≡ cut.0.now ∷ parts_of (cut.1.now ++ more)) }
    ensures length { IfSome result (λ cut. length cut.0.now + 1 + length cut.1.now ≡ length text.now) }
{
    let at = feed_at(text)?;
    Some((&text[..at], &text[at + 1..]))
}
