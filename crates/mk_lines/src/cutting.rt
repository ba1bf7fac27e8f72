ghost use Rattle.std.specs.Prelude.{◌≡◌, ◌≤◌, ◌==◌, not, length, take_while};
ghost use Rattle.mk_lines.specs.Cutting.{Cuts};

/// How many bytes stand before the first line feed.
fn line_len(text: &[u8]) -> usize
    ensures count { result ≡ length (take_while (λ b. not (b == 10)) text.now) }
    ensures within { result ≤ length text.now }
{
    text.iter().take_while(|byte| **byte != b'\n').count()
}

/// The first line, and the bytes behind its line feed. `None` where there is no line feed.
pub fn cut(text: &[u8]) -> Option<(&[u8], &[u8])>
    ensures { Cuts result text.now }
{
    let (line, behind) = text.split_at(line_len(text));
    match behind {
        [] => None,
        [_, rest @ ..] => Some((line, rest)),
    }
}
