//! Comments, by the definition of the lexer.
ghost use Rattle.std.specs.Prelude.{◌≡◌, ◌<◌, ◌≤◌, ◌+◌, ◌^◌, IfSome, IfNone, None, length, drop};
ghost use Rattle.wit_tokens.specs.Lexing.{begins_pair, begins_with, comment_run, line_run, plus, slash_front, front_of};
ghost use Rattle.wit_tokens.specs.declared.lexer.Front.TheVariants as front;
ghost use Rattle.wit_format.specs.Solids.{IsComment};

/// Whether a text begins with these two bytes.
fn begins_pair(text: &[u8], first: u8, second: u8) -> bool
    ensures { result ≡ begins_pair first second text.now }
{
    match text {
        [one, two, ..] => *one == first && *two == second,
        _ => false,
    }
}

/// Whether a text begins with this byte.
fn begins_with(text: &[u8], byte: u8) -> bool
    ensures { result ≡ begins_with byte text.now }
{
    match text {
        [first, ..] => *first == byte,
        [] => false,
    }
}

/// The length of a line's rest.
fn line_len(text: &[u8]) -> usize
    ensures is { result ≡ line_run text.now }
    ensures within { result ≤ length text.now }
{
    let mut len = 0;
    for byte in text {
        if *byte == b'\n' {
            return len;
        }
        len += 1;
    }
    len
}

/// One step inside comments: how many bytes it takes, and how many comments are open behind it.
#[tactic(auto, using(wit_tokens::proofs::OpenComments::comment_at), unfolding(wit_tokens::specs::Lexing::comment_run))]
fn comment_step(text: &[u8], level: usize) -> Option<(usize, usize)>
    requires open { 0 < level }
    requires small { level ≤ 2 ^ 60 }
    ensures some { IfSome result (λ s. comment_run level text.now ≡ plus s.0 (comment_run s.1 (drop s.0 text.now))) }
    ensures within { IfSome result (λ s. (0 < s.0) × (s.0 ≤ length text.now) × (s.1 < level + s.0)) }
{
    if begins_pair(text, b'/', b'*') {
        return Some((2, level + 1));
    }
    if begins_pair(text, b'*', b'/') {
        return Some((2, level - 1));
    }
    if text.len() < 2 {
        return None;
    }
    Some((1, level))
}

/// The length of the rest of a comment, behind its `/*`, with its `*/`.
#[tactic(auto, using(wit_tokens::proofs::OpenComments::plus_plus, wit_tokens::proofs::OpenComments::none_left))]
fn comment_len(text: &[u8]) -> Option<usize>
    requires { length text.now < 2 ^ 60 }
    ensures is { IfSome result (λ n. comment_run 1 text.now ≡ Some n) }
    ensures within { IfSome result (λ n. n ≤ length text.now) }
{
    let mut len = 0;
    let mut level = 1;
    while level > 0 {
        let (taken, behind) = comment_step(&text[len..], level)?;
        len += taken;
        level = behind;
    }
    Some(len)
}

/// The length of a comment behind its `/`, with this.
#[tactic(auto, unfolding(wit_tokens::specs::Lexing::slash_front))]
fn slash_len(text: &[u8]) -> Option<usize>
    requires { length text.now < 2 ^ 60 }
    ensures { IfSome result (λ n. slash_front text.now ≡ front.Blank n) }
{
    if begins_with(text, b'/') {
        return Some(line_len(text) + 1);
    }
    match text {
        [b'*', rest @ ..] => Some(comment_len(rest)? + 2),
        _ => None,
    }
}

/// The length of the comment that begins at a place, if one does.
#[tactic(auto, unfolding(wit_tokens::specs::Lexing::front_of))]
pub fn comment_at(text: &[u8], at: usize) -> Option<usize>
    requires within { at ≤ length text.now }
    requires small { length text.now < 2 ^ 60 }
    ensures { IfSome result (λ n. IsComment text.now at n) }
{
    match &text[at..] {
        [b'/', rest @ ..] => slash_len(rest),
        _ => None,
    }
}
