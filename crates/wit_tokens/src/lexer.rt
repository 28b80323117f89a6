//! From text to tokens.
ghost use Rattle.std.specs.Prelude.{◌≡◌, ◌<◌, ◌≤◌, ◌+◌, ◌-◌, ◌^◌, ◌∷◌, IsTrue, false, length, take, drop};
ghost use Rattle.std.specs.Prelude.{if◌then◌else◌, IfOk, IfErr, IfSome, IfNone, None, All};
ghost use Rattle.atoms.specs.Label.{are_words};
ghost use Rattle.wit_tokens.specs.Lexing.{is_letter, is_blank, is_in_version, blank_run, word_run, digit_run};
ghost use Rattle.wit_tokens.specs.Lexing.{version_run, line_run, comment_run, plus, begins_with, begins_pair};
ghost use Rattle.wit_tokens.specs.Lexing.{begins_letter, begins_digit, mark_of, char_len, token, slash_front};
ghost use Rattle.wit_tokens.specs.Lexing.{word_kind, word_front, escape_front, at_front, front_of, Takes, limit, Lexes};
ghost use Rattle.wit_tokens.specs.Lexing.{LexFault, token_from};
ghost use Rattle.wit_tokens.specs.LowerWords.{begins_lower};
ghost use Rattle.wit_tokens.specs.Tokens.{IsNamed};
ghost use Rattle.wit_tokens.specs.declared.lexer.Front.TheVariants as front;
ghost use Rattle.wit_tokens.specs.declared.token.Punctuation.TheVariants as mark;
ghost use Rattle.wit_tokens.specs.declared.token.TokenKind.TheVariants as kind;

use crate::error::TextError;
use crate::keyword::keyword_of;
use crate::lanes::{LANES, lanes_on};
use crate::token::{Punctuation, Span, Token, TokenKind};
use atoms::is_label;
use std::alloc::Global;

/// The bytes that a text may have.
pub const LIMIT: usize = 1_048_576;

/// What stands at the front of a text, and how many bytes it takes.
#[derive(Clone, Copy)]
pub enum Front {
    Blank(usize),
    Token(TokenKind, usize),
    Bad(usize),
    OpenComment,
}

/// A token's kind, and how many bytes it takes.
#[derive(Clone, Copy)]
struct FrontToken {
    kind: TokenKind,
    len: usize,
}

fn is_blank(byte: u8) -> bool
    ensures { result ≡ is_blank byte }
{
    byte == b' ' || byte == b'\t' || byte == b'\n' || byte == b'\r'
}

fn letter(byte: u8) -> bool
    ensures { result ≡ is_letter byte }
{
    byte.is_ascii_alphabetic()
}

fn begins_with(text: &[u8], byte: u8) -> bool
    ensures { result ≡ begins_with byte text.now }
{
    match text {
        [first, ..] => *first == byte,
        [] => false,
    }
}

fn is_in_version(byte: u8) -> bool
    ensures { result ≡ is_in_version byte }
{
    letter(byte) || byte.is_ascii_digit() || byte == b'.' || byte == b'+' || byte == b'-'
}

pub fn begins_letter(text: &[u8]) -> bool
    ensures { result ≡ begins_letter text.now }
{
    match text {
        [first, ..] => letter(*first),
        [] => false,
    }
}

fn begins_digit(text: &[u8]) -> bool
    ensures { result ≡ begins_digit text.now }
{
    match text {
        [first, ..] => first.is_ascii_digit(),
        [] => false,
    }
}

fn begins_pair(text: &[u8], first: u8, second: u8) -> bool
    ensures { result ≡ begins_pair first second text.now }
{
    match text {
        [one, two, ..] => *one == first && *two == second,
        _ => false,
    }
}

/// Where the run of blanks ends that begins at a place.
pub fn blank_end(text: &[u8], from: usize) -> usize
    requires { from ≤ length text.now }
    ensures is { result ≡ from + blank_run (drop from text.now) }
    ensures within { result ≤ length text.now }
{
    let mut at = from;
    while at < text.len() && is_blank(text[at]) {
        at += 1;
    }
    at
}

/// The length of the word at the front, if it is a label of lower-case letters and digits, of any length, as most are.
/// It goes over sixteen bytes at a time, and says nothing by `None`, as of a word at the end of the text.
fn lower_word_len(text: &[u8]) -> Option<usize>
    requires { IsTrue (begins_lower text.now) }
    ensures is { IfSome result (λ n. n ≡ word_run text.now) }
    ensures words { IfSome result (λ n. IsTrue (are_words (take n text.now))) }
    ensures within { IfSome result (λ n. (0 < n) × (n ≤ length text.now)) }
{
    let mut last = 0;
    while text.len() - last > LANES {
        let run = lanes_on(text, last);
        last += run;
        if run < LANES {
            if text[last] == b'-' || text[last + 1].is_ascii_uppercase() {
                return None;
            }
            return Some(last + 1);
        }
    }
    None
}

/// The length of the longest word at the front.
fn word_len(text: &[u8]) -> usize
    ensures is { result ≡ word_run text.now }
    ensures within { result ≤ length text.now }
{
    let mut len = 0;
    while len < text.len() {
        let byte = text[len];
        let joins = byte == b'-' && !begins_with(&text[len + 1..], b'>');
        if !(byte.is_ascii_alphabetic() || byte.is_ascii_digit() || joins) {
            return len;
        }
        len += 1;
    }
    len
}

fn digit_len(text: &[u8]) -> usize
    ensures is { result ≡ digit_run text.now }
    ensures within { result ≤ length text.now }
{
    let mut len = 0;
    for byte in text {
        if !byte.is_ascii_digit() {
            return len;
        }
        len += 1;
    }
    len
}

/// The length of the longest run of a version's characters that doesn't end with a dot.
fn version_len(text: &[u8]) -> usize
    ensures is { result ≡ version_run text.now }
    ensures within { result ≤ length text.now }
{
    let mut len = 0;
    let mut at = 0;
    while at < text.len() {
        let byte = text[at];
        if !is_in_version(byte) {
            return len;
        }
        at += 1;
        if byte != b'.' {
            len = at;
        }
    }
    len
}

fn line_len(text: &[u8]) -> usize
    ensures is { result ≡ line_run text.now }
    ensures within { result ≤ length text.now }
{
    let mut len = 0;
    for byte in text {
        if *byte == b'\n' {
            return len;
        }
        len += 1;
    }
    len
}

/// One step inside comments: how many bytes it takes, and how many comments are open behind it.
#[tactic(auto, using(crate::proofs::OpenComments::comment_at), unfolding(crate::specs::Lexing::comment_run))]
fn comment_step(text: &[u8], level: usize) -> Option<(usize, usize)>
    requires open { 0 < level }
    requires small { level ≤ 2 ^ 60 }
    ensures some { IfSome result (λ s. comment_run level text.now ≡ plus s.0 (comment_run s.1 (drop s.0 text.now))) }
    ensures within { IfSome result (λ s. (0 < s.0) × (s.0 ≤ length text.now) × (s.1 < level + s.0)) }
    ensures none { IfNone result (comment_run level text.now ≡ None) }
{
    if begins_pair(text, b'/', b'*') {
        return Some((2, level + 1));
    }
    if begins_pair(text, b'*', b'/') {
        return Some((2, level - 1));
    }
    if text.len() < 2 {
        return None;
    }
    Some((1, level))
}

/// The length of the rest of a comment, behind its `/*`, with its `*/`.
#[tactic(auto, using(crate::proofs::OpenComments::plus_plus, crate::proofs::OpenComments::none_left))]
fn comment_len(text: &[u8]) -> Option<usize>
    requires { length text.now < 2 ^ 60 }
    ensures is { result ≡ comment_run 1 text.now }
    ensures within { IfSome result (λ n. n ≤ length text.now) }
{
    let mut len = 0;
    let mut level = 1;
    while level > 0 {
        let (taken, behind) = comment_step(&text[len..], level)?;
        len += taken;
        level = behind;
    }
    Some(len)
}

#[inline(always)]
fn mark_of(byte: u8) -> Option<Punctuation>
    ensures { result ≡ mark_of byte }
{
    match byte {
        b':' => Some(Punctuation::Colon),
        b';' => Some(Punctuation::Semicolon),
        b',' => Some(Punctuation::Comma),
        b'.' => Some(Punctuation::Dot),
        b'{' => Some(Punctuation::OpenBrace),
        b'}' => Some(Punctuation::CloseBrace),
        b'(' => Some(Punctuation::OpenParenthesis),
        b')' => Some(Punctuation::CloseParenthesis),
        b'<' => Some(Punctuation::Less),
        b'>' => Some(Punctuation::Greater),
        b'=' => Some(Punctuation::Equals),
        b'_' => Some(Punctuation::Underscore),
        _ => None,
    }
}

fn char_len(first: u8) -> usize
    ensures { result ≡ char_len first }
{
    match first {
        0..128 => 1,
        128..224 => 2,
        224..240 => 3,
        _ => 4,
    }
}

#[tactic(auto, unfolding(crate::specs::Lexing::slash_front))]
fn slash_front(text: &[u8]) -> Front
    requires { length text.now < 2 ^ 60 }
    ensures is { result ≡ slash_front text.now }
    ensures within { Takes result (length text.now + 1) }
{
    if begins_with(text, b'/') {
        return Front::Blank(line_len(text) + 1);
    }
    match text {
        [b'*', rest @ ..] => match comment_len(rest) {
            Some(len) => Front::Blank(len + 2),
            None => Front::OpenComment,
        },
        _ => Front::Token(TokenKind::Punctuation(Punctuation::Slash), 1),
    }
}

/// The kind of a word.
#[inline(always)]
fn word_kind(word: &[u8]) -> TokenKind
    ensures { result ≡ word_kind word.now }
{
    match keyword_of(word) {
        Some(keyword) => TokenKind::Keyword(keyword),
        None => TokenKind::Identifier,
    }
}

/// The word at the front.
#[tactic(auto, unfolding(crate::specs::Lexing::word_front))]
fn word_front(text: &[u8]) -> Front
    requires { IsTrue (begins_letter text.now) }
    ensures is { result ≡ word_front text.now }
    ensures within { Takes result (length text.now) }
{
    let len = word_len(text);
    let word = &text[..len];
    if is_label(word) {
        Front::Token(word_kind(word), len)
    } else {
        Front::Bad(len)
    }
}

/// What stands behind `%`.
#[tactic(auto, unfolding(crate::specs::Lexing::escape_front))]
fn escape_front(text: &[u8]) -> Front
    requires { length text.now < 2 ^ 60 }
    ensures is { result ≡ escape_front text.now }
    ensures within { Takes result (length text.now + 1) }
{
    if !begins_letter(text) {
        return Front::Bad(1);
    }
    let len = word_len(text);
    if is_label(&text[..len]) {
        Front::Token(TokenKind::Identifier, len + 1)
    } else {
        Front::Bad(len + 1)
    }
}

/// What stands behind `@`.
#[tactic(auto, unfolding(crate::specs::Lexing::at_front))]
fn at_front(text: &[u8]) -> Front
    requires { length text.now < 2 ^ 60 }
    ensures is { result ≡ at_front text.now }
    ensures within { Takes result (length text.now + 1) }
{
    if begins_digit(text) {
        Front::Token(TokenKind::Version, version_len(text) + 1)
    } else {
        Front::Token(TokenKind::Punctuation(Punctuation::At), 1)
    }
}

/// An arrow, or a hyphen that begins no token.
fn hyphen_front(rest: &[u8]) -> Front
    ensures is { result ≡ if begins_with 62 rest.now then token (kind.Punctuation mark.Arrow) 2 else front.Bad 1 }
    ensures within { Takes result (length rest.now + 1) }
{
    if begins_with(rest, b'>') {
        Front::Token(TokenKind::Punctuation(Punctuation::Arrow), 2)
    } else {
        Front::Bad(1)
    }
}

/// What stands at the front where that is no blank, no word and no mark of one character.
#[tactic(auto, unfolding(crate::specs::Lexing::front_of, crate::specs::Lexing::punctuation_front))]
fn other_front(first: u8, rest: &[u8]) -> Front
    requires small { length rest.now < 2 ^ 60 }
    requires blank { is_blank first ≡ false }
    requires letter { is_letter first ≡ false }
    requires mark { mark_of first ≡ None }
    ensures is { result ≡ front_of (first ∷ rest.now) }
    ensures within { Takes result (length rest.now + 1) }
{
    match first {
        b'0'..=b'9' => Front::Token(TokenKind::Integer, digit_len(rest) + 1),
        b'/' => slash_front(rest),
        b'%' => escape_front(rest),
        b'@' => at_front(rest),
        b'-' => hyphen_front(rest),
        _ => Front::Bad(char_len(first)),
    }
}

/// What stands at the front of the text.
#[tactic(auto, unfolding(crate::specs::Lexing::front_of))]
fn front_of(text: &[u8]) -> Front
    requires { length text.now < 2 ^ 60 }
    ensures is { result ≡ front_of text.now }
    ensures within { 0 < length text.now → Takes result (length text.now) }
{
    let [first, rest @ ..] = text else {
        return Front::Blank(0);
    };
    let first = *first;
    if is_blank(first) {
        return Front::Blank(1);
    }
    if letter(first) {
        return word_front(text);
    }
    match mark_of(first) {
        Some(mark) => Front::Token(TokenKind::Punctuation(mark), 1),
        None => other_front(first, rest),
    }
}

/// What stands at a place of the text.
#[inline(never)]
pub fn front_at(text: &[u8], at: usize) -> Front
    requires within { at < length text.now }
    requires small { length text.now < 2 ^ 60 }
    ensures is { result ≡ front_of (drop at text.now) }
    ensures within { Takes result (length text.now - at) }
{
    front_of(&text[at..])
}

/// The word at the front, if it is a label of lower-case letters and digits. `None` says nothing.
fn lower_word(text: &[u8]) -> Option<FrontToken>
    requires { IsTrue (begins_lower text.now) }
    ensures is { IfSome result (λ p. token p.kind p.len ≡ front_of text.now) }
    ensures within { IfSome result (λ p. (0 < p.len) × (p.len ≤ length text.now)) }
{
    match lower_word_len(text) {
        Some(len) if len <= 255 => Some(FrontToken {
            kind: word_kind(&text[..len]),
            len,
        }),
        _ => None,
    }
}

/// The token at the front, if it is one of those that most texts are made of. `None` says nothing.
fn common_front(text: &[u8]) -> Option<FrontToken>
    ensures is { IfSome result (λ p. token p.kind p.len ≡ front_of text.now) }
    ensures within { IfSome result (λ p. (0 < p.len) × (p.len ≤ length text.now)) }
{
    let [first, ..] = text else {
        return None;
    };
    if first.is_ascii_lowercase() {
        return lower_word(text);
    }
    match mark_of(*first) {
        Some(mark) => Some(FrontToken {
            kind: TokenKind::Punctuation(mark),
            len: 1,
        }),
        None => None,
    }
}

/// The token of a kind and a length that stands at a place.
fn token_from(kind: TokenKind, at: usize, len: usize) -> Token
    requires { at + len < 2 ^ 32 }
    ensures { result ≡ token_from kind at len }
{
    Token {
        kind,
        start: at as u32,
        end: (at + len) as u32,
    }
}

/// The tokens of a text: 36 where it is too long, else 30 or 31 for the first character, word or comment that is
/// neither token nor blank.
#[inline(never)]
#[tactic(auto, unfolding(crate::specs::Lexing::limit))]
pub fn lex(alloc: Global, text: &str) -> Result<Vec<Token>, TextError>
    ensures ok { IfOk result (λ ts. (length text.now ≤ limit) × Lexes text.now ts.items) }
    ensures few { IfOk result (λ ts. length ts.items ≤ length text.now) }
    ensures named { IfOk result (λ ts. All (IsNamed text.now) ts.items) }
    ensures err { IfErr result (λ e. LexFault text.now e) }
{
    let bytes = text.as_bytes();
    if bytes.len() > LIMIT {
        return Err(TextError::Limit);
    }
    // In most texts a token takes four bytes or more, with the blanks around it.
    let mut tokens = Vec::with_capacity(alloc, bytes.len() / 4)?;
    let mut at = 0;
    while at < bytes.len() {
        if let Some(piece) = common_front(&bytes[at..]) {
            tokens.push(token_from(piece.kind, at, piece.len))?;
            at = blank_end(bytes, at + piece.len);
            continue;
        }
        match front_at(bytes, at) {
            Front::Blank(len) => at = blank_end(bytes, at + len),
            Front::Token(kind, len) => {
                tokens.push(token_from(kind, at, len))?;
                at += len;
            }
            Front::Bad(len) => {
                let end = at + len;
                return Err(TextError::BadChar(Span { start: at, end }));
            }
            Front::OpenComment => {
                let end = bytes.len();
                return Err(TextError::OpenComment(Span { start: at, end }));
            }
        }
    }
    Ok(tokens)
}
