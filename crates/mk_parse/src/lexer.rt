//! From the bytes of a text to its tokens.

ghost use Rattle.std.specs.Prelude.{◌≡◌, ℕ, ◌+◌, ◌^◌, ◌≤◌, ◌<◌, ◌↔◌, ◌⊎◌, ◌||◌, ◌==◌, ◌++◌, List, [], ◌∷◌, length, take, drop, not, if◌then◌else◌, IfOk, IsTrue, MatchOption, MatchResult, Contains};
ghost use Rattle.std.specs.List.{prefix_len};
ghost use Rattle.mk_parse.specs.declared.TheConstants.{MOST_SOURCE_BYTES};
ghost use Rattle.mk_ast.specs.Tokens.{is_blank, begins_word, goes_on, place_behind, IsGap, IsLastGap, IsToken, IsWord, symbols};
ghost use Rattle.mk_ast.specs.Spells.{NoGapBegins};
ghost use Rattle.mk_parse.specs.Lexing.{IsOfKind, IsPlaced, IsGapBetween, IsTokenBetween, IsLexed, AreAllTokens, IsTokenRefusal, NoTokenBegins};

use crate::token::{Token, TokenList, Written};
use crate::words::{element, is_reserved, number};
use mk_ast::SourceRefusal;
use mk_base::{Items, Memory, Place};
use std::alloc::Global;

/// An index into a text, and the place there.
#[derive(Clone, Copy)]
struct Spot {
    index: usize,
    at: Place,
}

/// The beginning of a text.
const START: Spot = Spot {
    index: 0,
    at: Place { line: 1, column: 1 },
};

/// The tokens at the front of a text, the place behind them and behind the gap that follows, and
/// whether the text ends there.
#[derive(Drop)]
pub(crate) struct Lexed {
    pub(crate) tokens: TokenList,
    pub(crate) end: Place,
    pub(crate) whole: bool,
}

/// Whether this byte is a blank.
fn is_blank(byte: u8) -> bool
    ensures { result ≡ is_blank byte }
{
    matches!(byte, b' ' | b'\t' | b'\r' | b'\n')
}

/// Whether this byte is a blank, or in a comment, or begins one.
fn stands_in_gap(in_comment: bool, byte: u8) -> bool
    ensures { result ≡ (in_comment || (is_blank byte || byte == 35)) }
{
    in_comment || is_blank(byte) || byte == b'#'
}

/// Whether the byte behind this one belongs to a comment.
fn goes_into_comment(in_comment: bool, byte: u8) -> bool
    ensures { result ≡ (if in_comment then not (byte == 10) else byte == 35) }
{
    if in_comment {
        byte != b'\n'
    } else {
        byte == b'#'
    }
}

/// How many bytes of blanks and comments stand at the front.
fn gap_length(bytes: &[u8]) -> usize
    ensures within { result ≤ length bytes.now }
    ensures gap { IsGap (take result bytes.now) ⊎ (IsLastGap (take result bytes.now) × (result ≡ length bytes.now)) }
    ensures begins { NoGapBegins (drop result bytes.now) }
{
    let mut in_comment = false;
    for (index, byte) in bytes.iter().enumerate() {
        if !stands_in_gap(in_comment, *byte) {
            return index;
        }
        in_comment = goes_into_comment(in_comment, *byte);
    }
    bytes.len()
}

/// Whether this byte stands in words and numbers.
fn goes_on(byte: u8) -> bool
    ensures { result ≡ goes_on byte }
{
    byte.is_ascii_alphanumeric() || byte == b'_'
}

/// Whether this byte begins words.
fn begins_word(byte: u8) -> bool
    ensures { result ≡ begins_word byte }
{
    byte.is_ascii_alphabetic() || byte == b'_'
}

/// How many letters, digits and `_` stand at the front.
fn run_length(bytes: &[u8]) -> usize
    ensures { result ≡ prefix_len goes_on bytes.now }
{
    bytes.iter().take_while(|byte| goes_on(**byte)).count()
}

/// Whether this is a word.
fn is_word(text: &[u8]) -> bool
    ensures { IsTrue result ↔ IsWord text.now }
{
    let [first, rest @ ..] = text else {
        return false;
    };
    begins_word(*first) && rest.len() < 64 && run_length(rest) == rest.len()
}

/// Whether this is a symbol.
fn is_symbol(text: &[u8]) -> bool
    ensures { IsTrue result ↔ Contains symbols text.now }
{
    match text {
        [byte] => b";=,+*%()[]{}".contains(byte),
        _ => text == b"..".as_slice(),
    }
}

/// The kind of this word.
fn word_kind(word: &[u8]) -> Written
    requires { IsWord word.now }
    ensures { IsOfKind result word.now }
{
    if is_reserved(word) {
        return Written::Reserved;
    }
    Written::Name
}

/// The kind of token that these bytes are.
fn kind_of(text: &[u8]) -> Option<Written>
    ensures { MatchOption result ((kind : Written) → IsOfKind kind text.now → ⊥) (λ kind. IsOfKind kind text.now) }
{
    if is_word(text) {
        return Some(word_kind(text));
    }
    if let Some(value) = number(text) {
        return Some(Written::Number(value));
    }
    if let Some(value) = element(text) {
        return Some(Written::Element(value));
    }
    if is_symbol(text) {
        return Some(Written::Symbol);
    }
    None
}

/// How many bytes a token at the front has, if one stands there.
fn piece_length(bytes: &[u8]) -> usize
    ensures within { result ≤ length bytes.now }
    ensures alone { (word rest : List ℕ) → bytes.now ≡ word ++ rest → IsToken word rest → length word ≡ result }
    ensures whole { (kind : Written) → IsOfKind kind (take result bytes.now) → IsToken (take result bytes.now) (drop result bytes.now) }
{
    let [first, ..] = bytes else {
        return 0;
    };
    if goes_on(*first) {
        return run_length(bytes);
    }
    if *first == b'.' {
        return bytes.len().min(2);
    }
    1
}

/// The place behind a byte that stands at this place.
fn behind(at: Place, byte: u8) -> Place
    requires line { at.line < 2 ^ 31 }
    requires column { at.column < 2 ^ 31 }
    ensures place { (front : List ℕ) → at ≡ place_behind front → result ≡ place_behind (front ++ byte ∷ []) }
    ensures line { result.line ≤ at.line + 1 }
    ensures column { result.column ≤ at.column + 1 }
{
    if byte == b'\n' {
        return Place {
            line: at.line + 1,
            column: 1,
        };
    }
    Place {
        line: at.line,
        column: at.column + 1,
    }
}

/// The place behind these bytes, which begin at this place.
fn behind_all(at: Place, bytes: &[u8]) -> Place
    requires line { at.line + length bytes.now < 2 ^ 31 }
    requires column { at.column + length bytes.now < 2 ^ 31 }
    ensures { (front : List ℕ) → at ≡ place_behind front → result ≡ place_behind (front ++ bytes.now) }
{
    let mut here = at;
    for byte in bytes {
        here = behind(here, *byte);
    }
    here
}

/// The spot so many bytes on.
fn forward(text: &[u8], spot: Spot, count: usize) -> Spot
    requires short { length text.now ≤ MOST_SOURCE_BYTES }
    requires within { spot.index + count ≤ length text.now }
    requires placed { IsPlaced text.now spot.index spot.at }
    ensures index { result.index ≡ spot.index + count }
    ensures placed { IsPlaced text.now result.index result.at }
{
    let index = spot.index + count;
    Spot {
        index,
        at: behind_all(spot.at, &text[spot.index..index]),
    }
}

/// The spot behind the blanks and comments here.
fn past_gap(text: &[u8], spot: Spot) -> Spot
    requires short { length text.now ≤ MOST_SOURCE_BYTES }
    requires placed { IsPlaced text.now spot.index spot.at }
    ensures placed { IsPlaced text.now result.index result.at }
    ensures gap { IsGapBetween text.now spot.index result.index }
    ensures begins { NoGapBegins (drop result.index text.now) }
{
    forward(text, spot, gap_length(&text[spot.index..]))
}

/// The kind of the token here, and the spot behind it.
fn token_at(text: &[u8], spot: Spot) -> Option<(Written, Spot)>
    requires short { length text.now ≤ MOST_SOURCE_BYTES }
    requires placed { IsPlaced text.now spot.index spot.at }
    ensures { MatchOption result (NoTokenBegins (drop spot.index text.now)) (λ found. IsTokenBetween text.now spot.index found.0 found.1.index × IsPlaced text.now found.1.index found.1.at) }
{
    let rest = &text[spot.index..];
    let length = piece_length(rest);
    let kind = kind_of(&rest[..length])?;
    Some((kind, forward(text, spot, length)))
}

/// The tokens at the front of a text, as far as they go.
pub(crate) fn lex(alloc: Global, text: &[u8]) -> Result<Lexed, Memory>
    requires { length text.now ≤ MOST_SOURCE_BYTES }
    ensures { IfOk result (λ lexed. IsLexed text.now lexed.tokens lexed.end lexed.whole) }
{
    let mut tokens = Items::new(alloc);
    let mut spot = past_gap(text, START);
    while let Some((written, end)) = token_at(text, spot) {
        tokens.push(Token {
            kind: written.kind(),
            from: spot.index as u32,
            to: end.index as u32,
            at: spot.at,
            written,
        })?;
        spot = past_gap(text, end);
    }
    Ok(Lexed {
        tokens,
        end: spot.at,
        whole: spot.index == text.len(),
    })
}

/// The tokens of a text of at most 1,048,576 bytes. It is `Syntax` with the first place where a byte
/// begins no token or a run is a bad token, and `Memory` where memory was wanted and not found.
pub fn tokens(alloc: Global, text: &[u8]) -> Result<TokenList, SourceRefusal>
    requires { length text.now ≤ MOST_SOURCE_BYTES }
    ensures { MatchResult result (AreAllTokens text.now) (IsTokenRefusal text.now) }
{
    let Lexed { tokens, end, whole } = lex(alloc, text)?;
    if !whole {
        return Err(SourceRefusal::Syntax(end));
    }
    Ok(tokens)
}
