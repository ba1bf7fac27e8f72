//! The tokens of a text.

ghost use Rattle.std.specs.Prelude.{◌≡◌, ◌≤◌, length};
ghost use Rattle.mk_parse.specs.Lexing.{seen, kind_by};

use mk_base::{Items, Place};

/// A kind of token.
#[derive(Clone, Copy, Debug, PartialEq, Eq)]
pub enum TokenKind {
    /// A word, which is reserved or a name.
    Word,
    /// A number, from 0 to 65,535.
    Number,
    /// An element, as `0x1f`.
    Element,
    /// One of `;` `=` `,` `+` `*` `%` `(` `)` `[` `]` `{` `}` `..`.
    Symbol,
}

/// What a token writes: its kind, whether a word is reserved, and the value of a number or an element.
#[derive(Clone, Copy, Debug, PartialEq, Eq)]
pub(crate) enum Written {
    /// A name, which is a word that is not reserved.
    Name,
    /// A reserved word.
    Reserved,
    /// A number.
    Number(u32),
    /// An element.
    Element(u8),
    /// A symbol.
    Symbol,
}

impl Written {
    /// The kind of a token that writes this.
    pub(crate) fn kind(self) -> TokenKind
        ensures { result ≡ kind_by self }
    {
        match self {
            Written::Name | Written::Reserved => TokenKind::Word,
            Written::Number(_) => TokenKind::Number,
            Written::Element(_) => TokenKind::Element,
            Written::Symbol => TokenKind::Symbol,
        }
    }
}

/// A token: its kind, where its bytes begin and end in the text, and the place of the first of them.
#[derive(Clone, Copy, Debug, PartialEq, Eq)]
pub struct Token {
    pub kind: TokenKind,
    pub from: u32,
    pub to: u32,
    pub at: Place,
    pub(crate) written: Written,
}

impl Token {
    /// The bytes of this token, which is one of this text.
    pub fn text<'a>(&self, text: &'a [u8]) -> &'a [u8]
        requires order { self.now.from ≤ self.now.to }
        requires within { self.now.to ≤ length text.now }
        ensures { result.now ≡ (seen text.now self.now).text }
    {
        &text[self.from as usize..self.to as usize]
    }
}

/// A list of tokens.
pub type TokenList = Items<Token>;
