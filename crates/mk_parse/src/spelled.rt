//! Tokens with their bytes.

ghost use Rattle.std.specs.Prelude.{◌≡◌, ◌≤◌, length, IsTrue};
ghost use Rattle.mk_parse.specs.Lexing.{IsOfKind};
ghost use Rattle.mk_parse.specs.Reading.{is_name, number_of, size_of, element_of};

use crate::token::Written;
use mk_base::Place;
use std::marker::Model;

/// A token with its bytes, which are of its kind. Contracts see it as its bytes and its place.
#[derive(Drop)]
pub(crate) struct Spelled<'a> {
    kind: Written,
    bytes: &'a [u8],
    at: Place,
}

impl<'a> Model for Spelled<'a> {
    ghost use Rattle.mk_ast.specs.Tokens.{Token};
    ghost use Rattle.mk_parse.specs.Answers.{token_code};
    ghost use Rattle.mk_parse.specs.Lexing.{IsOfKind};

    ghost Value = { Token };

    ghost coded = { token_code };

    ghost view = { λ s. record { text = s.bytes.now; at = s.at } };

    ghost invariant = { λ s. IsOfKind s.kind s.bytes.now };
}

impl<'a> Spelled<'a> {
    /// A token of this kind, these bytes and this place.
    pub(crate) fn new(kind: Written, bytes: &'a [u8], at: Place) -> Spelled<'a>
        requires { IsOfKind kind bytes.now }
        ensures { result ≡ record { text = bytes.now; at = at } }
    {
        Spelled { kind, bytes, at }
    }

    /// Its bytes.
    pub(crate) fn bytes(&self) -> &'a [u8]
        ensures { result.now ≡ self.now.text }
    {
        self.bytes
    }

    /// Its place.
    pub(crate) fn at(&self) -> Place
        ensures { result ≡ self.now.at }
    {
        self.at
    }

    /// Whether it is a name.
    pub(crate) fn is_name(&self) -> bool
        ensures name { result ≡ is_name self.now }
        ensures short { IsTrue result → length self.now.text ≤ 64 }
    {
        matches!(self.kind, Written::Name)
    }

    /// The number that it writes.
    pub(crate) fn number(&self) -> Option<u32>
        ensures { result ≡ number_of self.now }
    {
        match self.kind {
            Written::Number(value) => Some(value),
            _ => None,
        }
    }

    /// The size that it writes, which is a number other than 0.
    pub(crate) fn size(&self) -> Option<u32>
        ensures { result ≡ size_of self.now }
    {
        match self.number() {
            Some(0) | None => None,
            Some(value) => Some(value),
        }
    }

    /// The element that it writes, with its place.
    pub(crate) fn element(&self) -> Option<(u8, Place)>
        ensures { result ≡ element_of self.now }
    {
        match self.kind {
            Written::Element(value) => Some((value, self.at)),
            _ => None,
        }
    }
}
