//! A place in the list of a text's tokens.

ghost use Rattle.std.specs.Prelude.{◌≡◌, ◌≤◌, [], ◌∷◌, length, List, MatchOption, All, IsTrue, ◌↔◌};
ghost use Rattle.mk_ast.specs.Tokens.{Token as Spelled};
ghost use Rattle.mk_parse.specs.Lexing.{IsWithin};
ghost use Rattle.mk_parse.specs.Readers.{starts, says, takes, expects};
ghost use Rattle.mk_parse.specs.Reading.{is_name, gives, name_of, number_of, size_of, element_of};
ghost use Rattle.mk_parse.specs.Answers.{Answers, place_at, seen_tokens};

use crate::spelled::Spelled;
use crate::token::Token;
use mk_ast::Name;
use mk_base::{Items, Memory, Place};
use std::alloc::{AllocError, Global};
use std::marker::Model;

/// Why nothing more is read.
#[derive(Clone, Copy, Debug, PartialEq, Eq)]
pub(crate) enum Stop {
    /// The next token does not fit, or there is none.
    Here,
    /// Memory was wanted and not found.
    Memory,
}

impl From<Memory> for Stop {
    ghost use Rattle.std.specs.Prelude.{◌≡◌};
    ghost use Rattle.mk_parse.specs.declared.cursor.Stop.TheVariants.{Memory};

    ghost from_gives = { λ _ e. e ≡ Memory };

    fn from(_memory: Memory) -> Stop {
        Stop::Memory
    }
}

impl From<AllocError> for Stop {
    ghost use Rattle.std.specs.Prelude.{◌≡◌};
    ghost use Rattle.mk_parse.specs.declared.cursor.Stop.TheVariants.{Memory};

    ghost from_gives = { λ _ e. e ≡ Memory };

    fn from(_error: AllocError) -> Stop {
        Stop::Memory
    }
}

/// The tokens of a text that are still to be read. Contracts see them as a list of tokens with their
/// bytes.
#[derive(Drop)]
pub(crate) struct Cursor<'a> {
    alloc: Global,
    text: &'a [u8],
    rest: &'a [Token],
}

impl<'a> Model for Cursor<'a> {
    ghost use Rattle.std.specs.Prelude.{List, All};
    ghost use Rattle.std.specs.Coded.{coded_list};
    ghost use Rattle.mk_ast.specs.Tokens.{Token as Spelled};
    ghost use Rattle.mk_parse.specs.Lexing.{IsWithin};
    ghost use Rattle.mk_parse.specs.Answers.{token_code, seen_tokens};

    ghost Value = { List Spelled };

    ghost coded = { coded_list token_code };

    ghost view = { λ c. seen_tokens c.text.now c.rest.now };

    ghost invariant = { λ c. All (IsWithin c.text.now) c.rest.now };
}

impl<'a> Cursor<'a> {
    /// All of these tokens, which lie in the text.
    pub(crate) fn new(alloc: Global, text: &'a [u8], tokens: &'a [Token]) -> Cursor<'a>
        requires { All (IsWithin text.now) tokens.now }
        ensures { result ≡ seen_tokens text.now tokens.now }
    {
        Cursor {
            alloc,
            text,
            rest: tokens,
        }
    }

    /// The allocator that trees are made with.
    pub(crate) fn alloc(&self) -> Global {
        self.alloc
    }

    /// The next token.
    fn first(&self) -> Option<Spelled<'a>>
        ensures { MatchOption result (self.now ≡ []) (λ t. (rest : List Spelled) × (self.now ≡ t ∷ rest)) }
    {
        let token = self.rest.first()?;
        let (from, to) = (token.from as usize, token.to as usize);
        Some(Spelled::new(token.written, &self.text[from..to], token.at))
    }

    /// Goes past the next token.
    fn skip(&mut self)
        requires { 1 ≤ length self.old }
        ensures { (t : Spelled) × (self.old ≡ t ∷ self.new) }
    {
        self.rest = &self.rest[1..];
    }

    /// Whether no token is left.
    pub(crate) fn is_at_end(&self) -> bool
        ensures { IsTrue result ↔ (self.now ≡ []) }
    {
        self.first().is_none()
    }

    /// The place of the next token, or this one where no token is left.
    pub(crate) fn place(&self, end: Place) -> Place
        ensures { result ≡ place_at end self.now }
    {
        match self.first() {
            Some(token) => token.at(),
            None => end,
        }
    }

    /// Whether the next token is this word or symbol.
    pub(crate) fn next_is(&self, word: &[u8]) -> bool
        ensures { result ≡ starts (says word.now) self.now }
    {
        match self.first() {
            Some(token) => token.bytes() == word,
            None => false,
        }
    }

    /// Whether the next token is a name.
    pub(crate) fn next_is_name(&self) -> bool
        ensures { result ≡ starts is_name self.now }
    {
        match self.first() {
            Some(token) => token.is_name(),
            None => false,
        }
    }

    /// Whether the next token is a number.
    pub(crate) fn next_is_number(&self) -> bool
        ensures { result ≡ starts (gives number_of) self.now }
    {
        match self.first() {
            Some(token) => token.number().is_some(),
            None => false,
        }
    }

    /// Whether the next token is an element.
    pub(crate) fn next_is_element(&self) -> bool
        ensures { result ≡ starts (gives element_of) self.now }
    {
        match self.first() {
            Some(token) => token.element().is_some(),
            None => false,
        }
    }

    /// Takes this word or symbol.
    pub(crate) fn expect(&mut self, word: &[u8]) -> Result<(), Stop>
        ensures { Answers result self.new (expects word.now self.old) }
    {
        if !self.next_is(word) {
            return Err(Stop::Here);
        }
        self.skip();
        Ok(())
    }

    /// Takes a name, with its place.
    pub(crate) fn name(&mut self) -> Result<(Name, Place), Stop>
        ensures { Answers result self.new (takes name_of self.old) }
    {
        let Some(token) = self.first() else {
            return Err(Stop::Here);
        };
        if !token.is_name() {
            return Err(Stop::Here);
        }
        let name = Items::from_vec(Vec::from_slice(self.alloc, token.bytes())?);
        self.skip();
        Ok((name, token.at()))
    }

    /// Takes a number.
    pub(crate) fn number(&mut self) -> Result<u32, Stop>
        ensures { Answers result self.new (takes number_of self.old) }
    {
        let Some(token) = self.first() else {
            return Err(Stop::Here);
        };
        let Some(value) = token.number() else {
            return Err(Stop::Here);
        };
        self.skip();
        Ok(value)
    }

    /// Takes a size, which is a number other than 0.
    pub(crate) fn size(&mut self) -> Result<u32, Stop>
        ensures { Answers result self.new (takes size_of self.old) }
    {
        let Some(token) = self.first() else {
            return Err(Stop::Here);
        };
        let Some(value) = token.size() else {
            return Err(Stop::Here);
        };
        self.skip();
        Ok(value)
    }

    /// Takes an element, with its place.
    pub(crate) fn element(&mut self) -> Result<(u8, Place), Stop>
        ensures { Answers result self.new (takes element_of self.old) }
    {
        let Some(token) = self.first() else {
            return Err(Stop::Here);
        };
        let Some(element) = token.element() else {
            return Err(Stop::Here);
        };
        self.skip();
        Ok(element)
    }
}
