//! Indexes, by the grammar: one method for each of its phrases. Each goes by the number of brackets
//! that may still be opened.

ghost use Rattle.std.specs.Prelude.{◌≡◌, ◌∷◌, codes};
ghost use Rattle.mk_parse.specs.Answers.{Answers};
ghost use Rattle.mk_parse.specs.Readers.{starts, makes, every, past, says};
ghost use Rattle.mk_parse.specs.Reading.{index_inner, index_factor_by, index_link_by, begins_link, index_product_by, index_sum_at};

use crate::cursor::{Cursor, Stop};
use mk_ast::{Index, IndexList, Link, LinkList};
use sqlite_items::{Boxed, Items};

impl<'a> Cursor<'a> {
    /// `"(" isum ")"`
    #[cycle(index)]
    fn index_in_brackets(&mut self, brackets: u8) -> Result<Index, Stop>
        ensures { Answers result self.new (index_inner brackets self.old) }
    {
        if brackets == 0 {
            return Err(Stop::Here);
        }
        self.expect(b"(")?;
        let index = self.index_sum(brackets - 1)?;
        self.expect(b")")?;
        Ok(index)
    }

    /// `number | name | "(" isum ")"`
    #[cycle(index)]
    fn index_factor(&mut self, brackets: u8) -> Result<Index, Stop>
        ensures { Answers result self.new (index_factor_by (index_inner brackets) self.old) }
    {
        if self.next_is_number() {
            let value = self.number()?;
            return Ok(Index::Num { value });
        }
        if self.next_is_name() {
            let (name, at) = self.name()?;
            return Ok(Index::Var { name, at });
        }
        self.index_in_brackets(brackets)
    }

    /// `"*" ifactor | "%" size`
    #[cycle(index)]
    fn index_link(&mut self, brackets: u8) -> Result<Link, Stop>
        ensures { Answers result self.new (index_link_by (index_inner brackets) self.old) }
    {
        if self.next_is(b"*") {
            self.expect(b"*")?;
            let by = self.index_factor(brackets)?;
            return Ok(Link::Times { by });
        }
        self.expect(b"%")?;
        let by = self.size()?;
        Ok(Link::Mod { by })
    }

    /// Whether the next token begins a link.
    fn next_is_link(&self) -> bool
        ensures { result ≡ starts begins_link self.now }
    {
        self.next_is(b"*") || self.next_is(b"%")
    }

    /// `{"*" ifactor | "%" size}`
    #[cycle(index)]
    fn index_links(&mut self, brackets: u8) -> Result<LinkList, Stop>
        ensures { Answers result self.new (every begins_link (index_link_by (index_inner brackets)) self.old) }
    {
        let mut links = Items::new(self.alloc());
        while self.next_is_link() {
            links.push(self.index_link(brackets)?)?;
        }
        Ok(links)
    }

    /// `ifactor {"*" ifactor | "%" size}`
    #[cycle(index)]
    fn index_product(&mut self, brackets: u8) -> Result<Index, Stop>
        ensures { Answers result self.new (index_product_by (index_inner brackets) self.old) }
    {
        let first = self.index_factor(brackets)?;
        let rest = self.index_links(brackets)?;
        if rest.is_empty() {
            return Ok(first);
        }
        let first = Boxed::new(self.alloc(), first)?;
        Ok(Index::Chain { first, rest })
    }

    /// `"+" iproduct`
    #[cycle(index)]
    fn index_added(&mut self, brackets: u8) -> Result<Index, Stop>
        ensures { Answers result self.new (past (codes "+") (index_product_by (index_inner brackets)) self.old) }
    {
        self.expect(b"+")?;
        self.index_product(brackets)
    }

    /// `{"+" iproduct}`, and before it the first product
    #[cycle(index)]
    fn index_parts(&mut self, brackets: u8, first: Index) -> Result<IndexList, Stop>
        ensures { Answers result self.new (makes (λ parts. first ∷ parts) (every (says (codes "+")) (past (codes "+") (index_product_by (index_inner brackets)))) self.old) }
    {
        let mut parts = Items::new(self.alloc());
        parts.push(first)?;
        while self.next_is(b"+") {
            parts.push(self.index_added(brackets)?)?;
        }
        Ok(parts)
    }

    /// `iproduct {"+" iproduct}`
    #[cycle(index)]
    pub(crate) fn index_sum(&mut self, brackets: u8) -> Result<Index, Stop>
        ensures { Answers result self.new (index_sum_at brackets self.old) }
    {
        let first = self.index_product(brackets)?;
        if !self.next_is(b"+") {
            return Ok(first);
        }
        let parts = self.index_parts(brackets, first)?;
        Ok(Index::Sum { parts })
    }
}
