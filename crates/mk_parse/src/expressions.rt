//! References and expressions, by the grammar: one method for each of its phrases. Each goes by the
//! number of brackets that may still be opened.

ghost use Rattle.std.specs.Prelude.{◌∷◌, codes};
ghost use Rattle.mk_parse.specs.Answers.{Answers};
ghost use Rattle.mk_parse.specs.Readers.{makes, every, past, says};
ghost use Rattle.mk_ast.specs.declared.tree.Expr.TheVariants as expr;
ghost use Rattle.mk_parse.specs.Reading.{guarded, index_brackets, index_part, reference_at, named, sum_inner, factor_by, product_by, sum_at};

use crate::cursor::{Cursor, Stop};
use mk_ast::{Expr, ExprList, Index, Ref};
use sqlite_items::{Boxed, Items};

impl<'a> Cursor<'a> {
    /// `"[" isum "]"`
    fn index(&mut self, brackets: u8) -> Result<Index, Stop>
        ensures { Answers result self.new (index_brackets brackets self.old) }
    {
        if brackets == 0 {
            return Err(Stop::Here);
        }
        self.expect(b"[")?;
        let index = self.index_sum(brackets - 1)?;
        self.expect(b"]")?;
        Ok(index)
    }

    /// `["[" isum "]"]`
    fn index_if_any(&mut self, brackets: u8) -> Result<Option<Index>, Stop>
        ensures { Answers result self.new (index_part brackets self.old) }
    {
        if !self.next_is(b"[") {
            return Ok(None);
        }
        let index = self.index(brackets)?;
        Ok(Some(index))
    }

    /// `name ["[" isum "]"]`
    pub(crate) fn reference(&mut self, brackets: u8) -> Result<Ref, Stop>
        ensures { Answers result self.new (reference_at brackets self.old) }
    {
        let (name, at) = self.name()?;
        let index = self.index_if_any(brackets)?;
        Ok(Ref { name, at, index })
    }

    /// `"(" sum ")"`
    #[cycle(sum)]
    fn sum_in_brackets(&mut self, brackets: u8) -> Result<Expr, Stop>
        ensures { Answers result self.new (sum_inner brackets self.old) }
    {
        if brackets == 0 {
            return Err(Stop::Here);
        }
        self.expect(b"(")?;
        let sum = self.sum(brackets - 1)?;
        self.expect(b")")?;
        Ok(sum)
    }

    /// `"sq" "(" sum ")"`
    #[cycle(sum)]
    fn square(&mut self, brackets: u8) -> Result<Expr, Stop>
        ensures { Answers result self.new (guarded brackets (makes expr.Sq (past (codes "sq") (sum_inner brackets))) self.old) }
    {
        if brackets == 0 {
            return Err(Stop::Here);
        }
        self.expect(b"sq")?;
        let arg = self.sum_in_brackets(brackets)?;
        let arg = Boxed::new(self.alloc(), arg)?;
        Ok(Expr::Sq { arg })
    }

    /// `name "(" sum ")" | name ["[" isum "]"]`
    #[cycle(sum)]
    fn named(&mut self, brackets: u8) -> Result<Expr, Stop>
        ensures { Answers result self.new (named brackets (sum_inner brackets) self.old) }
    {
        let (name, at) = self.name()?;
        if !self.next_is(b"(") {
            let index = self.index_if_any(brackets)?;
            let from = Ref { name, at, index };
            return Ok(Expr::Read { from });
        }
        let arg = self.sum_in_brackets(brackets)?;
        let arg = Boxed::new(self.alloc(), arg)?;
        Ok(Expr::Apply { map: name, at, arg })
    }

    /// `element | "sq" "(" sum ")" | name "(" sum ")" | reference | "(" sum ")"`
    #[cycle(sum)]
    fn factor(&mut self, brackets: u8) -> Result<Expr, Stop>
        ensures { Answers result self.new (factor_by brackets (sum_inner brackets) self.old) }
    {
        if self.next_is_element() {
            let (value, at) = self.element()?;
            return Ok(Expr::Lit { value, at });
        }
        if self.next_is(b"sq") {
            return self.square(brackets);
        }
        if self.next_is_name() {
            return self.named(brackets);
        }
        self.sum_in_brackets(brackets)
    }

    /// `"*" factor`
    #[cycle(sum)]
    fn multiplied(&mut self, brackets: u8) -> Result<Expr, Stop>
        ensures { Answers result self.new (past (codes "*") (factor_by brackets (sum_inner brackets)) self.old) }
    {
        self.expect(b"*")?;
        self.factor(brackets)
    }

    /// `{"*" factor}`, and before it the first factor
    #[cycle(sum)]
    fn factors(&mut self, brackets: u8, first: Expr) -> Result<ExprList, Stop>
        ensures { Answers result self.new (makes (λ parts. first ∷ parts) (every (says (codes "*")) (past (codes "*") (factor_by brackets (sum_inner brackets)))) self.old) }
    {
        let mut parts = Items::new(self.alloc());
        parts.push(first)?;
        while self.next_is(b"*") {
            parts.push(self.multiplied(brackets)?)?;
        }
        Ok(parts)
    }

    /// `factor {"*" factor}`
    #[cycle(sum)]
    fn product(&mut self, brackets: u8) -> Result<Expr, Stop>
        ensures { Answers result self.new (product_by brackets (sum_inner brackets) self.old) }
    {
        let first = self.factor(brackets)?;
        if !self.next_is(b"*") {
            return Ok(first);
        }
        let parts = self.factors(brackets, first)?;
        Ok(Expr::Product { parts })
    }

    /// `"+" product`
    #[cycle(sum)]
    fn added(&mut self, brackets: u8) -> Result<Expr, Stop>
        ensures { Answers result self.new (past (codes "+") (product_by brackets (sum_inner brackets)) self.old) }
    {
        self.expect(b"+")?;
        self.product(brackets)
    }

    /// `{"+" product}`, and before it the first product
    #[cycle(sum)]
    fn products(&mut self, brackets: u8, first: Expr) -> Result<ExprList, Stop>
        ensures { Answers result self.new (makes (λ parts. first ∷ parts) (every (says (codes "+")) (past (codes "+") (product_by brackets (sum_inner brackets)))) self.old) }
    {
        let mut parts = Items::new(self.alloc());
        parts.push(first)?;
        while self.next_is(b"+") {
            parts.push(self.added(brackets)?)?;
        }
        Ok(parts)
    }

    /// `product {"+" product}`
    #[cycle(sum)]
    pub(crate) fn sum(&mut self, brackets: u8) -> Result<Expr, Stop>
        ensures { Answers result self.new (sum_at brackets self.old) }
    {
        let first = self.product(brackets)?;
        if !self.next_is(b"+") {
            return Ok(first);
        }
        let parts = self.products(brackets, first)?;
        Ok(Expr::Sum { parts })
    }
}
