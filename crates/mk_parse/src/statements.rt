//! Statements, by the grammar: one method for each of its phrases. Each goes by the number of
//! brackets that may still be opened.

ghost use Rattle.std.specs.Prelude.{◌≡◌, codes};
ghost use Rattle.mk_parse.specs.Answers.{Answers};
ghost use Rattle.mk_parse.specs.Readers.{starts, every, past, ended};
ghost use Rattle.mk_parse.specs.Reading.{assignment_at, heading_by, begins_statement, loop_at, statement_at};

use crate::cursor::{Cursor, Stop};
use mk_ast::{Name, Stmt, StmtList};
use mk_base::Place;
use sqlite_items::Items;

impl<'a> Cursor<'a> {
    /// `reference "=" sum ";"`
    fn assignment(&mut self, brackets: u8) -> Result<Stmt, Stop>
        ensures { Answers result self.new (assignment_at brackets self.old) }
    {
        let target = self.reference(brackets)?;
        self.expect(b"=")?;
        let value = self.sum(brackets)?;
        self.expect(b";")?;
        Ok(Stmt::Set { target, value })
    }

    /// `"for" name "in" number ".." number`
    fn heading(&mut self) -> Result<((Name, Place), (u32, u32)), Stop>
        ensures { Answers result self.new (heading_by self.old) }
    {
        self.expect(b"for")?;
        let name = self.name()?;
        self.expect(b"in")?;
        let from = self.number()?;
        self.expect(b"..")?;
        let to = self.number()?;
        Ok((name, (from, to)))
    }

    /// Whether the next token begins a statement.
    fn next_is_statement(&self) -> bool
        ensures { result ≡ starts begins_statement self.now }
    {
        self.next_is(b"for") || self.next_is_name()
    }

    /// `{statement}`
    #[cycle(statement)]
    pub(crate) fn statements(&mut self, brackets: u8) -> Result<StmtList, Stop>
        ensures { Answers result self.new (every begins_statement (statement_at brackets) self.old) }
    {
        let mut list = Items::new(self.alloc());
        while self.next_is_statement() {
            list.push(self.statement(brackets)?)?;
        }
        Ok(list)
    }

    /// `"for" name "in" number ".." number "{" {statement} "}"`
    #[cycle(statement)]
    fn loop_statement(&mut self, brackets: u8) -> Result<Stmt, Stop>
        ensures { Answers result self.new (loop_at brackets self.old) }
    {
        if brackets == 0 {
            return Err(Stop::Here);
        }
        let ((name, at), (from, to)) = self.heading()?;
        self.expect(b"{")?;
        let body = self.statements(brackets - 1)?;
        self.expect(b"}")?;
        Ok(Stmt::Loop {
            name,
            at,
            from,
            to,
            body,
        })
    }

    /// `reference "=" sum ";" | "for" name "in" number ".." number "{" {statement} "}"`
    #[cycle(statement)]
    fn statement(&mut self, brackets: u8) -> Result<Stmt, Stop>
        ensures { Answers result self.new (statement_at brackets self.old) }
    {
        if self.next_is(b"for") {
            return self.loop_statement(brackets);
        }
        self.assignment(brackets)
    }
}
