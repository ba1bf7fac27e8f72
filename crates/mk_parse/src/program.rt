//! Whole programs, by the grammar.

ghost use Rattle.std.specs.Prelude.{◌≡◌, ◌≤◌, [], length, IsTrue, ◌↔◌, IfOk, MatchResult};
ghost use Rattle.mk_parse.specs.declared.TheConstants.{MOST_SOURCE_BYTES};
ghost use Rattle.mk_ast.specs.Regular.{IsRegular};
ghost use Rattle.mk_parse.specs.Answers.{Answers, AnswersAll, place_at};
ghost use Rattle.mk_parse.specs.Parsed.{IsOnlyProgram, IsParseRefusal, FewMaps};
ghost use Rattle.mk_parse.specs.Readers.{takes, finished};
ghost use Rattle.mk_parse.specs.Reading.{field_of, program_by};

use crate::cursor::{Cursor, Stop};
use crate::lexer::{Lexed, lex};
use mk_ast::{Program, SourceRefusal, spelled_law};
use mk_base::Place;
use mk_field::FieldId;
use std::alloc::Global;

/// How many of the brackets `(`, `[` and `{` are open at most, at any place.
const MOST_BRACKETS: u8 = 64;

impl<'a> Cursor<'a> {
    /// `"gf2" | "gf256"`
    fn field(&mut self) -> Result<FieldId, Stop>
        ensures { Answers result self.new (takes field_of self.old) }
    {
        if self.next_is(b"gf2") {
            self.expect(b"gf2")?;
            return Ok(FieldId::Gf2);
        }
        self.expect(b"gf256")?;
        Ok(FieldId::Gf256)
    }

    /// `"field" ("gf2" | "gf256") ";" {declaration} {statement}`
    fn program(&mut self) -> Result<Program, Stop>
        ensures { Answers result self.new (program_by self.old) }
    {
        self.expect(b"field")?;
        let field = self.field()?;
        self.expect(b";")?;
        let decls = self.declarations()?;
        let body = self.statements(MOST_BRACKETS)?;
        Ok(Program { field, decls, body })
    }

    /// A program, and no token behind it.
    fn whole_program(&mut self) -> Result<Program, Stop>
        ensures { AnswersAll result self.new (finished (program_by self.old)) }
    {
        let program = self.program()?;
        if !self.is_at_end() {
            return Err(Stop::Here);
        }
        Ok(program)
    }
}

/// The program that the text spells, which has at most 1,048,576 bytes. `Syntax` comes exactly where
/// it spells none, with the first place where no program can go on.
pub fn parse(alloc: Global, text: &[u8]) -> Result<Program, SourceRefusal>
    requires { length text.now ≤ MOST_SOURCE_BYTES }
    ensures answer { MatchResult result (IsOnlyProgram text.now) (IsParseRefusal text.now) }
    ensures regular { IfOk result IsRegular }
    ensures few_maps { IfOk result FewMaps }
{
    spelled_law();
    let Lexed { tokens, end, whole } = lex(alloc, text)?;
    let mut cursor = Cursor::new(alloc, text, tokens.as_slice());
    match cursor.whole_program() {
        Ok(program) => {
            if !whole {
                return Err(SourceRefusal::Syntax(end));
            }
            Ok(program)
        }
        Err(Stop::Here) => Err(SourceRefusal::Syntax(cursor.place(end))),
        Err(Stop::Memory) => Err(SourceRefusal::Memory),
    }
}
