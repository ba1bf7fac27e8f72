//! Declarations, by the grammar: one method for each of its phrases.

ghost use Rattle.std.specs.Prelude.{◌≡◌, ◌∷◌, codes};
ghost use Rattle.mk_parse.specs.Answers.{Answers};
ghost use Rattle.mk_parse.specs.Readers.{starts, takes, makes, every, past, says};
ghost use Rattle.mk_parse.specs.Reading.{element_of, plain_class, local_class, class_by, image_by, images_by, map_by, size_part, variable_by, declaration_by, begins_declaration};

use crate::cursor::{Cursor, Stop};
use mk_ast::{Class, Decl, DeclList, ElementList, What};
use mk_base::Items as Elements;
use sqlite_items::Items;

impl<'a> Cursor<'a> {
    /// `"secret" | "public" | "output"`
    fn plain_class(&mut self) -> Result<Class, Stop>
        ensures { Answers result self.new (takes plain_class self.old) }
    {
        if self.next_is(b"secret") {
            self.expect(b"secret")?;
            return Ok(Class::Secret);
        }
        if self.next_is(b"public") {
            self.expect(b"public")?;
            return Ok(Class::Public);
        }
        self.expect(b"output")?;
        Ok(Class::Output)
    }

    /// `"secret" | "public"`, behind `"local"`
    fn local_class(&mut self) -> Result<Class, Stop>
        ensures { Answers result self.new (takes local_class self.old) }
    {
        if self.next_is(b"secret") {
            self.expect(b"secret")?;
            return Ok(Class::LocalSecret);
        }
        self.expect(b"public")?;
        Ok(Class::LocalPublic)
    }

    /// `"secret" | "public" | "output" | "local" ("secret" | "public")`
    fn class(&mut self) -> Result<Class, Stop>
        ensures { Answers result self.new (class_by self.old) }
    {
        if !self.next_is(b"local") {
            return self.plain_class();
        }
        self.expect(b"local")?;
        self.local_class()
    }

    /// `element`, as an image
    fn image(&mut self) -> Result<u8, Stop>
        ensures { Answers result self.new (image_by self.old) }
    {
        let (value, _) = self.element()?;
        Ok(value)
    }

    /// `"," element`
    fn next_image(&mut self) -> Result<u8, Stop>
        ensures { Answers result self.new (past (codes ",") image_by self.old) }
    {
        self.expect(b",")?;
        self.image()
    }

    /// `element {"," element}`
    fn images(&mut self) -> Result<ElementList, Stop>
        ensures { Answers result self.new (images_by self.old) }
    {
        let first = self.image()?;
        let mut images = Elements::new(self.alloc());
        images.push(first)?;
        while self.next_is(b",") {
            images.push(self.next_image()?)?;
        }
        Ok(images)
    }

    /// `"map" name "=" element {"," element} ";"`
    fn map_declaration(&mut self) -> Result<Decl, Stop>
        ensures { Answers result self.new (map_by self.old) }
    {
        self.expect(b"map")?;
        let (name, at) = self.name()?;
        self.expect(b"=")?;
        let images = self.images()?;
        self.expect(b";")?;
        Ok(Decl {
            name,
            at,
            what: What::Map { images },
        })
    }

    /// `["[" size "]"]`
    fn size_if_any(&mut self) -> Result<Option<u32>, Stop>
        ensures { Answers result self.new (size_part self.old) }
    {
        if !self.next_is(b"[") {
            return Ok(None);
        }
        self.expect(b"[")?;
        let size = self.size()?;
        self.expect(b"]")?;
        Ok(Some(size))
    }

    /// `class name ["[" size "]"] ";"`
    fn variable_declaration(&mut self) -> Result<Decl, Stop>
        ensures { Answers result self.new (variable_by self.old) }
    {
        let class = self.class()?;
        let (name, at) = self.name()?;
        let size = self.size_if_any()?;
        self.expect(b";")?;
        Ok(Decl {
            name,
            at,
            what: What::Var { class, size },
        })
    }

    /// A map or a variable.
    fn declaration(&mut self) -> Result<Decl, Stop>
        ensures { Answers result self.new (declaration_by self.old) }
    {
        if self.next_is(b"map") {
            return self.map_declaration();
        }
        self.variable_declaration()
    }

    /// Whether the next token begins a declaration.
    fn next_is_declaration(&self) -> bool
        ensures { result ≡ starts begins_declaration self.now }
    {
        self.next_is(b"map")
            || self.next_is(b"secret")
            || self.next_is(b"public")
            || self.next_is(b"output")
            || self.next_is(b"local")
    }

    /// `{declaration}`
    pub(crate) fn declarations(&mut self) -> Result<DeclList, Stop>
        ensures { Answers result self.new (every begins_declaration declaration_by self.old) }
    {
        let mut list = Items::new(self.alloc());
        while self.next_is_declaration() {
            list.push(self.declaration()?)?;
        }
        Ok(list)
    }
}
