ghost use Rattle.std.specs.Prelude.{◌≡◌, ◌++◌, OnOk, map, codes};
ghost use Rattle.mk_ast.specs.Canonical.{joined, ended, element_text, field_line, decl_line, what_line, class_text, size_text};
ghost use Rattle.mk_ast.specs.declared.tree.What.TheVariants as what;

use crate::tree::{Class, Decl, What};
use crate::writer::Writer;
use mk_base::Memory;
use mk_field::FieldId;

/// Appends the line of the field.
pub(crate) fn push_field(text: &mut Writer, field: FieldId) -> Result<(), Memory>
    ensures { OnOk result (text.new ≡ text.old ++ ended (field_line field)) }
{
    match field {
        FieldId::Gf2 => text.words("field gf2;\n"),
        FieldId::Gf256 => text.words("field gf256;\n"),
    }
}

/// Appends the line of a declaration.
pub(crate) fn push_decl(text: &mut Writer, decl: &Decl) -> Result<(), Memory>
    ensures { OnOk result (text.new ≡ text.old ++ ended (decl_line decl.now)) }
{
    let name = decl.name.as_slice();
    match &decl.what {
        What::Map { images } => push_map(text, name, images.as_slice()),
        What::Var { class, size } => push_variable(text, *class, name, *size),
    }
}

/// Appends the line of a map.
fn push_map(text: &mut Writer, name: &[u8], images: &[u8]) -> Result<(), Memory>
    ensures { OnOk result (text.new ≡ text.old ++ ended (what_line name.now (what.Map images.now))) }
{
    text.words("map ")?;
    text.bytes(name)?;
    text.words(" = ")?;
    push_images(text, images)?;
    text.words(";\n")
}

/// Appends the images of a map.
#[tactic(auto, using(crate::proofs::Joined::joined_more))]
fn push_images(text: &mut Writer, images: &[u8]) -> Result<(), Memory>
    ensures { OnOk result (text.new ≡ text.old ++ joined (codes ", ") (map element_text images.now)) }
{
    for (number, image) in images.iter().enumerate() {
        text.separate(", ", number)?;
        text.element(*image)?;
    }
    Ok(())
}

/// Appends the line of a variable.
fn push_variable(
    text: &mut Writer,
    class: Class,
    name: &[u8],
    size: Option<u32>,
) -> Result<(), Memory>
    ensures { OnOk result (text.new ≡ text.old ++ ended (what_line name.now (what.Var class size))) }
{
    push_class(text, class)?;
    text.words(" ")?;
    text.bytes(name)?;
    push_size(text, size)?;
    text.words(";\n")
}

/// Appends the words of a class.
fn push_class(text: &mut Writer, class: Class) -> Result<(), Memory>
    ensures { OnOk result (text.new ≡ text.old ++ class_text class) }
{
    match class {
        Class::Secret => text.words("secret"),
        Class::Public => text.words("public"),
        Class::Output => text.words("output"),
        Class::LocalSecret => text.words("local secret"),
        Class::LocalPublic => text.words("local public"),
    }
}

/// Appends the brackets with a size.
fn push_size(text: &mut Writer, size: Option<u32>) -> Result<(), Memory>
    ensures { OnOk result (text.new ≡ text.old ++ size_text size) }
{
    match size {
        None => Ok(()),
        Some(size) => {
            text.words("[")?;
            text.number(size)?;
            text.words("]")
        }
    }
}
