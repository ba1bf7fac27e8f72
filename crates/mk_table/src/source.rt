//! The parts of the program of a table.

ghost use Rattle.std.specs.Prelude.{◌≡◌, [], ◌∷◌, ◌++◌, length, map, slice_index, IfOk, OnOk};
ghost use Rattle.mk_ast.specs.declared.tree.Expr.TheVariants as expr;
ghost use Rattle.mk_ast.specs.declared.tree.Class.TheVariants as class_;
ghost use Rattle.mk_table.specs.ClassImages.{class_images as images_of_class};
ghost use Rattle.mk_table.specs.Source as source_;

use crate::classes::{LEADERS, doublings, leader_of};
use crate::images::class_images;
use mk_ast::{Class, Decl, DeclList, Expr, ExprList, Name, Program, Ref, Stmt, StmtList, What};
use mk_base::{Items, Memory, Place};
use mk_field::FieldId;
use sqlite_items::{Boxed, Items as List};
use std::alloc::Global;

/// Every place is the first of a text.
const START: Place = Place { line: 1, column: 1 };

/// A name of these letters.
fn name_of(alloc: Global, text: &str) -> Result<Name, Memory>
    ensures { IfOk result (λ name. name ≡ text.now) }
{
    Items::try_from_vec(Vec::from_slice(alloc, text.as_bytes())?)
}

/// The name of the map of the class of k.
fn map_name(alloc: Global, k: u8) -> Result<Name, Memory>
    ensures { IfOk result (λ name. name ≡ source_.map_name k) }
{
    let text = format!(in alloc; "l{k}")?;
    Items::try_from_vec(text.into_bytes())
}

/// The name of the variable for x to the power k.
fn power_name(alloc: Global, k: u8) -> Result<Name, Memory>
    ensures { IfOk result (λ name. name ≡ source_.power_name k) }
{
    let text = format!(in alloc; "p{k}")?;
    Items::try_from_vec(text.into_bytes())
}

/// The declaration of a scalar.
fn scalar(class: Class, name: Name) -> Decl
    ensures { result ≡ source_.scalar class name }
{
    Decl {
        name,
        at: START,
        what: What::Var { class, size: None },
    }
}

/// The declaration of the map of the class of k.
fn map_decl(alloc: Global, coefficients: &[u8], k: u8) -> Result<Decl, Memory>
    requires { length coefficients.now ≡ 256 }
    ensures { IfOk result (λ decl. decl ≡ source_.map_decl (images_of_class (slice_index coefficients.now)) k) }
{
    Ok(Decl {
        name: map_name(alloc, k)?,
        at: START,
        what: What::Map {
            images: class_images(alloc, coefficients, k)?,
        },
    })
}

/// The variable of this name.
fn variable(name: Name) -> Ref
    ensures { result ≡ source_.variable name }
{
    Ref {
        name,
        at: START,
        index: None,
    }
}

/// The variable of this name, read.
fn read(name: Name) -> Expr
    ensures { result ≡ source_.read name }
{
    Expr::Read {
        from: variable(name),
    }
}

/// The product of two expressions.
fn product(alloc: Global, left: Expr, right: Expr) -> Result<Expr, Memory>
    ensures { IfOk result (λ e. e ≡ expr.Product (left ∷ right ∷ [])) }
{
    let mut parts = List::new(alloc);
    parts.push(left)?;
    parts.push(right)?;
    Ok(Expr::Product { parts })
}

/// An expression squared so many times.
fn squared(alloc: Global, base: Expr, times: u8) -> Result<Expr, Memory>
    ensures { IfOk result (λ e. e ≡ source_.squared times base) }
{
    let mut power = base;
    for _ in 0..times {
        power = Expr::Sq {
            arg: Boxed::new(alloc, power)?,
        };
    }
    Ok(power)
}

/// The assignment of a power squared so many times, times x.
fn next_power(alloc: Global, name: Name, root: u8, squarings: u8) -> Result<Stmt, Memory>
    ensures { IfOk result (λ s. s ≡ source_.next_power name root squarings) }
{
    let root = read(power_name(alloc, root)?);
    let squares = squared(alloc, root, squarings)?;
    let x = read(name_of(alloc, "x")?);
    Ok(Stmt::Set {
        target: variable(name),
        value: product(alloc, squares, x)?,
    })
}

/// The assignment of x to the power of a leader that is not 1.
fn power_stmt(alloc: Global, k: u8) -> Result<Stmt, Memory>
    ensures { IfOk result (λ s. s ≡ source_.power_stmt k) }
{
    let name = power_name(alloc, k)?;
    let before = k.saturating_sub(1);
    next_power(alloc, name, leader_of(before), doublings(before))
}

/// The image of x to the power k under its map.
fn image_part(alloc: Global, k: u8) -> Result<Expr, Memory>
    ensures { IfOk result (λ e. e ≡ source_.image_part k) }
{
    let power = read(power_name(alloc, k)?);
    Ok(Expr::Apply {
        map: map_name(alloc, k)?,
        at: START,
        arg: Boxed::new(alloc, power)?,
    })
}

/// Appends the declarations of the maps of these classes.
fn push_maps(
    alloc: Global,
    decls: &mut DeclList,
    coefficients: &[u8],
    ks: &[u8],
) -> Result<(), Memory>
    requires { length coefficients.now ≡ 256 }
    ensures { OnOk result (decls.new ≡ decls.old ++ map (source_.map_decl (images_of_class (slice_index coefficients.now))) ks.now) }
{
    for k in ks {
        decls.push(map_decl(alloc, coefficients, *k)?)?;
    }
    Ok(())
}

/// Appends the declarations of these powers.
fn push_powers(alloc: Global, decls: &mut DeclList, ks: &[u8]) -> Result<(), Memory>
    ensures { OnOk result (decls.new ≡ decls.old ++ map (λ k. source_.scalar class_.LocalSecret (source_.power_name k)) ks.now) }
{
    for k in ks {
        decls.push(scalar(Class::LocalSecret, power_name(alloc, *k)?))?;
    }
    Ok(())
}

/// Appends the images of these powers under the maps of their classes.
fn push_image_parts(alloc: Global, parts: &mut ExprList, ks: &[u8]) -> Result<(), Memory>
    ensures { OnOk result (parts.new ≡ parts.old ++ map source_.image_part ks.now) }
{
    for k in ks {
        parts.push(image_part(alloc, *k)?)?;
    }
    Ok(())
}

/// Appends the assignments of these powers.
fn push_power_stmts(alloc: Global, body: &mut StmtList, ks: &[u8]) -> Result<(), Memory>
    ensures { OnOk result (body.new ≡ body.old ++ map source_.power_stmt ks.now) }
{
    for k in ks {
        body.push(power_stmt(alloc, *k)?)?;
    }
    Ok(())
}

/// The maps, the secret, the powers and the output.
fn declarations(alloc: Global, coefficients: &[u8]) -> Result<DeclList, Memory>
    requires { length coefficients.now ≡ 256 }
    ensures { IfOk result (λ decls. decls ≡ source_.source_decls (images_of_class (slice_index coefficients.now))) }
{
    let mut decls = List::new(alloc);
    push_maps(alloc, &mut decls, coefficients, LEADERS.as_slice())?;
    decls.push(scalar(Class::Secret, name_of(alloc, "x")?))?;
    push_powers(alloc, &mut decls, LEADERS.as_slice())?;
    decls.push(scalar(Class::LocalSecret, name_of(alloc, "q")?))?;
    decls.push(scalar(Class::Output, name_of(alloc, "y")?))?;
    Ok(decls)
}

/// The sum of the images, the last coefficient times x to the power 255, and the first coefficient.
fn polynomial(alloc: Global, last: u8, first: u8) -> Result<Expr, Memory>
    ensures { IfOk result (λ e. e ≡ source_.polynomial last first) }
{
    let mut parts = List::new(alloc);
    push_image_parts(alloc, &mut parts, LEADERS.as_slice())?;
    let highest = read(name_of(alloc, "q")?);
    let factor = Expr::Lit {
        value: last,
        at: START,
    };
    parts.push(product(alloc, factor, highest)?)?;
    parts.push(Expr::Lit {
        value: first,
        at: START,
    })?;
    Ok(Expr::Sum { parts })
}

/// The assignments of the powers, and that of the sum.
fn statements(alloc: Global, last: u8, first: u8) -> Result<StmtList, Memory>
    ensures { IfOk result (λ body. body ≡ source_.source_body last first) }
{
    let mut body = List::new(alloc);
    body.push(Stmt::Set {
        target: variable(power_name(alloc, 1)?),
        value: read(name_of(alloc, "x")?),
    })?;
    push_power_stmts(alloc, &mut body, &LEADERS[1..])?;
    body.push(next_power(alloc, name_of(alloc, "q")?, 127, 1)?)?;
    body.push(Stmt::Set {
        target: variable(name_of(alloc, "y")?),
        value: polynomial(alloc, last, first)?,
    })?;
    Ok(body)
}

/// The program of the polynomial of these 256 coefficients.
pub(crate) fn source(alloc: Global, coefficients: &[u8]) -> Result<Program, Memory>
    requires { length coefficients.now ≡ 256 }
    ensures { IfOk result (λ p. p ≡ source_.source (images_of_class (slice_index coefficients.now)) (slice_index coefficients.now 255) (slice_index coefficients.now 0)) }
{
    Ok(Program {
        field: FieldId::Gf256,
        decls: declarations(alloc, coefficients)?,
        body: statements(alloc, coefficients[255], coefficients[0])?,
    })
}
