ghost use Rattle.std.specs.Prelude.{◌≡◌, ◌≤◌, ◌-◌, [], ◌∷◌, ◌++◌, OnOk, IfOk, Some, map, flat_map, codes};
ghost use Rattle.std.specs.List.{AllByRecursion};
ghost use Rattle.mk_ast.specs.Grammar.{most_brackets};
ghost use Rattle.mk_ast.specs.Regular.{IsRegularStmt, IsRegular};
ghost use Rattle.mk_ast.specs.Spells.{Spells};
ghost use Rattle.mk_ast.specs.Places.{AreAlike};
ghost use Rattle.mk_ast.specs.declared.tree.Program.{Program};
ghost use Rattle.mk_ast.specs.Canonical.{canonical, decl_line, joined, ended, laid, stmt_lines, assignment_line, head_line, parenthesized, index_text, link_text, subscript_text, reference_text, index_summand_text, index_factor_text, summand_text, factor_text, expr_text};

use crate::declarations::{push_decl, push_field};
use crate::tree::{Decl, Expr, Index, Link, Program, Ref, Stmt};
use crate::writer::Writer;
use mk_base::{Bytes, Memory};
use std::alloc::Global;

/// The canonical text of a program: each declaration and statement on a line of its own, the body of a
/// loop two spaces further in, one space on each side of `=`, `+`, `*` and `%` and behind `,`, elements in
/// lower-case digits. Parentheses stand exactly round a sum in a sum, a product or a chain, a product in a
/// product and a chain in a chain, and an argument has its own alone. The program is regular, as those
/// that texts spell are. `Memory` comes where memory is wanted and not found.
pub fn to_text(alloc: Global, p: &Program) -> Result<Bytes, Memory>
    requires regular { IsRegular p.now }
    ensures text { IfOk result (λ text. text ≡ canonical p.now) }

    // So reading the text gives the same program, apart from places.
    ensures spelled { IfOk result (λ text. (q : Program) × Spells q text × AreAlike q p.now) }
{
    let mut text = Writer::new(alloc);
    push_field(&mut text, p.field)?;
    push_decls(&mut text, p.decls.as_slice())?;
    push_stmts(&mut text, 0, p.body.as_slice())?;
    text.finish()
}

/// Appends the lines of declarations.
fn push_decls(text: &mut Writer, decls: &[Decl]) -> Result<(), Memory>
    ensures { OnOk result (text.new ≡ text.old ++ laid 0 (map decl_line decls.now)) }
{
    for decl in decls {
        push_decl(text, decl)?;
    }
    Ok(())
}

/// Appends an index.
#[cycle(index)]
#[tactic(auto, using(crate::proofs::Layers::index_texts))]
fn push_index(text: &mut Writer, index: &Index) -> Result<(), Memory>
    ensures { OnOk result (text.new ≡ text.old ++ index_text index.now) }
{
    match index {
        Index::Num { value } => text.number(*value),
        Index::Var { name, .. } => text.bytes(name.as_slice()),
        Index::Sum { parts } => push_index_sum(text, parts.as_slice()),
        Index::Chain { first, rest } => {
            push_index_factor(text, first.get())?;
            push_links(text, rest.as_slice())
        }
    }
}

/// Appends the sum of these indexes.
#[cycle(index)]
#[tactic(auto, using(crate::proofs::Joined::joined_more))]
fn push_index_sum(text: &mut Writer, parts: &[Index]) -> Result<(), Memory>
    ensures { OnOk result (text.new ≡ text.old ++ joined (codes " + ") (map (λ i. index_summand_text i (index_text i)) parts.now)) }
{
    for (number, part) in parts.iter().enumerate() {
        text.separate(" + ", number)?;
        push_index_summand(text, part)?;
    }
    Ok(())
}

/// Appends an index as a part of a sum.
#[cycle(index)]
fn push_index_summand(text: &mut Writer, index: &Index) -> Result<(), Memory>
    ensures { OnOk result (text.new ≡ text.old ++ index_summand_text index.now (index_text index.now)) }
{
    match index {
        Index::Sum { .. } => push_index_in_parentheses(text, index),
        _ => push_index(text, index),
    }
}

/// Appends an index as a factor.
#[cycle(index)]
fn push_index_factor(text: &mut Writer, index: &Index) -> Result<(), Memory>
    ensures { OnOk result (text.new ≡ text.old ++ index_factor_text index.now (index_text index.now)) }
{
    match index {
        Index::Sum { .. } | Index::Chain { .. } => push_index_in_parentheses(text, index),
        _ => push_index(text, index),
    }
}

/// Appends an index in parentheses.
#[cycle(index)]
fn push_index_in_parentheses(text: &mut Writer, index: &Index) -> Result<(), Memory>
    ensures { OnOk result (text.new ≡ text.old ++ parenthesized (index_text index.now)) }
{
    text.words("(")?;
    push_index(text, index)?;
    text.words(")")
}

/// Appends the links of a chain.
#[cycle(index)]
fn push_links(text: &mut Writer, links: &[Link]) -> Result<(), Memory>
    ensures { OnOk result (text.new ≡ text.old ++ flat_map link_text links.now) }
{
    for link in links {
        push_link(text, link)?;
    }
    Ok(())
}

/// Appends a link of a chain.
#[cycle(index)]
#[tactic(auto, using(crate::proofs::Layers::index_texts))]
fn push_link(text: &mut Writer, link: &Link) -> Result<(), Memory>
    ensures { OnOk result (text.new ≡ text.old ++ link_text link.now) }
{
    match link {
        Link::Times { by } => {
            text.words(" * ")?;
            push_index_factor(text, by)
        }
        Link::Mod { by } => {
            text.words(" % ")?;
            text.number(*by)
        }
    }
}

/// Appends a reference.
fn push_reference(text: &mut Writer, reference: &Ref) -> Result<(), Memory>
    ensures { OnOk result (text.new ≡ text.old ++ reference_text reference.now) }
{
    text.bytes(reference.name.as_slice())?;
    match &reference.index {
        None => Ok(()),
        Some(index) => push_subscript(text, index),
    }
}

/// Appends the brackets with an index.
fn push_subscript(text: &mut Writer, index: &Index) -> Result<(), Memory>
    ensures { OnOk result (text.new ≡ text.old ++ subscript_text (Some index.now)) }
{
    text.words("[")?;
    push_index(text, index)?;
    text.words("]")
}

/// Appends an expression.
#[cycle(expr)]
#[tactic(auto, using(crate::proofs::Layers::expr_texts))]
fn push_expr(text: &mut Writer, expr: &Expr) -> Result<(), Memory>
    ensures { OnOk result (text.new ≡ text.old ++ expr_text expr.now) }
{
    match expr {
        Expr::Lit { value, .. } => text.element(*value),
        Expr::Read { from } => push_reference(text, from),
        Expr::Sq { arg } => {
            text.words("sq")?;
            push_in_parentheses(text, arg.get())
        }
        Expr::Apply { map, arg, .. } => {
            text.bytes(map.as_slice())?;
            push_in_parentheses(text, arg.get())
        }
        Expr::Sum { parts } => push_sum(text, parts.as_slice()),
        Expr::Product { parts } => push_product(text, parts.as_slice()),
    }
}

/// Appends the sum of these expressions.
#[cycle(expr)]
#[tactic(auto, using(crate::proofs::Joined::joined_more))]
fn push_sum(text: &mut Writer, parts: &[Expr]) -> Result<(), Memory>
    ensures { OnOk result (text.new ≡ text.old ++ joined (codes " + ") (map (λ e. summand_text e (expr_text e)) parts.now)) }
{
    for (number, part) in parts.iter().enumerate() {
        text.separate(" + ", number)?;
        push_summand(text, part)?;
    }
    Ok(())
}

/// Appends the product of these expressions.
#[cycle(expr)]
#[tactic(auto, using(crate::proofs::Joined::joined_more))]
fn push_product(text: &mut Writer, parts: &[Expr]) -> Result<(), Memory>
    ensures { OnOk result (text.new ≡ text.old ++ joined (codes " * ") (map (λ e. factor_text e (expr_text e)) parts.now)) }
{
    for (number, part) in parts.iter().enumerate() {
        text.separate(" * ", number)?;
        push_factor(text, part)?;
    }
    Ok(())
}

/// Appends an expression as a part of a sum.
#[cycle(expr)]
fn push_summand(text: &mut Writer, expr: &Expr) -> Result<(), Memory>
    ensures { OnOk result (text.new ≡ text.old ++ summand_text expr.now (expr_text expr.now)) }
{
    match expr {
        Expr::Sum { .. } => push_in_parentheses(text, expr),
        _ => push_expr(text, expr),
    }
}

/// Appends an expression as a factor.
#[cycle(expr)]
fn push_factor(text: &mut Writer, expr: &Expr) -> Result<(), Memory>
    ensures { OnOk result (text.new ≡ text.old ++ factor_text expr.now (expr_text expr.now)) }
{
    match expr {
        Expr::Sum { .. } | Expr::Product { .. } => push_in_parentheses(text, expr),
        _ => push_expr(text, expr),
    }
}

/// Appends an expression in parentheses.
#[cycle(expr)]
fn push_in_parentheses(text: &mut Writer, expr: &Expr) -> Result<(), Memory>
    ensures { OnOk result (text.new ≡ text.old ++ parenthesized (expr_text expr.now)) }
{
    text.words("(")?;
    push_expr(text, expr)?;
    text.words(")")
}

/// Appends the lines of statements within so many loops.
#[cycle(stmt)]
fn push_stmts(text: &mut Writer, loops: usize, stmts: &[Stmt]) -> Result<(), Memory>
    requires within { loops ≤ most_brackets }
    requires regular { AllByRecursion (λ s. IsRegularStmt s (most_brackets - loops)) stmts.now }
    ensures { OnOk result (text.new ≡ text.old ++ laid loops (flat_map stmt_lines stmts.now)) }
{
    for stmt in stmts {
        push_stmt(text, loops, stmt)?;
    }
    Ok(())
}

/// Appends the lines of a statement within so many loops.
#[cycle(stmt)]
#[tactic(auto, using(crate::proofs::Layers::stmt_texts))]
fn push_stmt(text: &mut Writer, loops: usize, stmt: &Stmt) -> Result<(), Memory>
    requires within { loops ≤ most_brackets }
    requires regular { IsRegularStmt stmt.now (most_brackets - loops) }
    ensures { OnOk result (text.new ≡ text.old ++ laid loops (stmt_lines stmt.now)) }
{
    text.indent(loops)?;
    match stmt {
        Stmt::Set { target, value } => push_assignment(text, target, value),
        Stmt::Loop {
            name,
            from,
            to,
            body,
            ..
        } => {
            push_head(text, name.as_slice(), *from, *to)?;
            push_stmts(text, loops + 1, body.as_slice())?;
            text.indent(loops)?;
            text.words("}\n")
        }
    }
}

/// Appends an assignment and its line feed.
fn push_assignment(text: &mut Writer, target: &Ref, value: &Expr) -> Result<(), Memory>
    ensures { OnOk result (text.new ≡ text.old ++ ended (assignment_line target.now value.now)) }
{
    push_reference(text, target)?;
    text.words(" = ")?;
    push_expr(text, value)?;
    text.words(";\n")
}

/// Appends the head of a loop and its line feed.
fn push_head(text: &mut Writer, name: &[u8], from: u32, to: u32) -> Result<(), Memory>
    ensures { OnOk result (text.new ≡ text.old ++ ended (head_line name.now from to)) }
{
    text.words("for ")?;
    text.bytes(name)?;
    text.words(" in ")?;
    text.number(from)?;
    text.words("..")?;
    text.number(to)?;
    text.words(" {\n")
}
