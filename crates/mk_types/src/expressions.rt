//! The offences of expressions, and which are shared.

ghost use Rattle.std.specs.Prelude.{◌≡◌, flat_map};
ghost use Rattle.std.specs.List.{list_any};
ghost use Rattle.mk_types.specs.Noted.{noted};
ghost use Rattle.mk_types.specs.Scope.{is_shared, is_variable, is_shared_class, declared};
ghost use Rattle.mk_types.specs.Offences.{map_name_offences, is_no_bit, expr_offences};

use crate::found::Found;
use crate::indexes::check_reference;
use crate::kinds::{is_shared_variable, is_variable};
use crate::offence::OffenceKind;
use crate::scope::Scope;
use mk_ast::Expr;
use mk_base::Place;
use mk_field::FieldId;

/// Notes the offences of a name before an argument.
#[tactic(auto, using(crate::proofs::Lists::noted_append))]
fn check_map_name(scope: &Scope, found: &mut Found, name: &[u8], at: Place)
    ensures { found.new ≡ noted found.old (map_name_offences scope.now name.now at) }
{
    found.note_if(scope.is_unknown(name), at, OffenceKind::Unknown);
    let is_no_map = scope.is_loop(name) || is_variable(scope.declared(name));
    found.note_if(is_no_map, at, OffenceKind::Kind);
}

/// Whether a number is no element of the field of two elements.
fn is_no_bit(field: FieldId, value: u8) -> bool
    ensures { result ≡ is_no_bit field value }
{
    match field {
        FieldId::Gf2 => value > 1,
        FieldId::Gf256 => false,
    }
}

/// Notes the offences of an expression.
#[cycle(check)]
#[tactic(auto, using(crate::proofs::Layers::expr_layers))]
pub(crate) fn check_expr(scope: &Scope, found: &mut Found, expr: &Expr)
    ensures { found.new ≡ noted found.old (expr_offences scope.now expr.now) }
{
    match expr {
        Expr::Lit { value, at } => {
            found.note_if(is_no_bit(scope.field(), *value), *at, OffenceKind::Kind)
        }
        Expr::Read { from } => check_reference(scope, found, from),
        Expr::Sq { arg } => check_expr(scope, found, arg.get()),
        Expr::Apply { map, at, arg } => {
            check_map_name(scope, found, map.as_slice(), *at);
            check_expr(scope, found, arg.get());
        }
        Expr::Sum { parts } => check_exprs(scope, found, parts.as_slice()),
        Expr::Product { parts } => check_exprs(scope, found, parts.as_slice()),
    }
}

/// Notes the offences of these expressions.
#[cycle(check)]
fn check_exprs(scope: &Scope, found: &mut Found, exprs: &[Expr])
    ensures { found.new ≡ noted found.old (flat_map (expr_offences scope.now) exprs.now) }
{
    for expr in exprs {
        check_expr(scope, found, expr);
    }
}

/// Whether a name is declared with a shared class.
fn is_shared_name(scope: &Scope, name: &[u8]) -> bool
    ensures { result ≡ is_variable is_shared_class (declared scope.now.decls name.now) }
{
    is_shared_variable(scope.declared(name))
}

/// Whether an expression is shared: it has a name that is declared with a shared class, outside of
/// index brackets.
#[cycle(shared)]
#[tactic(auto, using(crate::proofs::Layers::shared_layers))]
pub(crate) fn is_shared(scope: &Scope, expr: &Expr) -> bool
    ensures { result ≡ is_shared scope.now.decls expr.now }
{
    match expr {
        Expr::Lit { .. } => false,
        Expr::Read { from } => is_shared_name(scope, from.name.as_slice()),
        Expr::Sq { arg } => is_shared(scope, arg.get()),
        Expr::Apply { map, arg, .. } => {
            is_shared_name(scope, map.as_slice()) || is_shared(scope, arg.get())
        }
        Expr::Sum { parts } => has_shared(scope, parts.as_slice()),
        Expr::Product { parts } => has_shared(scope, parts.as_slice()),
    }
}

/// Whether one of these expressions is shared.
#[cycle(shared)]
fn has_shared(scope: &Scope, exprs: &[Expr]) -> bool
    ensures { result ≡ list_any (is_shared scope.now.decls) exprs.now }
{
    for expr in exprs {
        if is_shared(scope, expr) {
            return true;
        }
    }
    false
}
