//! The offences of statements.

ghost use Rattle.std.specs.Prelude.{◌≡◌, flat_map, OnOk};
ghost use Rattle.mk_types.specs.Noted.{noted};
ghost use Rattle.mk_types.specs.Offences.{target_offences, assignment_offences, loop_name_offences, stmt_offences};

use crate::expressions::{check_expr, is_shared};
use crate::found::Found;
use crate::indexes::check_reference;
use crate::kinds::{is_input, is_local_public};
use crate::offence::OffenceKind;
use crate::scope::Scope;
use mk_ast::{Expr, Ref, Stmt};
use mk_base::{Memory, Place};

/// Notes the offences of a target as the target of this value.
#[tactic(auto, using(crate::proofs::Lists::noted_append))]
fn check_target(scope: &Scope, found: &mut Found, target: &Ref, value: &Expr)
    ensures { found.new ≡ noted found.old (target_offences scope.now target.now value.now) }
{
    let name = target.name.as_slice();
    found.note_if(
        is_input(scope.declared(name)),
        target.at,
        OffenceKind::AssignInput,
    );
    let mixed = is_local_public(scope.declared(name)) && is_shared(scope, value);
    found.note_if(mixed, target.at, OffenceKind::Kind);
}

/// Notes the offences of an assignment.
#[tactic(auto, using(crate::proofs::Lists::noted_append))]
fn check_assignment(scope: &Scope, found: &mut Found, target: &Ref, value: &Expr)
    ensures { found.new ≡ noted found.old (assignment_offences scope.now target.now value.now) }
{
    check_target(scope, found, target, value);
    check_reference(scope, found, target);
    check_expr(scope, found, value);
}

/// Notes the offences of the name of a loop.
fn check_loop_name(scope: &Scope, found: &mut Found, name: &[u8], at: Place)
    ensures { found.new ≡ noted found.old (loop_name_offences scope.now name.now at) }
{
    let is_taken = scope.declared(name).is_some() || scope.is_loop(name);
    found.note_if(is_taken, at, OffenceKind::Twice);
}

/// Notes the offences of a statement.
#[cycle(stmt)]
#[tactic(auto, using(crate::proofs::Layers::stmt_layers))]
fn check_stmt<'a>(scope: &mut Scope<'a>, found: &mut Found, stmt: &'a Stmt) -> Result<(), Memory>
    ensures scope { OnOk result (scope.new ≡ scope.old) }
    ensures found { OnOk result (found.new ≡ noted found.old (stmt_offences stmt.now scope.old)) }
{
    match stmt {
        Stmt::Set { target, value } => {
            check_assignment(scope, found, target, value);
            Ok(())
        }
        Stmt::Loop { name, at, body, .. } => {
            check_loop_name(scope, found, name.as_slice(), *at);
            scope.enter(name.as_slice())?;
            check_stmts(scope, found, body.as_slice())?;
            scope.leave();
            Ok(())
        }
    }
}

/// Notes the offences of these statements.
#[cycle(stmt)]
pub(crate) fn check_stmts<'a>(
    scope: &mut Scope<'a>,
    found: &mut Found,
    stmts: &'a [Stmt],
) -> Result<(), Memory>
    ensures scope { OnOk result (scope.new ≡ scope.old) }
    ensures found { OnOk result (found.new ≡ noted found.old (flat_map (λ s. stmt_offences s scope.old) stmts.now)) }
{
    for stmt in stmts {
        check_stmt(scope, found, stmt)?;
    }
    Ok(())
}
