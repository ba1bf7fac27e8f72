//! Statements, executed.

ghost use Rattle.std.specs.Prelude.{◌≡◌, [], ◌∷◌, ◌++◌, List, flat_map, OnOk, IfErr};
ghost use Rattle.mk_types.specs.Elements.{maps_of};
ghost use Rattle.mk_types.specs.Offences.{expr_offences, stmt_offences};
ghost use Rattle.mk_types.specs.Scope.{inside};
ghost use Rattle.mk_types.specs.Turns.{in_turn, turn_numbers};
ghost use Rattle.mk_types.specs.Units.{Step, expr_units, reference_units, stmt_units};
ghost use Rattle.mk_unroll.specs.Counted.{counted, Halts};
ghost use Rattle.mk_unroll.specs.Kept.{Holds, Becomes, scope_in};
ghost use Rattle.mk_unroll.specs.Running.{body_unrolled, body_units, turns_unrolled, turns_units};
ghost use Rattle.mk_unroll.specs.Unrolled.{assignment_unrolled, stmt_unrolled};

use crate::expressions::operand_of;
use crate::frame::{Frame, element};
use crate::meter::Meter;
use crate::names::is_shared;
use crate::operators::lift_if;
use mk_ast::{Expr, Ref, SourceRefusal, Stmt};
use mk_ssa::SsaBuilder;

/// Carries out an assignment.
#[tactic(auto, using(crate::proofs::Counting::counted_append, crate::proofs::Counting::halts_on))]
fn assign(
    frame: &mut Frame,
    meter: &mut Meter,
    values: &mut SsaBuilder,
    target: &Ref,
    value: &Expr,
) -> Result<(), SourceRefusal>
    requires typed { expr_offences (scope_in values.old.field frame.old.names frame.old.turns) value.now ≡ [] }
    requires maps { values.old.maps ≡ maps_of frame.old.names }
    requires holds { Holds values.old frame.old.names frame.old.variables }
    ensures frame { OnOk result ((frame.new.names ≡ frame.old.names) × (frame.new.turns ≡ frame.old.turns)) }
    ensures becomes { OnOk result (Becomes frame.old.names values.old (assignment_unrolled frame.old.names target.now value.now frame.old.turns (record { values = values.old.values; env = frame.old.variables })) values.new frame.new.variables) }
    ensures ok { OnOk result (meter.new ≡ counted meter.old (expr_units frame.old.names frame.old.turns value.now ++ reference_units frame.old.names frame.old.turns target.now)) }
    ensures halted { IfErr result (λ e. Halts e (counted meter.old (expr_units frame.old.names frame.old.turns value.now ++ reference_units frame.old.names frame.old.turns target.now))) }
{
    let given = operand_of(frame, meter, values, value)?;
    let index = element(frame, meter, target)?;
    let name = target.name.as_slice();
    let operand = lift_if(values, is_shared(&frame.names, name), given)?;
    let number = frame.names.number(name);
    frame.variables.write(number, index, operand);
    Ok(())
}

/// Carries out a statement.
#[cycle(stmt)]
#[tactic(auto, using(crate::proofs::Counting::stmt_walk, crate::proofs::Counting::halts_on))]
fn execute<'a>(
    frame: &mut Frame<'a>,
    meter: &mut Meter,
    values: &mut SsaBuilder,
    stmt: &'a Stmt,
) -> Result<(), SourceRefusal>
    requires typed { stmt_offences stmt.now (scope_in values.old.field frame.old.names frame.old.turns) ≡ [] }
    requires maps { values.old.maps ≡ maps_of frame.old.names }
    requires holds { Holds values.old frame.old.names frame.old.variables }
    ensures frame { OnOk result ((frame.new.names ≡ frame.old.names) × (frame.new.turns ≡ frame.old.turns)) }
    ensures becomes { OnOk result (Becomes frame.old.names values.old (stmt_unrolled frame.old.names stmt.now frame.old.turns (record { values = values.old.values; env = frame.old.variables })) values.new frame.new.variables) }
    ensures ok { OnOk result (meter.new ≡ counted meter.old (stmt_units frame.old.names stmt.now frame.old.turns)) }
    ensures halted { IfErr result (λ e. Halts e (counted meter.old (stmt_units frame.old.names stmt.now frame.old.turns))) }
{
    meter.step()?;
    match stmt {
        Stmt::Set { target, value } => assign(frame, meter, values, target, value),
        Stmt::Loop {
            name,
            from,
            to,
            body,
            ..
        } => repeat(
            frame,
            meter,
            values,
            name.as_slice(),
            *from,
            *to,
            body.as_slice(),
        ),
    }
}

/// Carries out the turns of a loop.
#[cycle(stmt)]
#[tactic(auto, using(crate::proofs::Counting::stmt_walk, crate::proofs::Counting::halts_on))]
fn repeat<'a>(
    frame: &mut Frame<'a>,
    meter: &mut Meter,
    values: &mut SsaBuilder,
    name: &'a [u8],
    from: u32,
    to: u32,
    body: &'a [Stmt],
) -> Result<(), SourceRefusal>
    requires typed { flat_map (λ s. stmt_offences s (inside (scope_in values.old.field frame.old.names frame.old.turns) name.now)) body.now ≡ [] }
    requires maps { values.old.maps ≡ maps_of frame.old.names }
    requires holds { Holds values.old frame.old.names frame.old.variables }
    ensures frame { OnOk result ((frame.new.names ≡ frame.old.names) × (frame.new.turns ≡ frame.old.turns)) }
    ensures becomes { OnOk result (Becomes frame.old.names values.old (turns_unrolled frame.old.names frame.old.turns name.now body.now (record { values = values.old.values; env = frame.old.variables }) (turn_numbers from to)) values.new frame.new.variables) }
    ensures ok { OnOk result (meter.new ≡ counted meter.old (turns_units frame.old.names frame.old.turns name.now body.now (turn_numbers from to))) }
    ensures halted { IfErr result (λ e. Halts e (counted meter.old (turns_units frame.old.names frame.old.turns name.now body.now (turn_numbers from to)))) }
{
    for number in from..to {
        turn(frame, meter, values, name, number, body)?;
    }
    Ok(())
}

/// Carries out a turn of a loop.
#[cycle(stmt)]
#[tactic(auto, using(crate::proofs::Counting::stmt_walk, crate::proofs::Counting::halts_on))]
fn turn<'a>(
    frame: &mut Frame<'a>,
    meter: &mut Meter,
    values: &mut SsaBuilder,
    name: &'a [u8],
    number: u32,
    body: &'a [Stmt],
) -> Result<(), SourceRefusal>
    requires typed { flat_map (λ s. stmt_offences s (inside (scope_in values.old.field frame.old.names frame.old.turns) name.now)) body.now ≡ [] }
    requires maps { values.old.maps ≡ maps_of frame.old.names }
    requires holds { Holds values.old frame.old.names frame.old.variables }
    ensures frame { OnOk result ((frame.new.names ≡ frame.old.names) × (frame.new.turns ≡ frame.old.turns)) }
    ensures becomes { OnOk result (Becomes frame.old.names values.old (body_unrolled frame.old.names (in_turn frame.old.turns name.now number) (record { values = values.old.values; env = frame.old.variables }) body.now) values.new frame.new.variables) }
    ensures ok { OnOk result (meter.new ≡ counted meter.old (Step ∷ body_units frame.old.names (in_turn frame.old.turns name.now number) body.now)) }
    ensures halted { IfErr result (λ e. Halts e (counted meter.old (Step ∷ body_units frame.old.names (in_turn frame.old.turns name.now number) body.now))) }
{
    meter.turn()?;
    frame.turns.enter(name, number)?;
    execute_all(frame, meter, values, body)?;
    frame.turns.leave();
    Ok(())
}

/// Carries out these statements.
#[cycle(stmt)]
#[tactic(auto, using(crate::proofs::Counting::stmt_walk, crate::proofs::Counting::halts_on))]
pub(crate) fn execute_all<'a>(
    frame: &mut Frame<'a>,
    meter: &mut Meter,
    values: &mut SsaBuilder,
    stmts: &'a [Stmt],
) -> Result<(), SourceRefusal>
    requires typed { flat_map (λ s. stmt_offences s (scope_in values.old.field frame.old.names frame.old.turns)) stmts.now ≡ [] }
    requires maps { values.old.maps ≡ maps_of frame.old.names }
    requires holds { Holds values.old frame.old.names frame.old.variables }
    ensures frame { OnOk result ((frame.new.names ≡ frame.old.names) × (frame.new.turns ≡ frame.old.turns)) }
    ensures becomes { OnOk result (Becomes frame.old.names values.old (body_unrolled frame.old.names frame.old.turns (record { values = values.old.values; env = frame.old.variables }) stmts.now) values.new frame.new.variables) }
    ensures ok { OnOk result (meter.new ≡ counted meter.old (body_units frame.old.names frame.old.turns stmts.now)) }
    ensures halted { IfErr result (λ e. Halts e (counted meter.old (body_units frame.old.names frame.old.turns stmts.now))) }
{
    for stmt in stmts {
        execute(frame, meter, values, stmt)?;
    }
    Ok(())
}
