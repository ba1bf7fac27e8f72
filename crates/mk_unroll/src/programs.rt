//! The values that a program is unrolled to.

ghost use Rattle.std.specs.Prelude.{◌≡◌, ◌⊎◌, ◌≤◌, ◌<◌, ◌+◌, ◌*◌, ◌^◌, true, [], ◌∷◌, OnOk, IfOk, IfErr};
ghost use Rattle.mk_unroll.specs.declared.TheConstants.{MOST_ELEMENTS, MOST_SIZE};
ghost use Rattle.mk_base.specs.declared.TheConstants.{TOP_ORDER};
ghost use Rattle.mk_ast.specs.declared.refusal.SourceRefusal.TheVariants as refusal_;
ghost use Rattle.mk_ast.specs.declared.refusal.Limit.TheVariants as limit_;
ghost use Rattle.mk_ssa.specs.declared.Operand.TheVariants.{Block};
ghost use Rattle.mk_ssa.specs.declared.Op.TheVariants.{Const, Lift};
ghost use Rattle.mk_field.specs.Field.{HasMapsOnlyInBytes};
ghost use Rattle.mk_types.specs.Elements.{elements_among};
ghost use Rattle.mk_types.specs.Offences.{IsWellTyped, decls_offences};
ghost use Rattle.mk_unroll.specs.Beginning.{first_env, first_draft};
ghost use Rattle.mk_unroll.specs.Causes.{HasFewElements, Ends, IsSmall, Cause};
ghost use Rattle.mk_unroll.specs.Meant.{HasMeaning, HasFewValues};
ghost use Rattle.mk_unroll.specs.Unrolled.{unrolled};

use crate::MOST_SIZE;
use crate::beginning::{Inputs, check_elements, first_variables, inputs_of, maps_in_order};
use crate::frame::Frame;
use crate::meter::Meter;
use crate::outputs::outputs;
use crate::statements::execute_all;
use crate::turns::Turns;
use mk_ast::{Decl, Limit, Program, SourceRefusal, Stmt};
use mk_base::Memory;
use mk_field::FieldId;
use mk_ssa::{MapList, Op, Ssa, SsaBuilder};
use mk_types::{Names, Typed};
use std::alloc::Global;

/// Refuses a size of more than 1,000,000.
fn check_size(operations: u32, order: u8) -> Result<(), SourceRefusal>
    ensures small { OnOk result (operations * ((order + 1) * (order + 1)) ≤ MOST_SIZE) }
    ensures large { IfErr result (λ e. (e ≡ refusal_.Large limit_.Size) × (MOST_SIZE < operations * ((order + 1) * (order + 1)))) }
{
    let shares = u64::from(order) + 1;
    if u64::from(operations) * (shares * shares) > MOST_SIZE {
        return Err(SourceRefusal::Large(Limit::Size));
    }
    Ok(())
}

/// The values 0 and 1: the constant 00 and its lift.
fn first_two(
    alloc: Global,
    field: FieldId,
    inputs: Inputs,
    maps: MapList,
) -> Result<SsaBuilder, Memory>
    requires { HasMapsOnlyInBytes field maps }
    ensures { IfOk result (λ b. b ≡ record { field = field; secrets = inputs.secrets; publics = inputs.publics; maps = maps; values = Const 0 ∷ Lift (Block 0) ∷ [] }) }
{
    let mut values = SsaBuilder::new(alloc, field, inputs.secrets, inputs.publics, maps);
    let zero = values.push(Op::Const { value: 0 })?;
    values.push(Op::Lift { arg: zero })?;
    Ok(values)
}

/// The values before the first statement.
fn first_values(alloc: Global, field: FieldId, decls: &[Decl]) -> Result<SsaBuilder, Memory>
    requires few { elements_among (λ class. true) decls.now ≤ MOST_ELEMENTS }
    requires typed { decls_offences field [] decls.now ≡ [] }
    ensures { IfOk result (λ b. b ≡ first_draft field decls.now) }
{
    let maps = maps_in_order(alloc, decls)?;
    first_two(alloc, field, inputs_of(decls), maps)
}

/// What the first statement stands in.
fn first_frame<'a>(alloc: Global, decls: &'a [Decl]) -> Result<Frame<'a>, Memory>
    requires { elements_among (λ class. true) decls.now ≤ MOST_ELEMENTS }
    ensures { IfOk result (λ f. f ≡ record { names = decls.now; turns = []; variables = first_env [] decls.now }) }
{
    Ok(Frame {
        names: Names::new(alloc, decls)?,
        turns: Turns::new(alloc),
        variables: first_variables(alloc, decls)?,
    })
}

/// The values of a program of these declarations and statements.
fn unroll_parts(
    alloc: Global,
    field: FieldId,
    decls: &[Decl],
    body: &[Stmt],
    order: u8,
) -> Result<Ssa, SourceRefusal>
    requires typed { IsWellTyped (record { field = field; decls = decls.now; body = body.now }) }
    ensures values { IfOk result (λ s. s ≡ unrolled (record { field = field; decls = decls.now; body = body.now })) }
    ensures elements { OnOk result (HasFewElements (record { field = field; decls = decls.now; body = body.now })) }
    ensures ends { OnOk result (Ends (record { field = field; decls = decls.now; body = body.now })) }
    ensures small { OnOk result (IsSmall (record { field = field; decls = decls.now; body = body.now }) order) }
    ensures cause { IfErr result (λ e. (e ≡ refusal_.Memory) ⊎ Cause (record { field = field; decls = decls.now; body = body.now }) order e) }
{
    check_elements(decls)?;
    let mut values = first_values(alloc, field, decls)?;
    let mut frame = first_frame(alloc, decls)?;
    let mut meter = Meter::new();
    execute_all(&mut frame, &mut meter, &mut values, body)?;
    check_size(meter.operations(), order)?;
    let outs = outputs(alloc, decls, &frame.variables)?;
    Ok(values.finish(outs))
}

/// The values of a well typed program.
fn unroll_program(alloc: Global, program: &Program, order: u8) -> Result<Ssa, SourceRefusal>
    requires typed { IsWellTyped program.now }
    ensures values { IfOk result (λ s. s ≡ unrolled program.now) }
    ensures elements { OnOk result (HasFewElements program.now) }
    ensures ends { OnOk result (Ends program.now) }
    ensures small { OnOk result (IsSmall program.now order) }
    ensures cause { IfErr result (λ e. (e ≡ refusal_.Memory) ⊎ Cause program.now order e) }
{
    let decls = program.decls.as_slice();
    unroll_parts(alloc, program.field, decls, program.body.as_slice(), order)
}

/// The values of a program: its execution with an operand in place of each element. The refusals are, in
/// this order: `Large(Elements)` where more than 65,536 elements are declared; the event that stops
/// execution, which is `Index` with the place of the array's name, `Large(Work)` or `Large(Operations)`;
/// and `Large(Size)` where the operations times the square of the number of shares exceed 1,000,000.
/// `Memory` comes where memory is wanted and not found. No other refusal comes.
pub fn unroll(alloc: Global, p: &Typed, order: u8) -> Result<Ssa, SourceRefusal>
    requires order { (1 ≤ order) × (order ≤ TOP_ORDER) }
    ensures values { IfOk result (λ s. s ≡ unrolled p.now) }
    ensures elements { OnOk result (HasFewElements p.now) }
    ensures ends { OnOk result (Ends p.now) }
    ensures small { OnOk result (IsSmall p.now order) }
    ensures cause { IfErr result (λ e. (e ≡ refusal_.Memory) ⊎ Cause p.now order e) }

    // The outputs stand for the elements that the source gives, on all inputs.
    ensures meaning { IfOk result (λ s. HasMeaning p.now s) }

    // How many values there are of which kind, and inputs and outputs together.
    ensures counts { IfOk result (λ s. HasFewValues s order) }
{
    unroll_program(alloc, p.program(), order)
}
