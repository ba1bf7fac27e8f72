//! The templates of blocks, emitted one after the other.

ghost use Rattle.std.specs.Prelude.{◌≡◌, ◌≤◌, ◌<◌, ◌+◌, ◌*◌, ◌++◌, ℕ, All, true, false, [], ◌∷◌, length, IfOk};
ghost use Rattle.mk_base.specs.declared.TheConstants.{TOP_ORDER};
ghost use Rattle.mk_code.specs.declared.TheConstants.{MOST_INPUTS, MOST_INSTRS};
ghost use Rattle.mk_code.specs.Draft.{draft_len};
ghost use Rattle.mk_code.specs.Listing.{FitsAt};
ghost use Rattle.mk_ssa.specs.Kinds.{is_public, shared_operands, public_operands};
ghost use Rattle.mk_gadget.specs.Emitted.{Emitted};
ghost use Rattle.mk_gadget.specs.Gadget.{placed};
ghost use Rattle.mk_gadget.specs.Template.{built_in};
ghost use Rattle.mk_rules.specs.Wired.{Wired};
ghost use Rattle.mk_compile.specs.Emitting.{draft_shape, blocks_len};
ghost use Rattle.mk_compile.specs.Positions.{IsSharedAt, IsPublicAt, HasOperands, IsElement, ArePlaced, AreBefore, bank_at, is_public_at, positions_read};

use crate::positions::{Inputs, Position, public_position, shared_bank};
use mk_base::Memory;
use mk_code::{CodeBuilder, Instr};
use mk_field::Field;
use mk_gadget::{
    emit_add, emit_add_public, emit_lift, emit_map, emit_mul, emit_refresh, emit_scale_public,
    emit_sq,
};
use mk_share::Bank;
use mk_ssa::Op;
use std::alloc::Global;

/// The instruction of a public operator, over the values of blocks.
fn public_instr<const N: usize>(inputs: Inputs, blocks: &[Position<N>], op: Op) -> Instr
    requires shares { N ≤ TOP_ORDER + 1 }
    requires few { inputs.secrets ≤ MOST_INPUTS }
    requires few_publics { inputs.publics ≤ MOST_INPUTS }
    requires public { is_public op ≡ true }
    requires there { All (IsPublicAt inputs.publics blocks.now) (public_operands op) }
    ensures { (base : ℕ) → placed (positions_read inputs.secrets blocks.now op) base (built_in N op) ≡ result ∷ [] }
{
    match op {
        Op::Const { value } => Instr::Const { value },
        Op::PubAdd { left, right } => Instr::Add {
            left: public_position(inputs, blocks, left),
            right: public_position(inputs, blocks, right),
        },
        Op::PubMul { left, right } => Instr::Mul {
            left: public_position(inputs, blocks, left),
            right: public_position(inputs, blocks, right),
        },
        Op::PubSq { arg } => Instr::Sq {
            from: public_position(inputs, blocks, arg),
        },
        Op::PubMap { map, arg } => Instr::Map {
            map,
            from: public_position(inputs, blocks, arg),
        },
        _ => unreachable!(),
    }
}

/// Appends the template of an operator whose value is shared, and answers its bank.
fn emit_shared<F: Field, const N: usize>(
    builder: &mut CodeBuilder<F>,
    inputs: Inputs,
    blocks: &[Position<N>],
    op: Op,
) -> Result<Bank<N>, Memory>
    requires shares { (2 ≤ N) × (N ≤ TOP_ORDER + 1) }
    requires order { builder.old.order + 1 ≡ N }
    requires secrets { inputs.secrets ≡ builder.old.secrets }
    requires publics { inputs.publics ≡ builder.old.publics }
    requires inputs { (inputs.secrets ≤ MOST_INPUTS) × (inputs.publics ≤ MOST_INPUTS) }
    requires few { length builder.old.instrs + length (built_in N op).instrs ≤ MOST_INSTRS }
    requires shared { is_public op ≡ false }
    requires there { HasOperands inputs.secrets inputs.publics (length builder.old.maps) blocks.now op }
    requires before { AreBefore (draft_len builder.old) blocks.now }
    ensures { IfOk result (λ bank. Emitted builder.old builder.new (positions_read inputs.secrets blocks.now op) (built_in N op) bank.regs) }
{
    match op {
        Op::Lift { arg } => emit_lift::<F, N>(builder, public_position::<N>(inputs, blocks, arg)),
        Op::Add { left, right } => emit_add::<F, N>(
            builder,
            &shared_bank::<N>(inputs, blocks, left),
            &shared_bank::<N>(inputs, blocks, right),
        ),
        Op::AddPub { left, right } => emit_add_public::<F, N>(
            builder,
            &shared_bank::<N>(inputs, blocks, left),
            public_position::<N>(inputs, blocks, right),
        ),
        Op::Scale { left, right } => emit_scale_public::<F, N>(
            builder,
            &shared_bank::<N>(inputs, blocks, left),
            public_position::<N>(inputs, blocks, right),
        ),
        Op::Sq { arg } => emit_sq::<F, N>(builder, &shared_bank::<N>(inputs, blocks, arg)),
        Op::Map { map, arg } => emit_map::<F, N>(
            builder,
            map,
            &shared_bank::<N>(inputs, blocks, arg),
        ),
        Op::Mul { left, right } => emit_mul::<F, N>(
            builder,
            &shared_bank::<N>(inputs, blocks, left),
            &shared_bank::<N>(inputs, blocks, right),
        ),
        Op::Refresh { arg } => emit_refresh::<F, N>(
            builder,
            &shared_bank::<N>(inputs, blocks, arg),
        ),
        _ => unreachable!(),
    }
}

/// Appends the template of an operator, and answers where its value stands.
fn emit<F: Field, const N: usize>(
    builder: &mut CodeBuilder<F>,
    inputs: Inputs,
    blocks: &[Position<N>],
    op: Op,
) -> Result<Position<N>, Memory>
    requires shares { (2 ≤ N) × (N ≤ TOP_ORDER + 1) }
    requires order { builder.old.order + 1 ≡ N }
    requires secrets { inputs.secrets ≡ builder.old.secrets }
    requires publics { inputs.publics ≡ builder.old.publics }
    requires inputs { (inputs.secrets ≤ MOST_INPUTS) × (inputs.publics ≤ MOST_INPUTS) }
    requires few { length builder.old.instrs + length (built_in N op).instrs ≤ MOST_INSTRS }
    requires constant { IsElement F.ID op }
    requires there { HasOperands inputs.secrets inputs.publics (length builder.old.maps) blocks.now op }
    requires before { AreBefore (draft_len builder.old) blocks.now }
    ensures emitted { IfOk result (λ position. Emitted builder.old builder.new (positions_read inputs.secrets blocks.now op) (built_in N op) (bank_at position)) }
    ensures kind { IfOk result (λ position. is_public_at position ≡ is_public op) }
{
    if op.is_public() {
        builder.reserve(1)?;
        let position = builder.push(public_instr::<N>(inputs, blocks, op));
        Ok(Position::Public(position))
    } else {
        let bank = emit_shared::<F, N>(builder, inputs, blocks, op)?;
        Ok(Position::Shared(bank))
    }
}

/// Appends the templates of wired blocks, one after the other, and answers where their values stand.
pub(crate) fn emit_blocks<F: Field, const N: usize>(
    alloc: Global,
    builder: &mut CodeBuilder<F>,
    inputs: Inputs,
    blocks: &[Op],
) -> Result<Vec<Position<N>>, Memory>
    requires shares { (2 ≤ N) × (N ≤ TOP_ORDER + 1) }
    requires order { builder.old.order + 1 ≡ N }
    requires secrets { inputs.secrets ≡ builder.old.secrets }
    requires publics { inputs.publics ≡ builder.old.publics }
    requires inputs { (inputs.secrets ≤ MOST_INPUTS) × (inputs.publics ≤ MOST_INPUTS) }
    requires none { builder.old.instrs ≡ [] }
    requires wired { Wired (draft_shape F.ID builder.old) blocks.now }
    requires few { blocks_len N blocks.now ≤ MOST_INSTRS }
    ensures code { IfOk result (λ positions. builder.new ≡ record builder.old { instrs = builder.new.instrs; spare = builder.new.spare }) }
    ensures placed { IfOk result (λ positions. ArePlaced (draft_shape F.ID builder.old) blocks.now builder.new.instrs positions.items) }
{
    let mut positions = Vec::new(alloc);
    for op in blocks {
        let position = emit::<F, N>(builder, inputs, positions.as_slice(), *op)?;
        positions.push(position)?;
    }
    Ok(positions)
}
