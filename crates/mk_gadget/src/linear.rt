//! Emitters of linear gadgets.

ghost use Rattle.std.specs.Prelude.{◌≡◌, ◌≤◌, ◌<◌, ◌+◌, ◌++◌, List, [], ◌∷◌, length, bit_xor, slice_index, IfOk, OnErr};
ghost use Rattle.mk_code.specs.declared.TheConstants.{MOST_INSTRS};
ghost use Rattle.mk_field.specs.declared.map.AddMap.{AddMap};
ghost use Rattle.mk_field.specs.Field.{product, square, image_by};
ghost use Rattle.mk_code.specs.Counting.{AllBelow};
ghost use Rattle.mk_code.specs.Draft.{draft_len};
ghost use Rattle.mk_gadget.specs.Emitted.{Emitted, Gives, shared_at};
ghost use Rattle.mk_gadget.specs.Steady.{IsSteady};
ghost use Rattle.mk_gadget.specs.Template.{addition, public_addition, scaling, squaring, mapping, lift};

use mk_base::Memory;
use mk_code::{CodeBuilder, Instr};
use mk_field::Field;
use mk_share::Bank;

/// Appends the sum of two shared values, and answers its bank. After `Memory` the code is as before.
pub fn emit_add<F: Field, const N: usize>(
    builder: &mut CodeBuilder<F>,
    x: &Bank<N>,
    y: &Bank<N>,
) -> Result<Bank<N>, Memory>
    requires least { 2 ≤ N }
    requires order { builder.old.order + 1 ≡ N }
    requires few { length builder.old.instrs + N ≤ MOST_INSTRS }
    requires left { AllBelow (draft_len builder.old) x.now.regs }
    requires right { AllBelow (draft_len builder.old) y.now.regs }
    ensures emitted { IfOk result (λ bank. Emitted builder.old builder.new (x.now.regs ++ y.now.regs) (addition N) bank.regs) }
    ensures value { IfOk result (λ bank. Gives F.ID builder.old.maps N (draft_len builder.old) (x.now.regs ++ y.now.regs) (addition N) (λ entries. bit_xor (shared_at x.now.regs entries) (shared_at y.now.regs entries))) }
    ensures steady { (maps : List AddMap) → IsSteady F.ID maps N 2 0 (addition N) }
    ensures memory { OnErr result (builder.new ≡ record builder.old { spare = builder.new.spare }) }
{
    x.law();
    y.law();
    builder.reserve(N as u32)?;
    let mut regs = [0; N];
    for share in 0..N {
        regs[share] = builder.push(Instr::Add {
            left: x.regs[share],
            right: y.regs[share],
        });
    }
    Ok(Bank { regs })
}

/// Appends the sum of a shared value and a public one, and answers its bank: the public value is added
/// to share 0. After `Memory` the code is as before.
pub fn emit_add_public<F: Field, const N: usize>(
    builder: &mut CodeBuilder<F>,
    x: &Bank<N>,
    p: u32,
) -> Result<Bank<N>, Memory>
    requires least { 2 ≤ N }
    requires order { builder.old.order + 1 ≡ N }
    requires few { length builder.old.instrs + N ≤ MOST_INSTRS }
    requires shared { AllBelow (draft_len builder.old) x.now.regs }
    requires public { p < draft_len builder.old }
    ensures emitted { IfOk result (λ bank. Emitted builder.old builder.new (x.now.regs ++ p ∷ []) (public_addition N) bank.regs) }
    ensures value { IfOk result (λ bank. Gives F.ID builder.old.maps N (draft_len builder.old) (x.now.regs ++ p ∷ []) (public_addition N) (λ entries. bit_xor (shared_at x.now.regs entries) (slice_index entries p))) }
    ensures steady { (maps : List AddMap) → IsSteady F.ID maps N 1 1 (public_addition N) }
    ensures memory { OnErr result (builder.new ≡ record builder.old { spare = builder.new.spare }) }
{
    x.law();
    builder.reserve(N as u32)?;
    let mut regs = [0; N];
    regs[0] = builder.push(Instr::Add {
        left: x.regs[0],
        right: p,
    });
    for share in 1..N {
        regs[share] = builder.push(Instr::Copy {
            from: x.regs[share],
        });
    }
    Ok(Bank { regs })
}

/// Appends the product of a shared value and a public one, and answers its bank. After `Memory` the
/// code is as before.
pub fn emit_scale_public<F: Field, const N: usize>(
    builder: &mut CodeBuilder<F>,
    x: &Bank<N>,
    p: u32,
) -> Result<Bank<N>, Memory>
    requires least { 2 ≤ N }
    requires order { builder.old.order + 1 ≡ N }
    requires few { length builder.old.instrs + N ≤ MOST_INSTRS }
    requires shared { AllBelow (draft_len builder.old) x.now.regs }
    requires public { p < draft_len builder.old }
    ensures emitted { IfOk result (λ bank. Emitted builder.old builder.new (x.now.regs ++ p ∷ []) (scaling N) bank.regs) }
    ensures value { IfOk result (λ bank. Gives F.ID builder.old.maps N (draft_len builder.old) (x.now.regs ++ p ∷ []) (scaling N) (λ entries. product F.ID (shared_at x.now.regs entries) (slice_index entries p))) }
    ensures steady { (maps : List AddMap) → IsSteady F.ID maps N 1 1 (scaling N) }
    ensures memory { OnErr result (builder.new ≡ record builder.old { spare = builder.new.spare }) }
{
    x.law();
    builder.reserve(N as u32)?;
    let mut regs = [0; N];
    for share in 0..N {
        regs[share] = builder.push(Instr::Mul {
            left: x.regs[share],
            right: p,
        });
    }
    Ok(Bank { regs })
}

/// Appends the square of a shared value, and answers its bank. After `Memory` the code is as before.
pub fn emit_sq<F: Field, const N: usize>(
    builder: &mut CodeBuilder<F>,
    x: &Bank<N>,
) -> Result<Bank<N>, Memory>
    requires least { 2 ≤ N }
    requires order { builder.old.order + 1 ≡ N }
    requires few { length builder.old.instrs + N ≤ MOST_INSTRS }
    requires shared { AllBelow (draft_len builder.old) x.now.regs }
    ensures emitted { IfOk result (λ bank. Emitted builder.old builder.new x.now.regs (squaring N) bank.regs) }
    ensures value { IfOk result (λ bank. Gives F.ID builder.old.maps N (draft_len builder.old) x.now.regs (squaring N) (λ entries. square F.ID (shared_at x.now.regs entries))) }
    ensures steady { (maps : List AddMap) → IsSteady F.ID maps N 1 0 (squaring N) }
    ensures memory { OnErr result (builder.new ≡ record builder.old { spare = builder.new.spare }) }
{
    x.law();
    builder.reserve(N as u32)?;
    let mut regs = [0; N];
    for share in 0..N {
        regs[share] = builder.push(Instr::Sq {
            from: x.regs[share],
        });
    }
    Ok(Bank { regs })
}

/// Appends the image of a shared value under the map of this number, and answers its bank. After
/// `Memory` the code is as before.
pub fn emit_map<F: Field, const N: usize>(
    builder: &mut CodeBuilder<F>,
    map: u32,
    x: &Bank<N>,
) -> Result<Bank<N>, Memory>
    requires least { 2 ≤ N }
    requires order { builder.old.order + 1 ≡ N }
    requires few { length builder.old.instrs + N ≤ MOST_INSTRS }
    requires map { map < length builder.old.maps }
    requires shared { AllBelow (draft_len builder.old) x.now.regs }
    ensures emitted { IfOk result (λ bank. Emitted builder.old builder.new x.now.regs (mapping N map) bank.regs) }
    ensures value { IfOk result (λ bank. Gives F.ID builder.old.maps N (draft_len builder.old) x.now.regs (mapping N map) (λ entries. image_by builder.old.maps map (shared_at x.now.regs entries))) }
    ensures steady { (maps : List AddMap) → IsSteady F.ID maps N 1 0 (mapping N map) }
    ensures memory { OnErr result (builder.new ≡ record builder.old { spare = builder.new.spare }) }
{
    x.law();
    builder.reserve(N as u32)?;
    let mut regs = [0; N];
    for share in 0..N {
        regs[share] = builder.push(Instr::Map {
            map,
            from: x.regs[share],
        });
    }
    Ok(Bank { regs })
}

/// Appends a public value as shares, which are the value and zeros, and answers their bank. After
/// `Memory` the code is as before.
pub fn emit_lift<F: Field, const N: usize>(
    builder: &mut CodeBuilder<F>,
    p: u32,
) -> Result<Bank<N>, Memory>
    requires least { 2 ≤ N }
    requires order { builder.old.order + 1 ≡ N }
    requires few { length builder.old.instrs + N ≤ MOST_INSTRS }
    requires public { p < draft_len builder.old }
    ensures emitted { IfOk result (λ bank. Emitted builder.old builder.new (p ∷ []) (lift N) bank.regs) }
    ensures value { IfOk result (λ bank. Gives F.ID builder.old.maps N (draft_len builder.old) (p ∷ []) (lift N) (λ entries. slice_index entries p)) }
    ensures steady { (maps : List AddMap) → IsSteady F.ID maps N 0 1 (lift N) }
    ensures memory { OnErr result (builder.new ≡ record builder.old { spare = builder.new.spare }) }
{
    builder.reserve(N as u32)?;
    let mut regs = [0; N];
    regs[0] = builder.push(Instr::Copy { from: p });
    for share in 1..N {
        regs[share] = builder.push(Instr::Const { value: 0 });
    }
    Ok(Bank { regs })
}
