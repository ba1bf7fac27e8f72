//! Gadgets that a user brings: whether they have the form of one, and whether they are right.
ghost use Rattle.std.specs.Prelude.{◌≡◌, ◌≤◌, IfOk};

use mk_base::{Items, Memory};
use mk_code::{CodeBuilder, Instr};
use mk_field::{Field, FieldId, Gf2, Gf256};
use mk_gadget::{cost_law, emit_mul, emit_refresh};
use mk_pad::{
    Gadget, GadgetKind, PadRefusal, fits, has_form, polynomial_laws, positions_law, right_value,
};
use mk_share::Bank;
use std::alloc::Global;
use std::process::Abort;

/// What a gadget stands for, its field and its order.
#[derive(Clone, Copy)]
struct Head {
    kind: GadgetKind,
    field: FieldId,
    order: u8,
}

const BIT_PRODUCT: Head = Head {
    kind: GadgetKind::Mul,
    field: FieldId::Gf2,
    order: 1,
};

const BYTE_PRODUCT: Head = Head {
    kind: GadgetKind::Mul,
    field: FieldId::Gf256,
    order: 1,
};

const BIT_REFRESH: Head = Head {
    kind: GadgetKind::Refresh,
    field: FieldId::Gf2,
    order: 1,
};

const BYTE_REFRESH: Head = Head {
    kind: GadgetKind::Refresh,
    field: FieldId::Gf256,
    order: 1,
};

/// A list of these items.
fn list_of<T: Copy>(alloc: Global, items: &[T]) -> Result<Items<T>, Memory>
    ensures { IfOk result (λ list. list ≡ items.now) }
{
    Items::try_from_vec(Vec::from_slice(alloc, items)?)
}

/// Whether the parts have the form of a gadget.
fn is_gadget(head: Head, instrs: &[Instr], outs: &[u32]) -> bool {
    has_form(head.kind, head.field, head.order, instrs, outs)
}

/// What is answered for the gadget of these parts.
fn answer(
    rt: &impl Abort,
    alloc: Global,
    head: Head,
    instrs: &[Instr],
    outs: &[u32],
) -> Result<bool, PadRefusal> {
    let Head { kind, field, order } = head;
    assert!(rt; has_form(kind, field, order, instrs, outs));
    let gadget = Gadget::new(
        kind,
        field,
        order,
        list_of(alloc, instrs)?,
        list_of(alloc, outs)?,
    );
    right_value(alloc, &gadget)
}

/// What is answered for the built-in product with `N` shares.
fn built_product<F: Field, const N: usize>(
    rt: &impl Abort,
    alloc: Global,
) -> Result<bool, PadRefusal>
    requires least { 2 ≤ N }
    requires most { N ≤ 9 }
{
    cost_law();
    let mut builder = CodeBuilder::<F>::new(alloc, (N - 1) as u8, 2, 0, Items::new(alloc));
    let x = Bank::<N>::from_first(0);
    let y = Bank::<N>::from_first(N as u32);
    let bank = emit_mul(&mut builder, &x, &y)?;
    let code = builder.finish(Items::new(alloc));
    let head = Head {
        kind: GadgetKind::Mul,
        field: F::ID,
        order: (N - 1) as u8,
    };
    answer(rt, alloc, head, code.instrs().as_slice(), &bank.regs)
}

/// What is answered for the built-in refresh with `N` shares.
fn built_refresh<F: Field, const N: usize>(
    rt: &impl Abort,
    alloc: Global,
) -> Result<bool, PadRefusal>
    requires least { 2 ≤ N }
    requires most { N ≤ 9 }
{
    cost_law();
    let mut builder = CodeBuilder::<F>::new(alloc, (N - 1) as u8, 1, 0, Items::new(alloc));
    let x = Bank::<N>::from_first(0);
    let bank = emit_refresh(&mut builder, &x)?;
    let code = builder.finish(Items::new(alloc));
    let head = Head {
        kind: GadgetKind::Refresh,
        field: F::ID,
        order: (N - 1) as u8,
    };
    answer(rt, alloc, head, code.instrs().as_slice(), &bank.regs)
}

/// The built-in product and the refresh with `N` shares are right over both fields.
fn built_in<const N: usize>(rt: &impl Abort, alloc: Global)
    requires least { 2 ≤ N }
    requires most { N ≤ 9 }
{
    assert_eq!(rt; built_product::<Gf2, N>(rt, alloc), Ok(true));
    assert_eq!(rt; built_product::<Gf256, N>(rt, alloc), Ok(true));
    assert_eq!(rt; built_refresh::<Gf2, N>(rt, alloc), Ok(true));
    assert_eq!(rt; built_refresh::<Gf256, N>(rt, alloc), Ok(true));
}

#[test]
fn the_built_in_ones_are_right(rt: HostRuntime) {
    polynomial_laws();
    positions_law();
    built_in::<2>(&rt, rt.alloc());
    built_in::<3>(&rt, rt.alloc());
    built_in::<4>(&rt, rt.alloc());
}

// The two cross products are added up before the random element is.
static CELLS: [Instr; 9] = [
    Instr::Rnd,
    Instr::Mul { left: 0, right: 3 },
    Instr::Mul { left: 1, right: 2 },
    Instr::Add { left: 5, right: 6 },
    Instr::Add { left: 4, right: 7 },
    Instr::Mul { left: 0, right: 2 },
    Instr::Add { left: 9, right: 4 },
    Instr::Mul { left: 1, right: 3 },
    Instr::Add { left: 11, right: 8 },
];

#[test]
fn products_with_the_sum_of_the_cells_elsewhere(rt: HostRuntime) {
    let alloc = rt.alloc();
    assert_eq!(rt;
        answer(&rt, alloc, BIT_PRODUCT, &CELLS, &[10, 12]),
        Ok(true)
    );
    assert_eq!(rt;
        answer(&rt, alloc, BYTE_PRODUCT, &CELLS, &[10, 12]),
        Ok(true)
    );
    assert_eq!(rt;
        answer(&rt, alloc, BIT_PRODUCT, &CELLS, &[9, 12]),
        Ok(false)
    );
}

// The first operand times itself.
static SQUARE: [Instr; 2] = [
    Instr::Mul { left: 0, right: 0 },
    Instr::Mul { left: 1, right: 1 },
];

#[test]
fn a_square_is_no_product(rt: HostRuntime) {
    assert_eq!(rt;
        answer(&rt, rt.alloc(), BIT_PRODUCT, &SQUARE, &[4, 5]),
        Ok(false)
    );
}

// The first share of the first operand squared eight times, and the product with it.
static EIGHT_SQUARES: [Instr; 14] = [
    Instr::Sq { from: 0 },
    Instr::Sq { from: 4 },
    Instr::Sq { from: 5 },
    Instr::Sq { from: 6 },
    Instr::Sq { from: 7 },
    Instr::Sq { from: 8 },
    Instr::Sq { from: 9 },
    Instr::Sq { from: 10 },
    Instr::Mul { left: 11, right: 2 },
    Instr::Mul { left: 11, right: 3 },
    Instr::Mul { left: 1, right: 2 },
    Instr::Mul { left: 1, right: 3 },
    Instr::Add {
        left: 12,
        right: 13,
    },
    Instr::Add {
        left: 14,
        right: 15,
    },
];

// The first share squared twice, and the second.
static TWO_SQUARES: [Instr; 3] = [
    Instr::Sq { from: 0 },
    Instr::Sq { from: 2 },
    Instr::Copy { from: 1 },
];

#[test]
fn squares(rt: HostRuntime) {
    let alloc = rt.alloc();
    assert_eq!(rt;
        answer(&rt, alloc, BYTE_PRODUCT, &EIGHT_SQUARES, &[16, 17]),
        Ok(true)
    );
    assert_eq!(rt;
        answer(&rt, alloc, BIT_REFRESH, &TWO_SQUARES, &[3, 4]),
        Ok(true)
    );
    assert_eq!(rt;
        answer(&rt, alloc, BYTE_REFRESH, &TWO_SQUARES, &[3, 4]),
        Ok(false)
    );
}

// 05, the square of 02 plus 01, which is 05 too, and shares plus their sum and plus 05.
static CONSTANTS: [Instr; 8] = [
    Instr::Const { value: 5 },
    Instr::Const { value: 2 },
    Instr::Sq { from: 3 },
    Instr::Const { value: 1 },
    Instr::Add { left: 4, right: 5 },
    Instr::Add { left: 2, right: 6 },
    Instr::Add { left: 0, right: 7 },
    Instr::Add { left: 1, right: 2 },
];

#[test]
fn constants(rt: HostRuntime) {
    let alloc = rt.alloc();
    assert_eq!(rt;
        answer(&rt, alloc, BYTE_REFRESH, &CONSTANTS, &[8, 9]),
        Ok(false)
    );
    assert_eq!(rt;
        answer(
            &rt,
            alloc,
            BYTE_REFRESH,
            &[
                CONSTANTS[0],
                Instr::Add { left: 0, right: 2 },
                Instr::Add { left: 1, right: 2 }
            ],
            &[3, 4]
        ),
        Ok(true)
    );
}

// The refresh of Rivain and Prouff (CHES 2010) with three shares.
static THREE: [Instr; 6] = [
    Instr::Rnd,
    Instr::Add { left: 0, right: 3 },
    Instr::Add { left: 1, right: 3 },
    Instr::Rnd,
    Instr::Add { left: 4, right: 6 },
    Instr::Add { left: 2, right: 6 },
];

#[test]
fn refreshes(rt: HostRuntime) {
    let alloc = rt.alloc();
    let head = Head {
        order: 2,
        ..BIT_REFRESH
    };
    assert_eq!(rt; answer(&rt, alloc, head, &THREE, &[7, 5, 8]), Ok(true));
    assert_eq!(rt;
        answer(&rt, alloc, BIT_REFRESH, &[Instr::Rnd, Instr::Rnd], &[2, 3]),
        Ok(false)
    );
}

/// A value is decided however many sets of positions there are.
#[test]
fn random_elements_are_no_refresh(rt: HostRuntime) -> Result<(), Memory> {
    let alloc = rt.alloc();
    let head = Head {
        order: 5,
        ..BIT_REFRESH
    };
    let instrs = randoms(alloc, 50)?;
    assert_eq!(rt;
        answer(&rt, alloc, head, instrs.as_slice(), &[6, 7, 8, 9, 10, 11]),
        Ok(false)
    );
    Ok(())
}

/// So many random elements.
fn randoms(alloc: Global, count: usize) -> Result<Vec<Instr>, Memory> {
    let mut instrs = Vec::new(alloc);
    for _ in 0..count {
        instrs.push(Instr::Rnd)?;
    }
    Ok(instrs)
}

/// Appends the sums of the place `first` and of so many places behind it, where the first sum has the place `sum`.
fn push_sums(instrs: &mut Vec<Instr>, first: u32, more: u32, sum: u32) -> Result<(), Memory>
    requires first { first ≤ 1000 }
    requires more { more ≤ 1000 }
    requires sum { sum ≤ 1000 }
{
    for k in 0..more {
        let left = if k == 0 { first } else { sum + k - 1 };
        instrs.push(Instr::Add {
            left,
            right: first + 1 + k,
        })?;
    }
    Ok(())
}

/// What is answered for a product of the sums of 32 random elements and of `more + 1` others, behind two shares.
fn product_of_sums(rt: &impl Abort, alloc: Global, more: u32) -> Result<bool, PadRefusal>
    requires { more ≤ 32 }
{
    let mut instrs = randoms(alloc, 65)?;
    push_sums(&mut instrs, 2, 31, 67)?;
    push_sums(&mut instrs, 34, more, 98)?;
    instrs
        .push(Instr::Mul {
            left: 97,
            right: 97 + more,
        })
        .map_err(|_| Memory)?;
    answer(rt, alloc, BIT_REFRESH, instrs.as_slice(), &[2, 3])
}

#[test]
fn a_position_may_count_so_many_terms(rt: HostRuntime) {
    let alloc = rt.alloc();
    assert_eq!(rt; product_of_sums(&rt, alloc, 31), Ok(false));
    assert_eq!(rt;
        product_of_sums(&rt, alloc, 32),
        Err(PadRefusal::TooManyTerms { terms: 1056 })
    );
}

#[test]
fn a_gadget_has_so_many_instructions(rt: HostRuntime) -> Result<(), Memory> {
    let alloc = rt.alloc();
    let most = randoms(alloc, 512)?;
    assert_eq!(rt;
        answer(&rt, alloc, BIT_REFRESH, most.as_slice(), &[2, 3]),
        Ok(false)
    );
    let more = randoms(alloc, 513)?;
    assert!(rt; !is_gadget(BIT_REFRESH, more.as_slice(), &[2, 3]));
    Ok(())
}

/// Two random elements behind two shares are a gadget with these outs.
fn has_outs(outs: &[u32]) -> bool {
    is_gadget(BIT_REFRESH, &[Instr::Rnd, Instr::Rnd], outs)
}

#[test]
fn outs_are_different_instructions(rt: HostRuntime) {
    assert!(rt; has_outs(&[3, 2]));
    assert!(rt; !has_outs(&[2, 2]));
    assert!(rt; !has_outs(&[2, 4]));
    assert!(rt; !has_outs(&[1, 2]));
    assert!(rt; !has_outs(&[2]));
}

/// Ten random elements are a refresh of this order.
fn has_order(order: u8, outs: &[u32]) -> bool {
    is_gadget(
        Head {
            order,
            ..BIT_REFRESH
        },
        &[Instr::Rnd; 10],
        outs,
    )
}

#[test]
fn orders(rt: HostRuntime) {
    assert!(rt; has_order(8, &[9, 10, 11, 12, 13, 14, 15, 16, 17]));
    assert!(rt; !has_order(9, &[10, 11, 12, 13, 14, 15, 16, 17, 18, 19]));
    assert!(rt; !has_order(0, &[1]));
}

#[test]
fn instructions_fit_behind_places(rt: HostRuntime) {
    assert!(rt; fits(FieldId::Gf2, 2, Instr::Const { value: 1 }));
    assert!(rt; !fits(FieldId::Gf2, 2, Instr::Const { value: 2 }));
    assert!(rt; !fits(FieldId::Gf2, 2, Instr::Copy { from: 2 }));
    assert!(rt; !fits(FieldId::Gf2, 2, Instr::Add { left: 0, right: 2 }));
    assert!(rt; !fits(FieldId::Gf2, 2, Instr::Map { map: 0, from: 0 }));
}
