//! What a source begins with: its elements, its maps and what its variables hold first.

ghost use Rattle.std.specs.Prelude.{◌≡◌, ◌≤◌, ◌<◌, ◌+◌, ◌^◌, [], ◌++◌, true, length, option_to_list, OnOk, IfOk, IfErr};
ghost use Rattle.std.specs.List.{AllByRecursion};
ghost use Rattle.mk_unroll.specs.declared.TheConstants.{MOST_ELEMENTS};
ghost use Rattle.mk_ast.specs.declared.refusal.SourceRefusal.TheVariants as refusal_;
ghost use Rattle.mk_ast.specs.declared.refusal.Limit.TheVariants as limit_;
ghost use Rattle.mk_types.specs.Elements.{is_secret_class, is_public_class, elements_in, elements_among, map_in, maps_of};
ghost use Rattle.mk_unroll.specs.Beginning.{first_operand, first_operands, first_env, HasEight};

use crate::MOST_ELEMENTS;
use crate::elements::{elements_in, size_of};
use crate::variables::Variables;
use mk_ast::{Class, Decl, Limit, SourceRefusal, What};
use mk_base::{Items, Memory};
use mk_field::AddMap;
use mk_ssa::{MapList, Operand};
use std::alloc::Global;

/// Refuses more than 65,536 declared elements.
pub fn check_elements(decls: &[Decl]) -> Result<(), SourceRefusal>
    ensures few { OnOk result (elements_among (λ class. true) decls.now ≤ MOST_ELEMENTS) }
    ensures many { IfErr result (λ e. (e ≡ refusal_.Large limit_.Elements) × (MOST_ELEMENTS < elements_among (λ class. true) decls.now)) }
{
    let mut elements = 0;
    for decl in decls {
        elements += u64::from(elements_in(&decl.what));
        if elements > MOST_ELEMENTS {
            return Err(SourceRefusal::Large(Limit::Elements));
        }
    }
    Ok(())
}

/// How many secrets and public inputs are declared.
#[derive(Clone, Copy, Debug)]
pub struct Inputs {
    pub secrets: u32,
    pub publics: u32,
}

impl Inputs {
    /// With those of one more declaration.
    fn with(self, what: &What) -> Inputs
        requires secrets { self.secrets + elements_in (λ class. true) what.now ≤ MOST_ELEMENTS }
        requires publics { self.publics + elements_in (λ class. true) what.now ≤ MOST_ELEMENTS }
        ensures secrets { result.secrets ≡ self.secrets + elements_in is_secret_class what.now }
        ensures publics { result.publics ≡ self.publics + elements_in is_public_class what.now }
    {
        match what {
            What::Var {
                class: Class::Secret,
                size,
            } => Inputs {
                secrets: self.secrets + size_of(*size),
                publics: self.publics,
            },
            What::Var {
                class: Class::Public,
                size,
            } => Inputs {
                secrets: self.secrets,
                publics: self.publics + size_of(*size),
            },
            _ => self,
        }
    }
}

/// How many secrets and public inputs these declarations make.
pub fn inputs_of(decls: &[Decl]) -> Inputs
    requires { elements_among (λ class. true) decls.now ≤ MOST_ELEMENTS }
    ensures secrets { result.secrets ≡ elements_among is_secret_class decls.now }
    ensures publics { result.publics ≡ elements_among is_public_class decls.now }
{
    let mut inputs = Inputs {
        secrets: 0,
        publics: 0,
    };
    for decl in decls {
        inputs = inputs.with(&decl.what);
    }
    inputs
}

/// Element k of a variable, behind these inputs.
fn first_operand(class: Class, inputs: Inputs, k: u32) -> Operand
    requires secrets { inputs.secrets ≤ MOST_ELEMENTS }
    requires publics { inputs.publics ≤ MOST_ELEMENTS }
    requires index { k < MOST_ELEMENTS }
    ensures { result ≡ first_operand class inputs.secrets inputs.publics k }
{
    match class {
        Class::Secret => Operand::Secret(inputs.secrets + k),
        Class::Public => Operand::Public(inputs.publics + k),
        Class::Output | Class::LocalSecret => Operand::Block(1),
        Class::LocalPublic => Operand::Block(0),
    }
}

/// The elements of a declaration behind these inputs.
fn first_operands(alloc: Global, what: &What, inputs: Inputs) -> Result<Vec<Operand>, Memory>
    requires secrets { inputs.secrets ≤ MOST_ELEMENTS }
    requires publics { inputs.publics ≤ MOST_ELEMENTS }
    requires few { elements_in (λ class. true) what.now ≤ MOST_ELEMENTS }
    ensures { IfOk result (λ v. v.items ≡ first_operands what.now inputs.secrets inputs.publics) }
{
    let mut operands = Vec::new(alloc);
    let What::Var { class, size } = what else {
        return Ok(operands);
    };
    for k in 0..size_of(*size) {
        operands.push(first_operand(*class, inputs, k))?;
    }
    Ok(operands)
}

/// What the variables hold first.
pub(crate) fn first_variables(alloc: Global, decls: &[Decl]) -> Result<Variables, Memory>
    requires { elements_among (λ class. true) decls.now ≤ MOST_ELEMENTS }
    ensures { IfOk result (λ v. v ≡ first_env [] decls.now) }
{
    let mut variables = Variables::new(alloc);
    let mut inputs = Inputs {
        secrets: 0,
        publics: 0,
    };
    for decl in decls {
        variables.push(first_operands(alloc, &decl.what, inputs)?)?;
        inputs = inputs.with(&decl.what);
    }
    Ok(variables)
}

/// The map of these images.
fn map_of(images: &[u8]) -> AddMap
    requires { length images.now ≡ 8 }
    ensures { result ≡ record { images = images.now } }
{
    let mut array = [0; 8];
    array.copy_from_slice(images);
    AddMap { images: array }
}

/// Appends the map of a declaration, if it makes one.
fn push_map(maps: &mut MapList, what: &What) -> Result<(), Memory>
    requires { HasEight what.now }
    ensures { OnOk result (maps.new ≡ maps.old ++ option_to_list (map_in what.now)) }
{
    match what {
        What::Map { images } => maps.push(map_of(images.as_slice())),
        What::Var { .. } => Ok(()),
    }
}

/// The maps in order of declaration.
pub(crate) fn maps_in_order(alloc: Global, decls: &[Decl]) -> Result<MapList, Memory>
    requires { AllByRecursion (λ d. HasEight d.what) decls.now }
    ensures { IfOk result (λ maps. maps ≡ maps_of decls.now) }
{
    let mut maps = Items::new(alloc);
    for decl in decls {
        push_map(&mut maps, &decl.what)?;
    }
    Ok(maps)
}
