//! What a statement is executed in.

ghost use Rattle.std.specs.Prelude.{◌≡◌, OnOk, IfOk, IfErr};
ghost use Rattle.mk_types.specs.Units.{element_number, reference_units};
ghost use Rattle.mk_unroll.specs.Counted.{counted, Halts};

use crate::indexes::number_of;
use crate::meter::Meter;
use crate::names::array_size;
use crate::turns::Turns;
use crate::variables::Variables;
use mk_ast::{Ref, SourceRefusal};
use mk_types::Names;

/// The names of the program, the turns around and what the variables hold.
#[derive(Drop)]
pub(crate) struct Frame<'a> {
    pub(crate) names: Names<'a>,
    pub(crate) turns: Turns<'a>,
    pub(crate) variables: Variables,
}

/// Which element of its variable a reference is to.
#[tactic(auto, using(crate::proofs::Counting::reference_walk, crate::proofs::Counting::halts_on))]
pub(crate) fn element(
    frame: &Frame,
    meter: &mut Meter,
    reference: &Ref,
) -> Result<usize, SourceRefusal>
    ensures value { IfOk result (λ i. i ≡ element_number frame.now.turns reference.now) }
    ensures ok { OnOk result (meter.new ≡ counted meter.old (reference_units frame.now.names frame.now.turns reference.now)) }
    ensures halted { IfErr result (λ e. Halts e (counted meter.old (reference_units frame.now.names frame.now.turns reference.now))) }
{
    let Some(index) = &reference.index else {
        return Ok(0);
    };
    let number = number_of(&frame.turns, meter, reference.at, index)?;
    if number >= array_size(&frame.names, reference.name.as_slice()) {
        return Err(meter.fault(reference.at));
    }
    Ok(number as usize)
}
