//! The numbers of indexes.

ghost use Rattle.std.specs.Prelude.{◌≡◌, ◌+◌, ◌∷◌, nat_lt, map, OnOk, IfOk, IfErr};
ghost use Rattle.mk_types.specs.declared.TheConstants.{GREATEST_INDEX};
ghost use Rattle.mk_types.specs.Units.{Step, fault_if, evaluated, linked, sum_of_parts};
ghost use Rattle.mk_unroll.specs.Counted.{counted, Halts};
ghost use Rattle.mk_unroll.specs.Walked.{linked_parts};

use crate::meter::Meter;
use crate::turns::Turns;
use mk_ast::{Index, Link, SourceRefusal};
use mk_base::Place;

/// The number of an index of the array whose name is at this place.
#[cycle(index)]
#[tactic(auto, using(crate::proofs::Counting::index_walk, crate::proofs::Counting::halts_on))]
pub(crate) fn number_of(
    turns: &Turns,
    meter: &mut Meter,
    at: Place,
    index: &Index,
) -> Result<u32, SourceRefusal>
    ensures value { IfOk result (λ v. v ≡ (evaluated at turns.now index.now).value) }
    ensures ok { OnOk result (meter.new ≡ counted meter.old (evaluated at turns.now index.now).units) }
    ensures halted { IfErr result (λ e. Halts e (counted meter.old (evaluated at turns.now index.now).units)) }
{
    match index {
        Index::Num { value } => Ok(*value),
        Index::Var { name, .. } => Ok(turns.number(name.as_slice())),
        Index::Sum { parts } => sum_of(turns, meter, at, parts.as_slice()),
        Index::Chain { first, rest } => {
            let value = number_of(turns, meter, at, first.get())?;
            follow_links(turns, meter, at, value, rest.as_slice())
        }
    }
}

/// The sum of two numbers of an index.
fn plus(meter: &mut Meter, at: Place, left: u32, right: u32) -> Result<u32, SourceRefusal>
    ensures value { IfOk result (λ v. v ≡ left + right) }
    ensures ok { OnOk result (meter.new ≡ counted meter.old (Step ∷ fault_if (nat_lt GREATEST_INDEX (left + right)) at)) }
    ensures halted { IfErr result (λ e. Halts e (counted meter.old (Step ∷ fault_if (nat_lt GREATEST_INDEX (left + right)) at))) }
{
    meter.operator(at, u64::from(left) + u64::from(right))
}

/// The sum of these indexes.
#[cycle(index)]
#[tactic(auto, using(crate::proofs::Counting::index_walk, crate::proofs::Counting::halts_on))]
fn sum_of(
    turns: &Turns,
    meter: &mut Meter,
    at: Place,
    parts: &[Index],
) -> Result<u32, SourceRefusal>
    ensures value { IfOk result (λ v. v ≡ (sum_of_parts at (map (evaluated at turns.now) parts.now)).value) }
    ensures ok { OnOk result (meter.new ≡ counted meter.old (sum_of_parts at (map (evaluated at turns.now) parts.now)).units) }
    ensures halted { IfErr result (λ e. Halts e (counted meter.old (sum_of_parts at (map (evaluated at turns.now) parts.now)).units)) }
{
    let Some((first, rest)) = parts.split_first() else {
        return Ok(0);
    };
    let mut sum = number_of(turns, meter, at, first)?;
    for part in rest {
        let value = number_of(turns, meter, at, part)?;
        sum = plus(meter, at, sum, value)?;
    }
    Ok(sum)
}

/// A number behind these links, from the left.
#[cycle(index)]
#[tactic(auto, using(crate::proofs::Counting::index_walk, crate::proofs::Counting::halts_on))]
fn follow_links(
    turns: &Turns,
    meter: &mut Meter,
    at: Place,
    first: u32,
    links: &[Link],
) -> Result<u32, SourceRefusal>
    ensures value { IfOk result (λ v. v ≡ (linked_parts at turns.now first links.now).value) }
    ensures ok { OnOk result (meter.new ≡ counted meter.old (linked_parts at turns.now first links.now).units) }
    ensures halted { IfErr result (λ e. Halts e (counted meter.old (linked_parts at turns.now first links.now).units)) }
{
    let mut number = first;
    for link in links {
        number = follow_link(turns, meter, at, number, link)?;
    }
    Ok(number)
}

/// A number behind a link.
#[cycle(index)]
#[tactic(auto, using(crate::proofs::Counting::index_walk, crate::proofs::Counting::halts_on))]
fn follow_link(
    turns: &Turns,
    meter: &mut Meter,
    at: Place,
    number: u32,
    link: &Link,
) -> Result<u32, SourceRefusal>
    ensures value { IfOk result (λ v. v ≡ (linked at turns.now link.now number).value) }
    ensures ok { OnOk result (meter.new ≡ counted meter.old (linked at turns.now link.now number).units) }
    ensures halted { IfErr result (λ e. Halts e (counted meter.old (linked at turns.now link.now number).units)) }
{
    let number = u64::from(number);
    match link {
        Link::Times { by } => {
            let factor = number_of(turns, meter, at, by)?;
            meter.operator(at, number * u64::from(factor))
        }
        Link::Mod { by } => {
            let rest = number.checked_rem(u64::from(*by)).unwrap_or(number);
            meter.operator(at, rest)
        }
    }
}
