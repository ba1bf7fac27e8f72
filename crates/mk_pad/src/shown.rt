//! Whether a set of positions is shown.

ghost use Rattle.std.specs.Prelude.{◌≡◌, ◌<◌, ◌≤◌, ◌↔◌, ℕ, true, IsTrue, MatchOption, length};
ghost use Rattle.std.specs.List.{AllByRecursion, list_any};
ghost use Rattle.mk_pad.specs.declared.TheConstants.{MOST_PROBES};
ghost use Rattle.mk_pad.specs.Form.{operands, position_count};
ghost use Rattle.mk_pad.specs.Positions.{variable_count};
ghost use Rattle.mk_pad.specs.Shown.{occurs, polynomial_of, is_in, without, MayTake, IsRest, occurs_in, shares_in, inner, IsShown};
ghost use Rattle.mk_pad.specs.Looking.{Notes};

use crate::MOST_PROBES;
use crate::gadget::Gadget;
use crate::occurrences::Occurrences;
use arrayvec::ArrayVec;

/// Positions of a gadget, no more than the top order has.
pub(crate) type Set = ArrayVec<u32, MOST_PROBES>;

/// Whether a variable occurs at a position.
fn occurs_at(rows: &[Occurrences], gadget: &Gadget, position: u32, variable: u32) -> bool
    requires rows { Notes gadget.now rows.now }
    requires position { position < position_count gadget.now }
    requires variable { variable < variable_count gadget.now }
    ensures { result ≡ occurs variable (polynomial_of gadget.now position) }
{
    rows[position as usize].occurring.as_slice()[variable as usize]
}

/// Whether a variable occurs at one of these positions other than this one.
fn occurs_elsewhere(
    rows: &[Occurrences],
    gadget: &Gadget,
    left: &[u32],
    position: u32,
    variable: u32,
) -> bool
    requires rows { Notes gadget.now rows.now }
    requires left { AllByRecursion (λ p. p < position_count gadget.now) left.now }
    requires variable { variable < variable_count gadget.now }
    ensures { result ≡ list_any (λ q. occurs variable (polynomial_of gadget.now q)) (without position left.now) }
{
    for other in left {
        if *other != position && occurs_at(rows, gadget, *other, variable) {
            return true;
        }
    }
    false
}

/// Whether a variable occurs at one of these positions.
fn occurs_among(rows: &[Occurrences], gadget: &Gadget, left: &[u32], variable: u32) -> bool
    requires rows { Notes gadget.now rows.now }
    requires left { AllByRecursion (λ p. p < position_count gadget.now) left.now }
    requires variable { variable < variable_count gadget.now }
    ensures { result ≡ list_any (λ q. occurs variable (polynomial_of gadget.now q)) left.now }
{
    for position in left {
        if occurs_at(rows, gadget, *position, variable) {
            return true;
        }
    }
    false
}

/// Whether a position may be taken out of those that are left.
fn may_take(rows: &[Occurrences], gadget: &Gadget, left: &[u32], position: u32) -> bool
    requires rows { Notes gadget.now rows.now }
    requires left { AllByRecursion (λ p. p < position_count gadget.now) left.now }
    requires position { position < position_count gadget.now }
    ensures { IsTrue result ↔ MayTake gadget.now left.now position }
{
    let added = rows[position as usize].added.as_slice();
    for random in added {
        if !occurs_elsewhere(rows, gadget, left, position, *random) {
            return true;
        }
    }
    false
}

/// The first of the positions that are left that may be taken out.
fn position_to_take(rows: &[Occurrences], gadget: &Gadget, left: &[u32]) -> Option<u32>
    requires rows { Notes gadget.now rows.now }
    requires left { AllByRecursion (λ p. p < position_count gadget.now) left.now }
    ensures { MatchOption result ((p : ℕ) → is_in left.now p ≡ true → MayTake gadget.now left.now p → ⊥) (λ p. (is_in left.now p ≡ true) × MayTake gadget.now left.now p) }
{
    for position in left {
        if may_take(rows, gadget, left, *position) {
            return Some(*position);
        }
    }
    None
}

/// The others of these positions, which are no more than a set may have.
fn without(left: &[u32], position: u32) -> Set
    requires { length left.now ≤ MOST_PROBES }
    ensures { result.items ≡ without position left.now }
{
    let mut others = ArrayVec::new();
    for other in left {
        if *other != position {
            others.push(*other);
        }
    }
    others
}

/// The rest of a set: what is left when positions were taken out until no more may be.
fn rest_of(rows: &[Occurrences], gadget: &Gadget, set: &[u32]) -> Set
    requires rows { Notes gadget.now rows.now }
    requires set { AllByRecursion (λ p. p < position_count gadget.now) set.now }
    requires few { length set.now ≤ MOST_PROBES }
    ensures rest { IsRest gadget.now set.now result.items }
    ensures within { AllByRecursion (λ p. p < position_count gadget.now) result.items }
{
    let mut left = copy_of(set);
    while let Some(position) = position_to_take(rows, gadget, left.as_slice()) {
        left = without(left.as_slice(), position);
    }
    left
}

/// These positions, which are no more than a set may have.
pub(crate) fn copy_of(set: &[u32]) -> Set
    requires { length set.now ≤ MOST_PROBES }
    ensures { result.items ≡ set.now }
{
    let mut copied = ArrayVec::new();
    for position in set {
        copied.push(*position);
    }
    copied
}

/// How many shares of an operand occur at these positions.
fn count_shares_in(rows: &[Occurrences], gadget: &Gadget, rest: &[u32], operand: u32) -> u32
    requires rows { Notes gadget.now rows.now }
    requires rest { AllByRecursion (λ p. p < position_count gadget.now) rest.now }
    requires operand { operand < operands gadget.now.kind }
    ensures { result ≡ shares_in gadget.now rest.now operand }
{
    let shares = u32::from(gadget.order()) + 1;
    let mut count = 0;
    for index in 0..shares {
        if occurs_among(rows, gadget, rest, shares * operand + index) {
            count += 1;
        }
    }
    count
}

/// How many of these positions are no outs.
fn count_inner(gadget: &Gadget, set: &[u32]) -> u32
    requires { length set.now ≤ MOST_PROBES }
    ensures { result ≡ inner gadget.now set.now }
{
    let mut count = 0;
    for position in set {
        if !gadget.outs().as_slice().contains(position) {
            count += 1;
        }
    }
    count
}

/// Whether a set is shown.
pub(crate) fn is_shown(rows: &[Occurrences], gadget: &Gadget, set: &[u32]) -> bool
    requires rows { Notes gadget.now rows.now }
    requires set { AllByRecursion (λ p. p < position_count gadget.now) set.now }
    requires few { length set.now ≤ MOST_PROBES }
    ensures { IsTrue result ↔ IsShown gadget.now set.now }
{
    let rest = rest_of(rows, gadget, set);
    let most = count_inner(gadget, set);
    for operand in 0..gadget.kind().operands() {
        if count_shares_in(rows, gadget, rest.as_slice(), operand) > most {
            return false;
        }
    }
    true
}
