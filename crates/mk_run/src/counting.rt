//! Counting the tapes of a code's runs.

ghost use Rattle.std.specs.Prelude.{◌≡◌, ◌⊎◌, ◌+◌, ◌*◌, ◌≤◌, ◌<◌, ◌^◌, ℕ, List, Some, None, IfOk, IfErr, OnOk, length};
ghost use Rattle.mk_field.specs.Field.{size};
ghost use Rattle.mk_code.specs.Counting.{AllBelow, Elements};
ghost use Rattle.mk_code.specs.Listing.{trace_len};
ghost use Rattle.mk_code.specs.Private.{observation, ways};
ghost use Rattle.mk_run.specs.Refusals.{tapes, count_refusal};
ghost use Rattle.mk_run.specs.Table.{IsTable};
ghost use Rattle.mk_run.specs.Tally.{more, number, tally_of, KeepsShown};
ghost use Rattle.mk_run.specs.Tapes.{numbered};
ghost use Rattle.mk_run.specs.declared.limits.TheConstants.{MOST_TAPES};
ghost use Rattle.mk_run.specs.declared.refusal.CountRefusal.TheVariants as refusal_;

use crate::inputs::{check_worlds, tape_len_of};
use crate::limits::{check_probes, check_tapes};
use crate::refusal::CountRefusal;
use crate::runner::Runner;
use crate::table::{Row, Table};
use crate::tally::{Tallies, World, add};
use mk_base::{Items, Memory};
use mk_code::Code;
use mk_field::FieldId;
use std::alloc::Global;

/// Writes the tape of this number.
fn write_tape(field: FieldId, number: u32, tape: &mut [u8])
    ensures { tape.new ≡ numbered (size field) (length tape.old) number }
{
    let size = u32::from(field.size());
    let mut left = number;
    for slot in tape {
        *slot = (left % size) as u8;
        left /= size;
    }
}

/// Writes what an observer of these positions of a trace sees.
fn observe(trace: &[u8], probes: &[u32], seen: &mut [u8])
    requires probes { AllBelow (length trace.now) probes.now }
    requires count { length seen.old ≡ length probes.now }
    ensures { seen.new ≡ observation probes.now trace.now }
{
    for i in 0..probes.len() {
        seen[i] = trace[probes[i] as usize];
    }
}

/// Counts in one of the worlds what the tapes show of runs with its secrets.
fn count_world(
    alloc: Global,
    runner: &mut Runner<'_>,
    secrets: &[u8],
    probes: &[u32],
    count: u32,
    world: World,
    tallies: &mut Tallies,
) -> Result<(), Memory>
    requires secrets { Elements (size runner.old.code.field) runner.old.code.secrets secrets.now }
    requires probes { AllBelow (trace_len runner.old.code) probes.now }
    requires count { count ≡ tapes runner.old.code }
    requires few { count ≤ MOST_TAPES }
    requires fresh { (tuple : List ℕ) → number world (tally_of tallies.old tuple) ≡ 0 }
    requires shown { KeepsShown tallies.old }
    ensures counted { OnOk result ((tuple : List ℕ) → tally_of tallies.new tuple ≡ more world (ways runner.old.code runner.old.publics secrets.now probes.now tuple) (tally_of tallies.old tuple)) }
    ensures shown { OnOk result (KeepsShown tallies.new) }
    ensures code { runner.new.code ≡ runner.old.code }
    ensures publics { runner.new.publics ≡ runner.old.publics }
{
    let field = runner.code().field();
    let mut tape = vec![in alloc; 0; tape_len_of(runner.code()) as usize]?;
    let mut seen = vec![in alloc; 0; probes.len()]?;
    for number in 0..count {
        write_tape(field, number, &mut tape);
        runner.run(secrets, &tape);
        observe(runner.trace(), probes, &mut seen);
        add(alloc, tallies, &seen, world)?;
    }
    Ok(())
}

/// The rows of the tallies, in order.
fn rows_of(alloc: Global, tallies: Tallies) -> Result<Table, Memory>
    requires shown { KeepsShown tallies }
    ensures { IfOk result (λ rows. IsTable (λ tuple. (tally_of tallies tuple).first) (λ tuple. (tally_of tallies tuple).second) rows) }
{
    let mut rows = Items::new(alloc);
    for (key, tally) in tallies {
        rows.push(Row {
            seen: Items::try_from_vec(key)?,
            first: tally.first,
            second: tally.second,
        })?;
    }
    Ok(rows)
}

/// The table of two worlds, on inputs that fit, where there are few tapes.
fn tabulated(
    alloc: Global,
    code: &Code,
    publics: &[u8],
    first: &[u8],
    second: &[u8],
    probes: &[u32],
    count: u32,
) -> Result<Table, Memory>
    requires publics { Elements (size code.now.field) code.now.publics publics.now }
    requires first { Elements (size code.now.field) code.now.secrets first.now }
    requires second { Elements (size code.now.field) code.now.secrets second.now }
    requires probes { AllBelow (trace_len code.now) probes.now }
    requires count { count ≡ tapes code.now }
    requires few { count ≤ MOST_TAPES }
    ensures { IfOk result (λ table. IsTable (ways code.now publics.now first.now probes.now) (ways code.now publics.now second.now probes.now) table) }
{
    let mut runner = Runner::new(alloc, code, publics)?;
    let mut tallies = Tallies::new(alloc);
    count_world(
        alloc,
        &mut runner,
        first,
        probes,
        count,
        World::First,
        &mut tallies,
    )?;
    count_world(
        alloc,
        &mut runner,
        second,
        probes,
        count,
        World::Second,
        &mut tallies,
    )?;
    rows_of(alloc, tallies)
}

/// How many tapes show what, in two worlds with the same public inputs: for every tuple of values at the
/// probed positions of the trace that comes in one of the worlds, in ascending order of the tuples, the number
/// of tapes that give it in the first world and in the second. The first elements of a tape encode the
/// secrets, as many as the order for each, and the rest are the random elements of the run. Refused are, in
/// this order: a number of public inputs, of the first world's secrets, then of the second's, that is not
/// the code's; one of these, in the same order, that is no element of the field; more probes than the order,
/// told as the probe of that number, or else a probe that is no position of the trace; and more than 1,048,576
/// tapes, or tapes whose traces have more than 4,294,967,296 entries together. `Memory` may stand in the
/// place of any answer.
pub fn count(
    alloc: Global,
    code: &Code,
    publics: &[u8],
    first: &[u8],
    second: &[u8],
    probes: &[u32],
) -> Result<Table, CountRefusal>
    requires publics { length publics.now < 2 ^ 32 }
    requires first { length first.now < 2 ^ 32 }
    requires second { length second.now < 2 ^ 32 }
    requires probes { length probes.now < 2 ^ 32 }
    ensures table { IfOk result (λ table. IsTable (ways code.now publics.now first.now probes.now) (ways code.now publics.now second.now probes.now) table) }
    ensures taken { IfOk result (λ _. count_refusal code.now publics.now first.now second.now probes.now ≡ None) }
    ensures refused { IfErr result (λ e. (e ≡ refusal_.Memory) ⊎ (count_refusal code.now publics.now first.now second.now probes.now ≡ Some e)) }
{
    check_worlds(code, publics, first, second)?;
    check_probes(code, probes)?;
    let tapes = check_tapes(code)?;
    Ok(tabulated(alloc, code, publics, first, second, probes, tapes)?)
}
