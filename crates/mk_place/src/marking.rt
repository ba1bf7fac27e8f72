//! Which uses need a refresh, from the last value to the first.

ghost use Rattle.std.specs.Prelude.{◌≡◌, ◌<◌, ◌+◌, ◌-◌, length, IfOk, OnOk};
ghost use Rattle.mk_ssa.specs.Values.{IsValues};
ghost use Rattle.mk_place.specs.Marking.{IsIndex, HasRows, IsNeed, IsAt, IsDue, AreMarkedToo};
ghost use Rattle.mk_place.specs.Marking.{AreMarks, inputs, final_need};

use crate::need::take;
use mk_base::{Items, Memory};
use mk_rules::{OperandPlace, product_numbers, uses_of};
use mk_ssa::Ssa;
use std::alloc::Global;

/// Which operands of a value go through a refresh.
#[derive(Clone, Copy, Debug, PartialEq, Eq)]
pub(crate) struct Fresh {
    pub first: bool,
    pub second: bool,
}

/// The uses of each value by its number, the last use first; how many products stand before each value; and
/// how many words a row has.
#[derive(Drop)]
struct Index {
    uses: Vec<Items<OperandPlace>>,
    numbers: Vec<u32>,
    words: usize,
}

/// What the pass goes by.
fn make_index(alloc: Global, s: &Ssa) -> Result<Index, Memory>
    ensures { IfOk result (λ index. IsIndex s.now index.uses.items index.numbers.items index.words) }
{
    let ops = s.values().as_slice();
    let uses = uses_of(alloc, s.secrets(), s.publics(), ops)?;
    let numbers = product_numbers(alloc, ops)?;
    let words = (numbers[ops.len()] as usize + 31) / 32;
    Ok(Index {
        uses,
        numbers,
        words,
    })
}

/// Marks a use.
fn mark(fresh: &mut [Fresh], place: OperandPlace)
    requires there { place.value < length fresh.old }
    requires two { place.operand < 2 }
    ensures count { length fresh.new ≡ length fresh.old }
    ensures marks { AreMarkedToo fresh.old (IsAt place) fresh.new }
{
    let at = place.value as usize;
    let before = fresh[at];
    fresh[at] = Fresh {
        first: before.first || place.operand == 0,
        second: before.second || place.operand == 1,
    };
}

/// The need of the value with this number, as a row; marks the uses of it that need a refresh. The rows are
/// those of the values behind it, the last one first.
fn gather(
    alloc: Global,
    s: &Ssa,
    index: &Index,
    rows: &[Items<u64>],
    number: usize,
    fresh: &mut [Fresh],
) -> Result<Items<u64>, Memory>
    requires fits { IsValues s.now }
    requires there { number < inputs s.now + length s.now.values }
    requires index { IsIndex s.now index.now.uses.items index.now.numbers.items index.now.words }
    requires rows { HasRows s.now rows.now index.now.words (number + 1 - inputs s.now) }
    requires fresh { length fresh.old ≡ length s.now.values }
    ensures count { IfOk result (λ row. length row ≡ index.now.words) }
    ensures need { IfOk result (λ row. IsNeed s.now.values (final_need s.now number) row) }
    ensures fresh { OnOk result (length fresh.new ≡ length fresh.old) }
    ensures marks { OnOk result (AreMarkedToo fresh.old (IsDue s.now number) fresh.new) }
{
    let mut row = vec![in alloc; 0; index.words]?;
    let uses = index.uses[number].as_slice();
    for at in 0..uses.len() {
        if take(
            row.as_mut_slice(),
            s,
            index.numbers.as_slice(),
            rows,
            uses[at],
        ) {
            mark(fresh, uses[at]);
        }
    }
    Ok(Items::from_vec(row))
}

/// Which operands of each value go through a refresh.
pub(crate) fn marks(alloc: Global, s: &Ssa) -> Result<Vec<Fresh>, Memory>
    ensures { IfOk result (λ fresh. AreMarks s.now fresh.items) }
{
    let len = s.values().len();
    let inputs = s.secrets() as usize + s.publics() as usize;
    let index = make_index(alloc, s)?;
    let none = Fresh {
        first: false,
        second: false,
    };
    let mut fresh = vec![in alloc; none; len]?;
    let mut rows = Vec::new(alloc);
    for done in 0..len {
        let number = inputs + (len - 1 - done);
        let row = gather(
            alloc,
            s,
            &index,
            rows.as_slice(),
            number,
            fresh.as_mut_slice(),
        )?;
        rows.push(row)?;
    }
    for number in 0..inputs {
        gather(
            alloc,
            s,
            &index,
            rows.as_slice(),
            number,
            fresh.as_mut_slice(),
        )?;
    }
    Ok(fresh)
}
