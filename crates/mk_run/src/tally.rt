//! Tallies: how many tapes show each tuple in two worlds.

ghost use Rattle.std.specs.Prelude.{◌≡◌, ◌+◌, ◌<◌, ◌^◌, ℕ, List, OnOk};
ghost use Rattle.mk_code.specs.Counting.{one_if_equal};
ghost use Rattle.mk_run.specs.Tally.{none, more, number, tally_of, KeepsShown};

use mk_base::Memory;
use std::alloc::Global;
use std::collections::BTreeMap;

/// One of two worlds, in which the secrets differ.
#[derive(Clone, Copy, Debug, PartialEq, Eq)]
pub(crate) enum World {
    First,
    Second,
}

/// How many tapes show a tuple in each of two worlds.
#[derive(Clone, Copy, Debug, PartialEq, Eq)]
pub(crate) struct Tally {
    pub first: u64,
    pub second: u64,
}

/// The tallies of the tuples that some tape shows.
pub(crate) type Tallies = BTreeMap<Vec<u8>, Tally>;

impl Tally {
    /// No tape in either world.
    fn none() -> Tally
        ensures { result ≡ none }
    {
        Tally {
            first: 0,
            second: 0,
        }
    }

    /// One more tape in a world.
    fn one_more(self, world: World) -> Tally
        requires { number world self + 1 < 2 ^ 64 }
        ensures { result ≡ more world 1 self }
    {
        match world {
            World::First => Tally {
                first: self.first + 1,
                second: self.second,
            },
            World::Second => Tally {
                first: self.first,
                second: self.second + 1,
            },
        }
    }
}

/// Counts one more tape that shows this tuple in a world.
pub(crate) fn add(
    alloc: Global,
    tallies: &mut Tallies,
    seen: &[u8],
    world: World,
) -> Result<(), Memory>
    requires fits { number world (tally_of tallies.old seen.now) + 1 < 2 ^ 64 }
    requires shown { KeepsShown tallies.old }
    ensures counted { OnOk result ((tuple : List ℕ) → tally_of tallies.new tuple ≡ more world (one_if_equal seen.now tuple) (tally_of tallies.old tuple)) }
    ensures shown { OnOk result (KeepsShown tallies.new) }
{
    if let Some(tally) = tallies.get_mut(seen) {
        *tally = tally.one_more(world);
        return Ok(());
    }
    let key = Vec::from_slice(alloc, seen)?;
    tallies.insert(key, Tally::none().one_more(world))?;
    Ok(())
}
