//! How many sets of positions there are.

ghost use Rattle.std.specs.Prelude.{◌≡◌, ◌≤◌};
ghost use Rattle.mk_pad.specs.declared.TheConstants.{MOST_GADGET_INSTRS, MOST_PROBES};
ghost use Rattle.mk_pad.specs.Verified.{sets_up_to};

/// How many sets of 1 to `most` of so many things there are.
pub(crate) fn count_sets(things: u32, most: u32) -> u64
    requires things { things ≤ MOST_GADGET_INSTRS }
    requires most { most ≤ MOST_PROBES }
    ensures { result ≡ sets_up_to things most }
{
    let mut sets = 1;
    let mut total = 0;
    for size in 0..most {
        // Each set goes on with any of the others, and each set of one more comes from each of its things.
        sets = sets * u64::from(things.saturating_sub(size)) / u64::from(size + 1);
        total += sets;
    }
    total
}
