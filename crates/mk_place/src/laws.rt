ghost use Rattle.std.specs.Prelude.{◌≡◌, ℕ, Some, take, slice_get};
ghost use Rattle.mk_ssa.specs.declared.Operand.{Operand};
ghost use Rattle.mk_ssa.specs.declared.Op.TheVariants.{Refresh};
ghost use Rattle.mk_ssa.specs.Values.{Values, IsValues};
ghost use Rattle.mk_simplify.specs.Simplified.{AllDiffer};
ghost use Rattle.mk_rules.specs.Claimed.{Claimed};
ghost use Rattle.mk_rules.specs.Wired.{IsSharedThere};
ghost use Rattle.mk_place.specs.Uses.{shape_of_values};
ghost use Rattle.mk_place.specs.Layout.{Marks, laid_out};
ghost use Rattle.mk_place.specs.Placed.{Placed};
ghost use Rattle.mk_place.specs.Different.{AllDifferButRefreshes};
ghost use Rattle.mk_place.specs.TakenOut.{without_refreshes};
ghost use Rattle.mk_place.specs.Refreshes.{HasOperand, IsUsedOnce, StandsBefore};

/// The law of different blocks: where no two values are equal, no two blocks of their certificate are but
/// refreshes, whichever uses go through refreshes. It does nothing.
pub fn different_law()
    ensures { (marks : Marks) (s : Values) → AllDiffer s → AllDifferButRefreshes (laid_out marks s).blocks }
{}

/// The law of placement: a list of values has one placed certificate at most. Without its refreshes its blocks
/// are the values and its claims the outputs. Each refresh is of a secret or of a shared block before it, is
/// used once, and stands before the block that uses it. It does nothing.
pub fn placement_law()
    ensures one { (s : Values) (one other : Claimed) → IsValues s → Placed s one → Placed s other → one ≡ other }
    ensures taken_out { (s : Values) (cert : Claimed) → IsValues s → Placed s cert
        → without_refreshes cert ≡ record { blocks = s.values; claims = s.outs } }
    ensures used_once { (s : Values) (cert : Claimed) (r : ℕ) (v : Operand) → IsValues s → Placed s cert
        → slice_get cert.blocks r ≡ Some (Refresh v)
        → IsSharedThere (shape_of_values s) (take r cert.blocks) v × IsUsedOnce cert r }
    ensures stands { (s : Values) (cert : Claimed) (r b k : ℕ) (v : Operand) → IsValues s → Placed s cert
        → slice_get cert.blocks r ≡ Some (Refresh v) → HasOperand cert.blocks b k r
        → StandsBefore cert.blocks r b k }
{}
