ghost use Rattle.std.specs.Prelude.{◌≡◌};
ghost use Rattle.mk_code.specs.Listing.{Listing};
ghost use Rattle.mk_code.specs.Private.{Private};
ghost use Rattle.mk_regs.specs.Form.{RegListing, IsRegListing};
ghost use Rattle.mk_regs.specs.Renaming.{IsRenamed};
ghost use Rattle.mk_regs.specs.Allocation.{IsAllocated};
ghost use Rattle.mk_regs.specs.Transitions.{IsPrivateAtWrites};
ghost use Rattle.mk_regs.specs.Laws.{RenamingLaws, WidthLaw};

/// The laws of renaming: register code and what it is renamed to have equal traces, show everything in equally
/// many ways, and are private together. It does nothing.
pub fn renaming_law()
    ensures { (r : RegListing) (code : Listing) → IsRegListing r → IsRenamed r code → RenamingLaws r code }
{}

/// The law of transitions: where code is private, the writes of register code that is renamed to it are private,
/// at most half as many as the order at once. It does nothing.
pub fn transitions_law()
    ensures { (r : RegListing) (code : Listing) → IsRegListing r → IsRenamed r code → Private code → IsPrivateAtWrites r }
{}

/// The law of width: register code that is renamed to code has at least as many registers as the code is wide. It
/// does nothing.
pub fn width_law()
    ensures { (code : Listing) → WidthLaw code }
{}

/// The law of allocation: one register code is allocated for code. It does nothing.
pub fn allocation_law()
    ensures { (code : Listing) (r s : RegListing) → IsAllocated code r → IsAllocated code s → r ≡ s }
{}
