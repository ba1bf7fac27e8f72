ghost use Rattle.std.specs.Prelude.{ℕ};
ghost use Rattle.mk_ast.specs.declared.tree.Program.{Program};
ghost use Rattle.mk_ast.specs.Regular.{IsRegular};
ghost use Rattle.mk_code.specs.Listing.{Listing};
ghost use Rattle.mk_rules.specs.Claimed.{Claimed};
ghost use Rattle.mk_types.specs.Offences.{IsWellTyped};
ghost use Rattle.mk_unroll.specs.Causes.{Ends};
ghost use Rattle.mk_compile.specs.Correct.{Correct};
ghost use Rattle.mk_compile.specs.MadeFor.{IsMadeFor};
ghost use Rattle.mk_compile.specs.RightValues.{RightValues};

/// The law of right values: a code that is made of the blocks of a certificate computes on shares what
/// the blocks stand for, over all shares and all tapes. It does nothing.
pub fn values_law()
    ensures { (code : Listing) (cert : Claimed) → RightValues code cert }
{}

/// The law of correct code: one that is made of a certificate that stands for what a program is unrolled
/// to computes on shares what the program computes on elements. It does nothing.
pub fn correct_law()
    ensures { (p : Program) (order : ℕ) (code : Listing) (cert : Claimed) → IsRegular p → IsWellTyped p → Ends p → IsMadeFor p order code cert → Correct p order code }
{}
