ghost use Rattle.std.specs.Prelude.{ℕ, List};
ghost use Rattle.mk_ast.specs.declared.tree.Program.{Program};
ghost use Rattle.mk_ast.specs.Spells.{Spells};
ghost use Rattle.mk_ast.specs.Regular.{IsRegular};

/// A program that a text spells is regular. It does nothing.
pub fn spelled_law()
    ensures { (p : Program) (text : List ℕ) → Spells p text → IsRegular p }
{}
