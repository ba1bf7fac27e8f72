ghost use Rattle.std.specs.Prelude.{◌≡◌, ℕ, List};
ghost use Rattle.mk_base.specs.declared.Place.{Place};
ghost use Rattle.mk_ast.specs.declared.tree.Program.{Program};
ghost use Rattle.mk_ast.specs.Spells.{Spells, IsRefusedAt};

/// A text spells at most one program. It does nothing.
pub fn spelling_law()
    ensures { (p q : Program) (text : List ℕ) → Spells p text → Spells q text → p ≡ q }
{}

/// A text is refused at one place at most. It does nothing.
pub fn refusal_law()
    ensures { (a b : Place) (text : List ℕ) → IsRefusedAt text a → IsRefusedAt text b → a ≡ b }
{}
