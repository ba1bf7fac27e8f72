ghost use Rattle.std.specs.Prelude.{ℕ, ◌≤◌};
ghost use Rattle.mk_ast.specs.declared.tree.Program.{Program};
ghost use Rattle.mk_gen.specs.Generated.{IsGenerated};

/// The law of generated texts: with at most 3,276 turns each spells a program that is well typed and whose
/// execution comes to its end. It does nothing.
pub fn generated_law()
    ensures { (n : ℕ) → n ≤ 3276 → (p : Program) × IsGenerated n p }
{}
