ghost use Rattle.std.specs.Prelude.{◌≡◌};
ghost use Rattle.mk_ssa.specs.Values.{Values, IsValues};
ghost use Rattle.mk_simplify.specs.Simplified.{IsSimplified};

/// Values are simplified in one way only. It does nothing.
pub fn simplified_law()
    ensures { (s r q : Values) → IsValues r → IsValues q → IsSimplified s r → IsSimplified s q → r ≡ q }
{}
