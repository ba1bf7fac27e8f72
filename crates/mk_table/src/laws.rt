ghost use Rattle.std.specs.Prelude.{ℕ, List};
ghost use Rattle.mk_table.specs.Coefficients.{IsInterpolated};

/// The law of interpolation: each table of 256 elements is the polynomial of its coefficients. It does
/// nothing.
pub fn interpolation_law()
    ensures { (table : List ℕ) → IsInterpolated table }
{}
