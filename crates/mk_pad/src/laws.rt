ghost use Rattle.std.specs.Prelude.{◌≡◌, ◌+◌, ℕ, List};
ghost use Rattle.mk_field.specs.declared.field.FieldId.{FieldId};
ghost use Rattle.mk_field.specs.declared.map.AddMap.{AddMap};
ghost use Rattle.mk_gadget.specs.Steady.{IsStrong};
ghost use Rattle.mk_pad.specs.Form.{GadgetForm, IsGadget, operands};
ghost use Rattle.mk_pad.specs.Laws.{PolynomialLaws, PositionsLaw};
ghost use Rattle.mk_pad.specs.Shown.{AreAllShown, IsRest, standing};

/// The laws of polynomials with reduced exponents, over both fields: what the values of sums, products and squares
/// are, and that an equation of polynomials holds exactly where it holds at all elements. It does nothing.
pub fn polynomial_laws()
    ensures { (field : FieldId) (n : ℕ) → PolynomialLaws field n }
{}

/// The law of a gadget's positions: the value of a position's polynomial at any shares and random elements is the entry of
/// the gadget's run. It does nothing.
pub fn positions_law()
    ensures { (g : GadgetForm) → IsGadget g → PositionsLaw g }
{}

/// The law of rests: whatever the order in which positions of a set are taken out, the same are left. It does nothing.
pub fn rest_law()
    ensures { (g : GadgetForm) (set first second : List ℕ) → IsRest g set first → IsRest g set second → first ≡ second }
{}

/// The law of shown sets: a gadget all of whose sets are shown is strong, with any maps beside it. It does nothing.
pub fn strength_law()
    ensures { (g : GadgetForm) → IsGadget g → AreAllShown g → (maps : List AddMap) → IsStrong g.field maps (g.order + 1) (operands g.kind) 0 (standing g) }
{}
