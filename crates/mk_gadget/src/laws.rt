ghost use Rattle.std.specs.Prelude.{◌≡◌, ◌≢◌, ℕ, List, length};
ghost use Rattle.mk_field.specs.declared.field.FieldId.{FieldId};
ghost use Rattle.mk_field.specs.declared.map.AddMap.{AddMap};
ghost use Rattle.mk_ssa.specs.declared.Op.{Op};
ghost use Rattle.mk_ssa.specs.Kinds.{Strong, kind, shared_operands, public_operands};
ghost use Rattle.mk_gadget.specs.Gadget.{Gadget};
ghost use Rattle.mk_gadget.specs.Product.{product_gadget};
ghost use Rattle.mk_gadget.specs.Refresh.{refresh_gadget};
ghost use Rattle.mk_gadget.specs.Template.{template, built_in};
ghost use Rattle.mk_gadget.specs.Steady.{IsSteady, IsStrong};
ghost use Rattle.mk_gadget.specs.PlacedLaw.{PlacedLaw};
ghost use Rattle.mk_gadget.specs.CostLaw.{CostLaw};

/// The law of placed gadgets: wherever a gadget stands in a code, it computes what it computes alone on
/// the values of its operands. It does nothing.
pub fn placed_law()
    ensures { (field : FieldId) (maps : List AddMap) → PlacedLaw field maps }
{}

/// The templates of all operators but products and refreshes are steady, with any number of shares and any
/// maps. It does nothing.
pub fn steady_law()
    ensures { (field : FieldId) (maps : List AddMap) (n : ℕ) (product refresh : Gadget) (op : Op) → kind op ≢ Strong → IsSteady field maps n (length (shared_operands op)) (length (public_operands op)) (template n product refresh op) }
{}

/// The refresh and the product are strong, with any number of shares, over both fields and with any maps;
/// `operators` says it of the templates of all strong operators. It does nothing.
pub fn strong_law()
    ensures refresh { (field : FieldId) (maps : List AddMap) (n : ℕ) → IsStrong field maps n 1 0 (refresh_gadget n) }
    ensures product { (field : FieldId) (maps : List AddMap) (n : ℕ) → IsStrong field maps n 2 0 (product_gadget n) }
    ensures operators { (field : FieldId) (maps : List AddMap) (n : ℕ) (op : Op) → kind op ≡ Strong → IsStrong field maps n (length (shared_operands op)) (length (public_operands op)) (built_in n op) }
{}

/// What the product and the refresh cost, with any number of shares. It does nothing.
pub fn cost_law()
    ensures { (n : ℕ) → CostLaw n }
{}
