ghost use Rattle.mk_field.specs.declared.field.FieldId.{FieldId};
ghost use Rattle.mk_field.specs.declared.map.AddMap.{AddMap};
ghost use Rattle.mk_field.specs.Laws.{SumLaws, ProductLaws, MapLaws};

/// The laws of the sum, in both fields. It does nothing.
pub fn sum_laws()
    ensures { (field : FieldId) → SumLaws field }
{}

/// The laws of the product and the square, in both fields. It does nothing.
pub fn product_laws()
    ensures { (field : FieldId) → ProductLaws field }
{}

/// The laws of additive maps. It does nothing.
pub fn map_laws()
    ensures { (m : AddMap) → MapLaws m }
{}
