ghost use Rattle.mk_field.specs.declared.field.FieldId.{FieldId};
ghost use Rattle.std.specs.Prelude.{ℕ, List, Option};
ghost use Rattle.mk_field.specs.declared.map.AddMap.{AddMap};
ghost use Rattle.mk_code.specs.Listing.{Listing};
ghost use Rattle.mk_code.specs.Private.{Private};
ghost use Rattle.mk_code.specs.CountingLaws.{CountingLaws};
ghost use Rattle.mk_code.specs.Shares.{EncodingLaw, EncodingsLaw};
ghost use Rattle.mk_code.specs.RunLaws.{RunLaws};
ghost use Rattle.mk_code.specs.Columns.{AreColumns, HasColumns, DependOnColumns};

/// The laws of totals over all lists of elements. It does nothing.
pub fn counting_laws()
    ensures { CountingLaws }
{}

/// The law of encodings: with at least one share hidden, the others are the same whatever the secret
/// is; `one` for some shares of one secret, `several` for what looks past a share of each secret. It
/// does nothing.
pub fn encodings_law()
    ensures one { (field : FieldId) → EncodingLaw field }
    ensures several { (field : FieldId) → EncodingsLaw field }
{}

/// The law of columns: code that works share by share is private, and each entry of its trace depends
/// on the publics and on the shares of the entry's column alone. It does nothing.
pub fn columns_law()
    ensures private { (code : Listing) → HasColumns code → Private code }
    ensures depends { (code : Listing) (column : ℕ → Option ℕ) → AreColumns code column → DependOnColumns code column }
{}

/// The laws of runs: how a run is made of runs of parts. It does nothing.
pub fn run_laws()
    ensures { (field : FieldId) (maps : List AddMap) → RunLaws field maps }
{}
