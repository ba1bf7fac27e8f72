ghost use Rattle.std.specs.Prelude.{◌≡◌, ◌+◌, ℕ, List, [], true, length, slice_get, Some};
ghost use Rattle.std.specs.List.{sum_by};
ghost use Rattle.mk_code.specs.Listing.{Listing};
ghost use Rattle.mk_ssa.specs.declared.Op.{Op};
ghost use Rattle.mk_ssa.specs.Kinds.{is_public};
ghost use Rattle.mk_rules.specs.Shape.{Shape};
ghost use Rattle.mk_rules.specs.Claimed.{Claimed};
ghost use Rattle.mk_rules.specs.Wired.{Wired};
ghost use Rattle.mk_rules.specs.Accepts.{IsAccepted};
ghost use Rattle.mk_report.specs.declared.need.ProductPlace.{ProductPlace};
ghost use Rattle.mk_report.specs.Reached.{ArePlacesOf};
ghost use Rattle.mk_report.specs.Report.{IsReport, NamesKind, instrs_of};

/// The law of reports: a code and its certificate have one report at most; the kinds are the words of the
/// bundle text; and where the rule accepts, a public block reaches nothing, and the instructions of the
/// blocks are together those of the code. It does nothing.
pub fn report_law()
    ensures one { (code : Listing) (cert : Claimed) (text other : List ℕ) → IsReport code cert text
        → IsReport code cert other → text ≡ other }
    ensures kinds { (order k : ℕ) (op : Op) (places : List ProductPlace) → NamesKind order k op places }
    ensures public { (shape : Shape) (blocks : List Op) (k : ℕ) (op : Op) (places : List ProductPlace) → Wired shape blocks
        → slice_get blocks k ≡ Some op → is_public op ≡ true → ArePlacesOf shape blocks
        (shape.secrets + shape.publics + k) places → places ≡ [] }
    ensures total { (code : Listing) (cert : Claimed) → IsAccepted code cert
        → sum_by (instrs_of code.order) cert.blocks ≡ length code.instrs }
{}
