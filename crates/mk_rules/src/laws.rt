ghost use Rattle.mk_code.specs.Listing.{Listing};
ghost use Rattle.mk_gadget.specs.Gadget.{Gadget};
ghost use Rattle.mk_rules.specs.Claimed.{Claimed};
ghost use Rattle.mk_rules.specs.Privacy.{AcceptedIsPrivate};

/// The law of the rule: a code that the rule accepts with some certificate is private, whatever gadgets
/// stand for products and refreshes, if those that the certificate uses are strong. It does nothing.
pub fn accepted_law()
    ensures { (code : Listing) (product refresh : Gadget) (cert : Claimed) → AcceptedIsPrivate code product refresh cert }
{}
