ghost use Rattle.mk_lib.specs.Texts.{TextsDiffer};

/// The law of texts: different gadgets have different texts, and none is a proper front of another. It
/// does nothing.
pub fn texts_differ()
    ensures { TextsDiffer }
{}
