ghost use Rattle.std.specs.Prelude.{◌≡◌};
ghost use Rattle.mk_pad.specs.Form.{IsGadget};

use crate::kind::GadgetKind;
use mk_code::{InstrList, PositionList};
use mk_field::FieldId;
use std::marker::Model;

/// A user's gadget. Share j of operand k has the position `k * (order + 1) + j`, and the instructions have the
/// positions behind those of all shares.
#[derive(Debug, Drop)]
pub struct Gadget {
    kind: GadgetKind,
    field: FieldId,
    order: u8,
    instrs: InstrList,
    outs: PositionList,
}

impl Model for Gadget {
    ghost use Rattle.mk_pad.specs.Form.{GadgetForm, IsGadget};

    ghost Value = { GadgetForm };

    ghost view = { λ g. record { kind = g.kind; field = g.field; order = g.order; instrs = g.instrs; outs = g.outs } };

    ghost invariant = { λ g. IsGadget (record { kind = g.kind; field = g.field; order = g.order; instrs = g.instrs; outs = g.outs }) };
}

impl Gadget {
    /// The gadget with these parts, which have the form of one. It takes no memory.
    pub fn new(
        kind: GadgetKind,
        field: FieldId,
        order: u8,
        instrs: InstrList,
        outs: PositionList,
    ) -> Gadget
        requires { IsGadget (record { kind = kind; field = field; order = order; instrs = instrs; outs = outs }) }
        ensures { result ≡ record { kind = kind; field = field; order = order; instrs = instrs; outs = outs } }
    {
        Gadget {
            kind,
            field,
            order,
            instrs,
            outs,
        }
    }

    /// What holds of every gadget. It does nothing.
    pub fn law(&self)
        ensures { IsGadget self.now }
    {
        let _kind = self.kind;
    }

    /// What it stands for.
    pub fn kind(&self) -> GadgetKind
        ensures { result ≡ self.now.kind }
    {
        self.kind
    }

    /// The field that it computes in.
    pub fn field(&self) -> FieldId
        ensures { result ≡ self.now.field }
    {
        self.field
    }

    /// The masking order: its operands have one share more each.
    pub fn order(&self) -> u8
        ensures { result ≡ self.now.order }
    {
        self.order
    }

    /// The instructions, in order.
    pub fn instrs(&self) -> &InstrList
        ensures { result.now ≡ self.now.instrs }
    {
        &self.instrs
    }

    /// The positions of its outs.
    pub fn outs(&self) -> &PositionList
        ensures { result.now ≡ self.now.outs }
    {
        &self.outs
    }
}
