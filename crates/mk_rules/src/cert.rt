ghost use Rattle.std.specs.Prelude.{◌≡◌, [], ◌∷◌, ◌++◌, IfOk, OnOk, OnErr};

use mk_base::{Items, Memory};
use mk_code::Code;
use mk_ssa::{Op, OpList, Operand, OperandList};
use std::alloc::Global;
use std::marker::Model;

/// A certificate: blocks in order, and one claim for each output. It may be any two such lists.
#[derive(Debug, Drop)]
pub struct Cert {
    blocks: OpList,
    claims: OperandList,
}

impl Model for Cert {
    ghost use Rattle.mk_rules.specs.Claimed.{Claimed};

    ghost Value = { Claimed };

    ghost view = { λ c. record { blocks = c.blocks; claims = c.claims } };
}

impl Cert {
    /// The certificate with no block and no claim. It takes no memory.
    pub fn new(alloc: Global) -> Cert
        ensures { result ≡ record { blocks = []; claims = [] } }
    {
        Cert {
            blocks: Items::new(alloc),
            claims: Items::new(alloc),
        }
    }

    /// The blocks, in order.
    pub fn blocks(&self) -> &OpList
        ensures { result.now ≡ self.now.blocks }
    {
        &self.blocks
    }

    /// The claims, in the order of the outputs.
    pub fn claims(&self) -> &OperandList
        ensures { result.now ≡ self.now.claims }
    {
        &self.claims
    }

    /// Appends a block. After `Memory` the certificate is as before.
    pub fn push_block(&mut self, op: Op) -> Result<(), Memory>
        ensures ok { OnOk result (self.new ≡ record self.old { blocks = self.old.blocks ++ op ∷ [] }) }
        ensures memory { OnErr result (self.new ≡ self.old) }
    {
        self.blocks.push(op)
    }

    /// Appends a claim. After `Memory` the certificate is as before.
    pub fn push_claim(&mut self, value: Operand) -> Result<(), Memory>
        ensures ok { OnOk result (self.new ≡ record self.old { claims = self.old.claims ++ value ∷ [] }) }
        ensures memory { OnErr result (self.new ≡ self.old) }
    {
        self.claims.push(value)
    }

    /// An equal certificate.
    pub fn copy(&self, alloc: Global) -> Result<Cert, Memory>
        ensures { IfOk result (λ copied. copied ≡ self.now) }
    {
        Ok(Cert {
            blocks: self.blocks.copy(alloc)?,
            claims: self.claims.copy(alloc)?,
        })
    }
}

/// A code with its certificate.
#[derive(Debug, Drop)]
pub struct Bundle {
    pub code: Code,
    pub cert: Cert,
}
