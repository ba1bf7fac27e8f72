ghost use Rattle.std.specs.Prelude.{◌≡◌, ◌≤◌, ℕ, Err, length, IfOk};
ghost use Rattle.mk_bundle.specs.declared.TheConstants.{MOST_BYTES};
ghost use Rattle.mk_regs.specs.declared.refusal.RegRefusal.TheVariants as unnamed;
ghost use Rattle.mk_bundle.specs.declared.read.BundleRefusal.TheVariants.{Form, Unset, Register};
ghost use Rattle.mk_lines.specs.Lines.{NamesFirst};
ghost use Rattle.mk_bundle.specs.Pairs.{IsBundleOf, IsBundleText, IsRefusedText, TextsDiffer, RegisterTextsDiffer, VersionsDiffer, TextsReadOnce};

use crate::MOST_BYTES;
use crate::collect::collect_bundle;
use crate::refusal::StreamRefusal;
use mk_base::SureSource;
use mk_rules::Bundle;
use std::alloc::Global;
use thiserror::Error;

/// Why a text is not read.
#[derive(Clone, Copy, Debug, PartialEq, Eq, Error)]
pub enum BundleRefusal {
    /// No bundle has this text, and none has a text that begins with the lines up to this one,
    /// counted from 1.
    #[error("line {line} doesn't go on with a bundle text")]
    Form { line: u32 },
    /// It is the text of register code, and the first instruction that can't be carried out is that of this number, from
    /// 0: it reads a register that holds nothing. An out counts as read by the instruction behind the last.
    #[error("instruction {instr} reads a register that holds nothing")]
    Unset { instr: u32 },
    /// The same, where the instruction names a register that isn't there.
    #[error("instruction {instr} names a register that isn't there")]
    Register { instr: u32 },
    /// Memory was wanted and not found.
    #[error("out of memory")]
    Memory,
}

/// The bundle whose text this is, of either version, which is the only one: its code is over positions. It takes memory
/// for the lists of the bundle, four bytes for each register of version 2, and a few kilobytes beside.
pub fn read_bundle(alloc: Global, text: &[u8]) -> Result<Bundle, BundleRefusal>
    requires { length text.now ≤ MOST_BYTES }
    // What is read has this text.
    ensures ok { IfOk result (λ b. IsBundleOf text.now b.code b.cert) }

    // What is refused for its form is the text of no bundle.
    ensures only { (line : ℕ) → result ≡ Err (Form line) → IsBundleText text.now → ⊥ }

    // The line is the first behind which no bundle text goes on.
    ensures form { (line : ℕ) → result ≡ Err (Form line) → NamesFirst IsBundleText line text.now }

    // What is refused for a register is the text of register code, which can't be renamed for just this reason.
    ensures unset { (instr : ℕ) → result ≡ Err (Unset instr) → IsRefusedText (unnamed.Unset instr) text.now }
    ensures register { (instr : ℕ) → result ≡ Err (Register instr) → IsRefusedText (unnamed.Register instr) text.now }
{
    let mut source = SureSource::new(text);
    match collect_bundle(alloc, &mut source, MOST_BYTES) {
        Ok(bundle) => Ok(bundle),
        Err(StreamRefusal::Form { line }) => Err(BundleRefusal::Form { line }),
        Err(StreamRefusal::Unset { instr }) => Err(BundleRefusal::Unset { instr }),
        Err(StreamRefusal::Register { instr }) => Err(BundleRefusal::Register { instr }),
        Err(_) => Err(BundleRefusal::Memory),
    }
}

/// The law of texts: different pairs have different texts, and none is a proper front of another. It
/// does nothing.
pub fn texts_differ()
    ensures { TextsDiffer }
{}

/// The same of texts over registers, and no text of one version is the front of one of the other, or equal to it. It
/// does nothing.
pub fn register_texts_differ()
    ensures registers { RegisterTextsDiffer }
    ensures versions { VersionsDiffer }
    // So a text is read in one way.
    ensures once { TextsReadOnce }
{}
