ghost use Rattle.std.specs.Prelude.{◌≡◌};
ghost use Rattle.mk_top.specs.Faults.{status_of, fault_line};

use mk_ast::SourceRefusal;
use mk_base::Memory;
use mk_bundle::{MOST_BYTES, StreamRefusal};
use mk_check::CheckRefusal;
use mk_eval::EvalRefusal;
use mk_lib::LibRefusal;
use mk_pad::PadRefusal;
use mk_run::{CountRefusal, RunRefusal};
use mk_words::{CheckFault, FaultLine, InputFault, SourceFault, Status, counted, fixed, numbered};

/// Why a run ends without its text.
#[derive(Clone, Copy, Debug, PartialEq, Eq)]
pub enum Fault {
    /// The words are no command.
    Words,
    /// The source is refused.
    Source(SourceFault),
    /// The inputs are refused.
    Inputs(InputFault),
    /// The checker refuses.
    Check(CheckFault),
    /// No bundle text goes on behind this line, counted from 1.
    Bundle { line: u32 },
    /// The instruction of a bundle's register code of this number, from 0, reads a register that holds nothing. An out
    /// is told by the number of instructions.
    Unset { instr: u32 },
    /// The instruction of a bundle's register code of this number, from 0, names a register that isn't there. An out is
    /// told by the number of instructions.
    Register { instr: u32 },
    /// No gadget text goes on behind this line, counted from 1.
    Gadget { line: u32 },
    /// There are so many sets of positions to look at, which are too many.
    Sets { sets: u64 },
    /// The first position of a gadget that counts too many terms counts so many.
    Terms { terms: u64 },
    /// Reading failed.
    ReadFault,
    /// Writing failed.
    WriteFault,
    /// Memory was wanted and not found.
    Memory,
    /// There are too many tapes to count, of so many elements each.
    Tapes { elements: u32 },
    /// More bytes came than this limit.
    TooLong { limit: u32 },
}

impl From<Memory> for Fault {
    ghost use Rattle.std.specs.Prelude.{◌≡◌};
    ghost use Rattle.mk_top.specs.declared.fault.Fault.TheVariants.{Memory};

    ghost from_gives = { λ _ fault. fault ≡ Memory };

    fn from(_memory: Memory) -> Fault {
        Fault::Memory
    }
}

impl From<StreamRefusal> for Fault {
    ghost use Rattle.std.specs.Prelude.{◌≡◌};
    ghost use Rattle.mk_top.specs.Faults.{fault_of_bundle};

    ghost from_gives = { λ refusal fault. fault ≡ fault_of_bundle refusal };

    fn from(refusal: StreamRefusal) -> Fault {
        match refusal {
            StreamRefusal::Fault => Fault::ReadFault,
            StreamRefusal::TooLong => Fault::TooLong { limit: MOST_BYTES },
            StreamRefusal::Form { line } => Fault::Bundle { line },
            StreamRefusal::Unset { instr } => Fault::Unset { instr },
            StreamRefusal::Register { instr } => Fault::Register { instr },
            StreamRefusal::Memory => Fault::Memory,
        }
    }
}

impl From<SourceRefusal> for Fault {
    ghost use Rattle.std.specs.Prelude.{◌≡◌};
    ghost use Rattle.mk_top.specs.Faults.{fault_of_source};

    ghost from_gives = { λ refusal fault. fault ≡ fault_of_source refusal };

    fn from(refusal: SourceRefusal) -> Fault {
        match refusal {
            SourceRefusal::Syntax(at) => Fault::Source(SourceFault::Syntax { at }),
            SourceRefusal::Unknown(at) => Fault::Source(SourceFault::Unknown { at }),
            SourceRefusal::Twice(at) => Fault::Source(SourceFault::Twice { at }),
            SourceRefusal::Kind(at) => Fault::Source(SourceFault::Kind { at }),
            SourceRefusal::AssignInput(at) => Fault::Source(SourceFault::AssignInput { at }),
            SourceRefusal::MapForm(at) => Fault::Source(SourceFault::MapForm { at }),
            SourceRefusal::Index(at) => Fault::Source(SourceFault::Index { at }),
            SourceRefusal::Large(limit) => Fault::Source(SourceFault::Large { limit }),
            SourceRefusal::Memory => Fault::Memory,
        }
    }
}

impl From<CheckRefusal> for Fault {
    ghost use Rattle.std.specs.Prelude.{◌≡◌};
    ghost use Rattle.mk_top.specs.Faults.{fault_of_check};

    ghost from_gives = { λ refusal fault. fault ≡ fault_of_check refusal };

    fn from(refusal: CheckRefusal) -> Fault {
        match refusal {
            CheckRefusal::Operand { block } => Fault::Check(CheckFault::Operand { block }),
            CheckRefusal::Tile { instr } => Fault::Check(CheckFault::Tile { instr }),
            CheckRefusal::Output { index } => Fault::Check(CheckFault::Output { index }),
            CheckRefusal::Doubled { value, block } => {
                Fault::Check(CheckFault::Doubled { value, block })
            }
            CheckRefusal::Memory => Fault::Memory,
        }
    }
}

impl From<EvalRefusal> for Fault {
    ghost use Rattle.std.specs.Prelude.{◌≡◌};
    ghost use Rattle.mk_top.specs.Faults.{fault_of_eval};

    ghost from_gives = { λ refusal fault. fault ≡ fault_of_eval refusal };

    fn from(refusal: EvalRefusal) -> Fault {
        match refusal {
            EvalRefusal::Index(at) => Fault::Source(SourceFault::Index { at }),
            EvalRefusal::Large(limit) => Fault::Source(SourceFault::Large { limit }),
            EvalRefusal::Length { given, wanted } => {
                Fault::Inputs(InputFault::Length { given, wanted })
            }
            EvalRefusal::Element { which, index } => {
                Fault::Inputs(InputFault::Element { which, index })
            }
            EvalRefusal::Memory => Fault::Memory,
        }
    }
}

impl From<RunRefusal> for Fault {
    ghost use Rattle.std.specs.Prelude.{◌≡◌};
    ghost use Rattle.mk_top.specs.Faults.{fault_of_run};

    ghost from_gives = { λ refusal fault. fault ≡ fault_of_run refusal };

    fn from(refusal: RunRefusal) -> Fault {
        match refusal {
            RunRefusal::Length { given, wanted } => {
                Fault::Inputs(InputFault::Length { given, wanted })
            }
            RunRefusal::Element { which, index } => {
                Fault::Inputs(InputFault::Element { which, index })
            }
            RunRefusal::TapeShort { given, wanted } => {
                Fault::Inputs(InputFault::TapeShort { given, wanted })
            }
            RunRefusal::Memory => Fault::Memory,
        }
    }
}

impl From<CountRefusal> for Fault {
    ghost use Rattle.std.specs.Prelude.{◌≡◌};
    ghost use Rattle.mk_top.specs.Faults.{fault_of_count};

    ghost from_gives = { λ refusal fault. fault ≡ fault_of_count refusal };

    fn from(refusal: CountRefusal) -> Fault {
        match refusal {
            CountRefusal::Length { given, wanted } => {
                Fault::Inputs(InputFault::Length { given, wanted })
            }
            CountRefusal::Element { which, index } => {
                Fault::Inputs(InputFault::Element { which, index })
            }
            CountRefusal::Probe { index } => Fault::Inputs(InputFault::Probe { index }),
            CountRefusal::Tapes { elements } => Fault::Tapes { elements },
            CountRefusal::Memory => Fault::Memory,
        }
    }
}

impl From<LibRefusal> for Fault {
    ghost use Rattle.std.specs.Prelude.{◌≡◌};
    ghost use Rattle.mk_top.specs.Faults.{fault_of_text};

    ghost from_gives = { λ refusal fault. fault ≡ fault_of_text refusal };

    fn from(refusal: LibRefusal) -> Fault {
        match refusal {
            LibRefusal::Gadget { line } => Fault::Gadget { line },
            LibRefusal::Memory => Fault::Memory,
        }
    }
}

impl From<PadRefusal> for Fault {
    ghost use Rattle.std.specs.Prelude.{◌≡◌};
    ghost use Rattle.mk_top.specs.Faults.{fault_of_gadget};

    ghost from_gives = { λ refusal fault. fault ≡ fault_of_gadget refusal };

    fn from(refusal: PadRefusal) -> Fault {
        match refusal {
            PadRefusal::TooManySets { sets } => Fault::Sets { sets },
            PadRefusal::TooManyTerms { terms } => Fault::Terms { terms },
            PadRefusal::Memory => Fault::Memory,
        }
    }
}

impl Fault {
    /// The status that it ends with.
    pub(crate) fn status(self) -> Status
        ensures { result ≡ status_of self }
    {
        match self {
            Fault::Words => Status::Words,
            Fault::Source(_) => Status::Source,
            Fault::Inputs(_) => Status::Inputs,
            Fault::Check(_) => Status::Refused,
            Fault::Bundle { line: _ } => Status::Bundle,
            Fault::Unset { instr: _ } => Status::Bundle,
            Fault::Register { instr: _ } => Status::Bundle,
            Fault::Gadget { line: _ } => Status::Bundle,
            Fault::Sets { sets: _ } => Status::Tapes,
            Fault::Terms { terms: _ } => Status::Tapes,
            Fault::ReadFault => Status::ReadFault,
            Fault::WriteFault => Status::WriteFault,
            Fault::Memory => Status::Memory,
            Fault::Tapes { elements: _ } => Status::Tapes,
            Fault::TooLong { limit: _ } => Status::TooLong,
        }
    }

    /// Its line, with the line feed.
    pub(crate) fn line(self) -> FaultLine
        ensures { result.bytes ≡ fault_line self }
    {
        match self {
            Fault::Words => fixed("21 words\n"),
            Fault::Source(fault) => fault.line(),
            Fault::Inputs(fault) => fault.line(),
            Fault::Check(fault) => fault.line(),
            Fault::Bundle { line } => numbered("41 bundle ", line),
            Fault::Unset { instr } => numbered("42 unset ", instr),
            Fault::Register { instr } => numbered("43 register ", instr),
            Fault::Gadget { line } => numbered("44 gadget ", line),
            Fault::Sets { sets } => counted("61 sets ", sets),
            Fault::Terms { terms } => counted("62 terms ", terms),
            Fault::ReadFault => fixed("6 read fault\n"),
            Fault::WriteFault => fixed("7 write fault\n"),
            Fault::Memory => fixed("8 memory\n"),
            Fault::Tapes { elements } => numbered("91 tapes ", elements),
            Fault::TooLong { limit } => numbered("10 too long ", limit),
        }
    }
}
