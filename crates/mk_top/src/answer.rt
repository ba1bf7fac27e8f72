//! What a command answers, before anything of it is written.

ghost use Rattle.std.specs.Prelude.{◌≡◌, ◌≤◌, OnOk, IfErr};
ghost use Rattle.mk_base.specs.Outside.{Rose};
ghost use Rattle.mk_top.specs.declared.fault.Fault.TheVariants.{WriteFault};
ghost use Rattle.mk_top.specs.Headline.{TakesWhole, TakesSome};
ghost use Rattle.mk_top.specs.declared.answer.Answer.TheVariants as answer;
ghost use Rattle.mk_top.specs.Running.{HasText, answered, text_of};

use crate::fault::Fault;
use mk_base::{Bytes, Sink, write_all};
use mk_bundle::write_registers;
use mk_regs::RegCode;
use mk_rules::Cert;

/// Register code and its certificate.
#[derive(Debug, Drop)]
pub(crate) struct RegisterBundle {
    pub(crate) code: RegCode,
    pub(crate) cert: Cert,
}

/// A text, or a bundle over registers, whose text is made while it is written.
#[derive(Debug, Drop)]
pub(crate) enum Answer {
    /// The bytes of a text.
    Text(Bytes),
    /// Register code and its certificate.
    Bundle(RegisterBundle),
}

impl Answer {
    /// Writes its text whole to the output. It takes no memory.
    pub(crate) fn write<O: Sink>(&self, out: &mut O) -> Result<(), Fault>
        requires { HasText self.now }
        ensures whole { OnOk result (TakesWhole (O.taken out.old) (text_of self.now) (O.taken out.new)) }
        ensures fault { IfErr result (λ fault. fault ≡ WriteFault) }
        ensures cut { IfErr result (λ _. TakesSome (O.taken out.old) (text_of self.now) (O.taken out.new)) }
        ensures rose { IfErr result (λ _. Rose (O.faults out.old) (O.faults out.new)) }
        ensures never_falls { O.faults out.old ≤ O.faults out.new }
    {
        let written = match self {
            Answer::Text(bytes) => write_all(out, bytes.as_slice()),
            Answer::Bundle(bundle) => write_registers(out, &bundle.code, &bundle.cert),
        };
        written.map_err(|_| Fault::WriteFault)
    }
}

/// A text that was made, as an answer.
pub(crate) fn text_answer(made: Result<Bytes, Fault>) -> Result<Answer, Fault>
    ensures { result ≡ answered answer.Text made }
{
    made.map(Answer::Text)
}

/// Register code that was made, with its certificate, as an answer.
pub(crate) fn bundle_answer(made: Result<RegisterBundle, Fault>) -> Result<Answer, Fault>
    ensures { result ≡ answered answer.Bundle made }
{
    made.map(Answer::Bundle)
}
