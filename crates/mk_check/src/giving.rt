//! Giving a whole code to a checker.

ghost use Rattle.std.specs.Prelude.{◌≡◌, ◌≤◌, ◌<◌, ◌+◌, ◌*◌, [], IfOk, length};
ghost use Rattle.mk_code.specs.declared.TheConstants.{MOST_INPUTS, MOST_INSTRS};
ghost use Rattle.mk_rules.specs.Faults.{output_positions};
ghost use Rattle.mk_check.specs.Given.{Given};
ghost use Rattle.mk_check.specs.Outlines.{IsOver};

use crate::checker::Checker;
use mk_base::Memory;
use mk_code::{Code, Instr};
use mk_rules::Cert;
use std::alloc::Global;

/// A checker of this code and certificate, which was given nothing yet.
pub(crate) fn checker_of(alloc: Global, code: &Code, cert: &Cert) -> Result<Checker, Memory>
    ensures given { IfOk result (λ c. Given c [] []) }
    ensures over { IfOk result (λ c. IsOver code.now c.outline) }
    ensures cert { IfOk result (λ c. c.cert ≡ cert.now) }
{
    code.law();
    Checker::new(
        alloc,
        code.order(),
        code.secrets(),
        code.publics(),
        code.field(),
        code.maps().len() as u32,
        cert.copy(alloc)?,
    )
}

/// Gives a checker the instructions of a code.
pub(crate) fn give_instrs(checker: &mut Checker, instrs: &[Instr])
    requires few { length instrs.now ≤ MOST_INSTRS }
    requires given { Given checker.old [] [] }
    ensures given { Given checker.new instrs.now [] }
    ensures same { (checker.new.outline ≡ checker.old.outline) × (checker.new.cert ≡ checker.old.cert) }
{
    for instr in instrs {
        checker.instr(*instr);
    }
}

/// How many outputs a code has.
fn outputs(code: &Code) -> usize
    ensures whole { result * (code.now.order + 1) ≡ length code.now.outs }
    ensures few { result ≤ MOST_INPUTS }
{
    code.law();
    code.outs().len() / (usize::from(code.order()) + 1)
}

/// The positions of the shares of output `k`.
fn output(code: &Code, k: usize) -> &[u32]
    requires { k * (code.now.order + 1) < length code.now.outs }
    ensures positions { result.now ≡ output_positions code.now k }
    ensures count { length result.now ≡ code.now.order + 1 }
{
    code.law();
    let shares = usize::from(code.order()) + 1;
    let start = k * shares;
    &code.outs().as_slice()[start..start + shares]
}

/// Gives a checker the outs of a code, output by output.
pub(crate) fn give_outs(checker: &mut Checker, code: &Code)
    requires order { checker.old.outline.order ≡ code.now.order }
    requires given { Given checker.old code.now.instrs [] }
    ensures given { Given checker.new code.now.instrs code.now.outs }
    ensures same { (checker.new.outline ≡ checker.old.outline) × (checker.new.cert ≡ checker.old.cert) }
{
    for k in 0..outputs(code) {
        checker.positions(output(code, k));
    }
}
