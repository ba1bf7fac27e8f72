//! The inputs of a code: as many as it takes, and elements of its field.

ghost use Rattle.std.specs.Prelude.{◌≡◌, ◌<◌, ◌≤◌, ◌^◌, ◌*◌, ◌+◌, Some, None, OnOk, IfErr, length};
ghost use Rattle.mk_base.specs.Inputs.{no_element};
ghost use Rattle.mk_field.specs.Field.{size};
ghost use Rattle.mk_code.specs.Counting.{Elements};
ghost use Rattle.mk_code.specs.Private.{spent};
ghost use Rattle.mk_code.specs.Trace.{randoms};
ghost use Rattle.mk_run.specs.Refusals.{tape_len, tape_short, secrets_refusal, encode_refusal, shares_refusal, run_refusal, worlds_refusal};

use crate::refusal::RunRefusal;
use mk_base::{InputRefusal, Which, check_number};
use mk_code::Code;
use mk_field::FieldId;

/// Whether these inputs are elements.
pub(crate) fn check_each(field: FieldId, which: Which, inputs: &[u8]) -> Result<(), InputRefusal>
    requires { length inputs.now < 2 ^ 32 }
    ensures right { OnOk result (no_element which (size field) inputs.now ≡ None) }
    ensures wrong { IfErr result (λ e. no_element which (size field) inputs.now ≡ Some e) }
    ensures elements { OnOk result (Elements (size field) (length inputs.now) inputs.now) }
{
    mk_base::check_each(which, field.size(), inputs)
}

/// Whether the tape has at least as many elements as are wanted.
pub(crate) fn check_tape(tape: &[u8], wanted: u32) -> Result<(), RunRefusal>
    requires { length tape.now < 2 ^ 32 }
    ensures right { OnOk result (tape_short tape.now wanted ≡ None) }
    ensures wrong { IfErr result (λ e. tape_short tape.now wanted ≡ Some e) }
    ensures enough { OnOk result (wanted ≤ length tape.now) }
{
    let given = tape.len() as u32;
    if given < wanted {
        return Err(RunRefusal::TapeShort { given, wanted });
    }
    Ok(())
}

/// How many elements of a tape the encodings of the secrets take.
pub(crate) fn spent_by(code: &Code) -> u32
    ensures { result ≡ spent code.now }
{
    code.law();
    u32::from(code.order()) * code.secrets()
}

/// How many shares the secrets have.
pub(crate) fn shares_of(code: &Code) -> u32
    ensures { result ≡ code.now.secrets * (code.now.order + 1) }
{
    code.law();
    code.secrets() * (u32::from(code.order()) + 1)
}

/// Whether these secrets are the code's, and they and the tape are elements.
fn check_secrets(code: &Code, secrets: &[u8], tape: &[u8]) -> Result<(), InputRefusal>
    requires secrets { length secrets.now < 2 ^ 32 }
    requires tape { length tape.now < 2 ^ 32 }
    ensures right { OnOk result (secrets_refusal code.now secrets.now tape.now ≡ None) }
    ensures wrong { IfErr result (λ e. secrets_refusal code.now secrets.now tape.now ≡ Some e) }
    ensures secrets { OnOk result (Elements (size code.now.field) code.now.secrets secrets.now) }
    ensures tape { OnOk result (Elements (size code.now.field) (length tape.now) tape.now) }
{
    let field = code.field();
    check_number(secrets, code.secrets())?;
    check_each(field, Which::Secret, secrets)?;
    check_each(field, Which::Tape, tape)
}

/// Whether these secrets can be encoded with this tape.
pub(crate) fn check_encoding(code: &Code, secrets: &[u8], tape: &[u8]) -> Result<(), RunRefusal>
    requires secrets { length secrets.now < 2 ^ 32 }
    requires tape { length tape.now < 2 ^ 32 }
    ensures right { OnOk result (encode_refusal code.now secrets.now tape.now ≡ None) }
    ensures wrong { IfErr result (λ e. encode_refusal code.now secrets.now tape.now ≡ Some e) }
    ensures secrets { OnOk result (Elements (size code.now.field) code.now.secrets secrets.now) }
    ensures tape { OnOk result (Elements (size code.now.field) (length tape.now) tape.now) }
    ensures enough { OnOk result (spent code.now ≤ length tape.now) }
{
    check_secrets(code, secrets, tape)?;
    check_tape(tape, spent_by(code))
}

/// Whether these public inputs and shares are as many as the code takes, and they and the tape are elements.
fn check_shares(code: &Code, publics: &[u8], shares: &[u8], tape: &[u8]) -> Result<(), InputRefusal>
    requires publics { length publics.now < 2 ^ 32 }
    requires shares { length shares.now < 2 ^ 32 }
    requires tape { length tape.now < 2 ^ 32 }
    ensures right { OnOk result (shares_refusal code.now publics.now shares.now tape.now ≡ None) }
    ensures wrong { IfErr result (λ e. shares_refusal code.now publics.now shares.now tape.now ≡ Some e) }
    ensures publics { OnOk result (Elements (size code.now.field) code.now.publics publics.now) }
    ensures shares { OnOk result (Elements (size code.now.field) (code.now.secrets * (code.now.order + 1)) shares.now) }
    ensures tape { OnOk result (Elements (size code.now.field) (length tape.now) tape.now) }
{
    let field = code.field();
    check_number(publics, code.publics())?;
    check_number(shares, shares_of(code))?;
    check_each(field, Which::Public, publics)?;
    check_each(field, Which::Secret, shares)?;
    check_each(field, Which::Tape, tape)
}

/// Whether the code can be run on these public inputs and shares with this tape.
pub(crate) fn check_run(
    code: &Code,
    publics: &[u8],
    shares: &[u8],
    tape: &[u8],
) -> Result<(), RunRefusal>
    requires publics { length publics.now < 2 ^ 32 }
    requires shares { length shares.now < 2 ^ 32 }
    requires tape { length tape.now < 2 ^ 32 }
    ensures right { OnOk result (run_refusal code.now publics.now shares.now tape.now ≡ None) }
    ensures wrong { IfErr result (λ e. run_refusal code.now publics.now shares.now tape.now ≡ Some e) }
    ensures publics { OnOk result (Elements (size code.now.field) code.now.publics publics.now) }
    ensures shares { OnOk result (Elements (size code.now.field) (code.now.secrets * (code.now.order + 1)) shares.now) }
    ensures tape { OnOk result (Elements (size code.now.field) (length tape.now) tape.now) }
    ensures enough { OnOk result (randoms code.now.instrs ≤ length tape.now) }
{
    check_shares(code, publics, shares, tape)?;
    check_tape(tape, code.randoms())
}

/// Whether these public inputs and secrets of two worlds are as many as the code takes, and elements.
pub(crate) fn check_worlds(
    code: &Code,
    publics: &[u8],
    first: &[u8],
    second: &[u8],
) -> Result<(), InputRefusal>
    requires publics { length publics.now < 2 ^ 32 }
    requires first { length first.now < 2 ^ 32 }
    requires second { length second.now < 2 ^ 32 }
    ensures right { OnOk result (worlds_refusal code.now publics.now first.now second.now ≡ None) }
    ensures wrong { IfErr result (λ e. worlds_refusal code.now publics.now first.now second.now ≡ Some e) }
    ensures publics { OnOk result (Elements (size code.now.field) code.now.publics publics.now) }
    ensures first { OnOk result (Elements (size code.now.field) code.now.secrets first.now) }
    ensures second { OnOk result (Elements (size code.now.field) code.now.secrets second.now) }
{
    let field = code.field();
    check_number(publics, code.publics())?;
    check_number(first, code.secrets())?;
    check_number(second, code.secrets())?;
    check_each(field, Which::Public, publics)?;
    check_each(field, Which::Secret, first)?;
    check_each(field, Which::Other, second)
}

/// How many elements the whole tape of a run has: those that encode the secrets, and those that the code
/// takes.
pub fn tape_len_of(code: &Code) -> u32
    ensures { result ≡ tape_len code.now }
{
    code.law();
    spent_by(code) + code.randoms()
}
