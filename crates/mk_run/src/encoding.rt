//! The encodings of secrets, one after the other.

ghost use Rattle.std.specs.Prelude.{◌≡◌, ◌⊎◌, ◌+◌, ◌-◌, ◌*◌, ◌≤◌, ◌<◌, ◌^◌, ◌++◌, Some, None, IfOk, IfErr, length, vec_capacity};
ghost use Rattle.mk_field.specs.Field.{size};
ghost use Rattle.mk_field.specs.Sharing.{encodings};
ghost use Rattle.mk_code.specs.Counting.{Elements, AllBelow};
ghost use Rattle.mk_code.specs.Private.{spent};
ghost use Rattle.mk_run.specs.Refusals.{encode_refusal};
ghost use Rattle.mk_run.specs.declared.refusal.RunRefusal.TheVariants as refusal_;

use crate::inputs::{check_encoding, shares_of};
use crate::refusal::RunRefusal;
use mk_base::{Bytes, Items, Memory};
use mk_code::Code;
use mk_field::{Field, FieldId, Gf2, Gf256};
use mk_share::{encode, with_order};
use std::alloc::Global;

/// Appends the encodings of the secrets, each by the next N - 1 elements of the tape, where there is room.
fn push_encodings<F: Field, const N: usize>(secrets: &[u8], tape: &[u8], shares: &mut Vec<u8>)
    requires least { 2 ≤ N }
    requires most { N ≤ 256 }
    requires secrets { AllBelow (size F.ID) secrets.now }
    requires tape { AllBelow (size F.ID) tape.now }
    requires enough { (N - 1) * length secrets.now ≤ length tape.now }
    requires room { length shares.old.items + length secrets.now * N ≤ vec_capacity shares.old }
    ensures encodings { shares.new.items ≡ shares.old.items ++ encodings (N - 1) secrets.now tape.now }
    ensures room { vec_capacity shares.old ≤ vec_capacity shares.new }
{
    let mut rest = tape;
    for secret in secrets {
        let (elements, behind) = rest.split_at(N - 1);
        let sharing = encode::<F, N>(*secret, elements);
        shares.extend_from_slice(&sharing.parts).unwrap();
        rest = behind;
    }
}

/// Appends the encodings of all secrets of a code, where there is room.
pub(crate) fn push_all(code: &Code, secrets: &[u8], tape: &[u8], shares: &mut Vec<u8>)
    requires secrets { Elements (size code.now.field) code.now.secrets secrets.now }
    requires tape { Elements (size code.now.field) (length tape.now) tape.now }
    requires enough { spent code.now ≤ length tape.now }
    requires room { length shares.old.items + code.now.secrets * (code.now.order + 1) ≤ vec_capacity shares.old }
    ensures encodings { shares.new.items ≡ shares.old.items ++ encodings code.now.order secrets.now tape.now }
    ensures room { vec_capacity shares.old ≤ vec_capacity shares.new }
{
    let order = code.order();
    match code.field() {
        FieldId::Gf2 => with_order!(order, push_encodings::<Gf2>(secrets, tape, shares)),
        FieldId::Gf256 => with_order!(order, push_encodings::<Gf256>(secrets, tape, shares)),
    }
}

/// The encodings of all secrets of a code.
pub(crate) fn encoded(
    alloc: Global,
    code: &Code,
    secrets: &[u8],
    tape: &[u8],
) -> Result<Bytes, Memory>
    requires secrets { Elements (size code.now.field) code.now.secrets secrets.now }
    requires tape { Elements (size code.now.field) (length tape.now) tape.now }
    requires enough { spent code.now ≤ length tape.now }
    ensures shares { IfOk result (λ shares. shares ≡ encodings code.now.order secrets.now tape.now) }
    ensures elements { IfOk result (λ shares. Elements (size code.now.field) (code.now.secrets * (code.now.order + 1)) shares) }
{
    let mut shares = Vec::with_capacity(alloc, shares_of(code) as usize)?;
    push_all(code, secrets, tape, &mut shares);
    Items::try_from_vec(shares)
}

/// The shares of all secrets of a code, secret by secret: of each secret its encoding by the next elements
/// of the tape, as many as the order. What is left of a longer tape isn't used. Refused are, in this order:
/// a number of secrets that is not the code's; a secret, then an element of the tape, that is no element of
/// the field; and a tape that has fewer elements than the encodings take. `Memory` may stand in the place
/// of any answer.
pub fn encode_all(
    alloc: Global,
    code: &Code,
    secrets: &[u8],
    tape: &[u8],
) -> Result<Bytes, RunRefusal>
    requires secrets { length secrets.now < 2 ^ 32 }
    requires tape { length tape.now < 2 ^ 32 }
    ensures shares { IfOk result (λ shares. shares ≡ encodings code.now.order secrets.now tape.now) }
    ensures elements { IfOk result (λ shares. Elements (size code.now.field) (code.now.secrets * (code.now.order + 1)) shares) }
    ensures taken { IfOk result (λ _. encode_refusal code.now secrets.now tape.now ≡ None) }
    ensures refused { IfErr result (λ e. (e ≡ refusal_.Memory) ⊎ (encode_refusal code.now secrets.now tape.now ≡ Some e)) }
{
    check_encoding(code, secrets, tape)?;
    Ok(encoded(alloc, code, secrets, tape)?)
}
