//! The elements that a program or a code is given: as many as are wanted, and each an element.

ghost use Rattle.std.specs.Prelude.{◌≡◌, ◌<◌, ◌^◌, All, Some, None, OnOk, IfErr, length, not, nat_lt};
ghost use Rattle.std.specs.List.{position};
ghost use Rattle.mk_base.specs.Inputs.{wrong_number, no_element};

use crate::Which;
use thiserror::Error;

/// Why some elements are not taken as inputs.
#[derive(Clone, Copy, Debug, PartialEq, Eq, Error)]
pub enum InputRefusal {
    /// 51: so many were given, and so many are wanted.
    #[error("the number of inputs is not the wanted one")]
    Length { given: u32, wanted: u32 },
    /// 52: the input of this number, from 0, is no element of the field.
    #[error("an input is no element of the field")]
    Element { which: Which, index: u32 },
}

/// Whether the number of inputs is the wanted one.
pub fn check_number(inputs: &[u8], wanted: u32) -> Result<(), InputRefusal>
    requires { length inputs.now < 2 ^ 32 }
    ensures right { OnOk result (wrong_number inputs.now wanted ≡ None) }
    ensures wrong { IfErr result (λ e. wrong_number inputs.now wanted ≡ Some e) }
    ensures number { OnOk result (length inputs.now ≡ wanted) }
{
    let given = inputs.len() as u32;
    if given != wanted {
        return Err(InputRefusal::Length { given, wanted });
    }
    Ok(())
}

/// The number of the first input that is no element of a field of this size.
fn first_other(size: u16, inputs: &[u8]) -> Option<usize>
    ensures { result ≡ position (λ x. not (nat_lt x size)) inputs.now }
{
    inputs.iter().position(|input| u16::from(*input) >= size)
}

/// Whether these inputs are elements of a field of this size.
pub fn check_each(which: Which, size: u16, inputs: &[u8]) -> Result<(), InputRefusal>
    requires { length inputs.now < 2 ^ 32 }
    ensures right { OnOk result (no_element which size inputs.now ≡ None) }
    ensures wrong { IfErr result (λ e. no_element which size inputs.now ≡ Some e) }
    ensures elements { OnOk result (All (λ a. a < size) inputs.now) }
{
    match first_other(size, inputs) {
        None => Ok(()),
        Some(index) => Err(InputRefusal::Element {
            which,
            index: index as u32,
        }),
    }
}
