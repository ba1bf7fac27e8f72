ghost use Rattle.std.specs.Prelude.{◌≡◌, ◌+◌, ◌≤◌};
ghost use Rattle.mk_base.specs.declared.TheConstants.{TOP_ORDER};

use mk_field::{Field, Gf2};

/// Calls a function that is generic over a field and the number of shares, with one share more than
/// the order, which is from 1 to 15: `with_order!(order, run::<Gf2>(code, tape))`. It expands to one arm
/// for each order.
#[macro_export]
macro_rules! with_order {
    ($order:expr, $call:ident::<$field:ty>($($argument:expr),* $(,)?)) => {
        match $order {
            1 => $call::<$field, 2>($($argument),*),
            2 => $call::<$field, 3>($($argument),*),
            3 => $call::<$field, 4>($($argument),*),
            4 => $call::<$field, 5>($($argument),*),
            5 => $call::<$field, 6>($($argument),*),
            6 => $call::<$field, 7>($($argument),*),
            7 => $call::<$field, 8>($($argument),*),
            8 => $call::<$field, 9>($($argument),*),
            9 => $call::<$field, 10>($($argument),*),
            10 => $call::<$field, 11>($($argument),*),
            11 => $call::<$field, 12>($($argument),*),
            12 => $call::<$field, 13>($($argument),*),
            13 => $call::<$field, 14>($($argument),*),
            14 => $call::<$field, 15>($($argument),*),
            15 => $call::<$field, 16>($($argument),*),
            _ => unreachable!(),
        }
    };
}

/// The number of shares, by its type.
fn shares<F: Field, const N: usize>() -> usize
    ensures { result ≡ N }
{
    N
}

/// How many shares a value has at an order: one more.
pub fn shares_at(order: u8) -> usize
    requires order { (1 ≤ order) × (order ≤ TOP_ORDER) }
    ensures { result ≡ order + 1 }
{
    with_order!(order, shares::<Gf2>())
}
