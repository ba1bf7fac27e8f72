//! The classes of the exponents from 1 to 254 under doubling modulo 255.

ghost use Rattle.std.specs.Prelude.{◌≡◌, ◌<◌, ◌-◌, ◌==◌, find, IfSome};
ghost use Rattle.std.specs.List.{range_with_len};
ghost use Rattle.mk_table.specs.Classes.{doubled_exponent, class_size as size_of_class, leader_of as leader, doublings as doublings_to};

/// The leaders of the classes, which are the least exponents in them, in order.
pub(crate) static LEADERS: [u8; 34] = [
    1, 3, 5, 7, 9, 11, 13, 15, 17, 19, 21, 23, 25, 27, 29, 31, 37, 39, 43, 45, 47, 51, 53, 55, 59,
    61, 63, 85, 87, 91, 95, 111, 119, 127,
];

/// An exponent doubled so many times, modulo 255.
pub(crate) fn double(k: u8, times: u8) -> u8
    requires { times < 9 }
    ensures { result ≡ doubled_exponent k times }
{
    (u32::from(k) * 2u32.pow(u32::from(times)) % 255) as u8
}

/// The least number of times from `first` up to but not with `end` by which k is doubled to the target.
fn times_to(k: u8, target: u8, first: u8, end: u8) -> Option<u8>
    requires { end < 10 }
    ensures least { result ≡ find (λ times. doubled_exponent k times == target) (range_with_len first (end - first)) }
    ensures below { IfSome result (λ times. times < end) }
{
    (first..end).find(|times| double(k, *times) == target)
}

/// How many exponents are in the class of k.
pub(crate) fn class_size(k: u8) -> u8
    ensures size { result ≡ size_of_class k }
    ensures below { result < 9 }
{
    times_to(k, k, 1, 9).unwrap_or(0)
}

/// The leader of the class of k.
pub(crate) fn leader_of(k: u8) -> u8
    ensures { result ≡ leader k }
{
    (0..8u8).fold(k, |least, times| least.min(double(k, times)))
}

/// How many times the leader of k is doubled to k.
pub(crate) fn doublings(k: u8) -> u8
    ensures { result ≡ doublings_to k }
{
    times_to(leader_of(k), k, 0, 8).unwrap_or(0)
}
