ghost use Rattle.std.specs.Prelude.{◌≡◌};
ghost use Rattle.mk_field.specs.Field.{image};

/// An additive map on bytes, given by the images of the eight bits, that of bit 0 first. The image of
/// a byte is the sum of the images of its set bits.
#[derive(Clone, Copy, Debug, PartialEq, Eq)]
pub struct AddMap {
    pub images: [u8; 8],
}

impl AddMap {
    /// The image of a byte.
    pub fn apply(&self, a: u8) -> u8
        ensures { result ≡ image self.now a }
    {
        let mut sum = 0;
        for i in 0..8 {
            if (a >> i) & 1 == 1 {
                sum ^= self.images[i];
            }
        }
        sum
    }
}
