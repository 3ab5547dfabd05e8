// The bits of one number in its bytes. The functions require what `decode` and `encode` have tested, so each takes a
// `Here`, which no other crate can make.
ghost use Rattle.std.specs.Prelude.{◌≡◌, true, false, length};
ghost use Rattle.std.specs.Float.Ieee.{of_bits, to_bits, is_nan};
ghost use Rattle.ieee.specs.Finite.{is_finite};
ghost use Rattle.wire.specs.Wire.{width, word_of, word_bytes};

use ieee::Real;

// Evidence that a call is made in this crate.
#[derive(Clone, Copy)]
pub struct Here;

pub trait Word: Real {
    // The whole number that the bytes make.
    fn word(b: &[u8], here: Here) -> Self::Bits
        requires { length b.now ≡ width Self.format }
        ensures { Self.bits result ≡ word_of b.now };

    // The bytes of a whole number.
    fn put_word(word: Self::Bits, out: &mut [u8], here: Here)
        requires { length out.old ≡ width Self.format }
        ensures { out.new ≡ word_bytes (width Self.format) (Self.bits word) };

    // The number with these bits, as they are: not a NaN.
    fn from_bits(word: Self::Bits, here: Here) -> Self
        requires { is_nan (of_bits Self.format (Self.bits word)) ≡ false }
        ensures { Self.float result ≡ of_bits Self.format (Self.bits word) };

    // The bits of a number, as they are: it is finite.
    fn to_bits(self, here: Here) -> Self::Bits
        requires { is_finite (Self.float self) ≡ true }
        ensures { Self.bits result ≡ to_bits Self.format (Self.float self) };
}

impl Word for f64 {
    #[tactic(auto, using(crate::proofs::Bytes::read_eight))]
    fn word(b: &[u8], here: Here) -> u64 {
        u64::from_le_bytes([b[0], b[1], b[2], b[3], b[4], b[5], b[6], b[7]])
    }

    #[tactic(auto, using(crate::proofs::Bytes::written_eight))]
    fn put_word(word: u64, out: &mut [u8], here: Here) {
        out.copy_from_slice(&word.to_le_bytes());
    }

    #[tactic(auto, using(crate::proofs::Nans::bits))]
    fn from_bits(word: u64, here: Here) -> f64 {
        f64::from_bits(word)
    }

    fn to_bits(self, here: Here) -> u64 {
        f64::to_bits(self)
    }
}

impl Word for f32 {
    #[tactic(auto, using(crate::proofs::Bytes::read_four))]
    fn word(b: &[u8], here: Here) -> u32 {
        u32::from_le_bytes([b[0], b[1], b[2], b[3]])
    }

    #[tactic(auto, using(crate::proofs::Bytes::written_four))]
    fn put_word(word: u32, out: &mut [u8], here: Here) {
        out.copy_from_slice(&word.to_le_bytes());
    }

    #[tactic(auto, using(crate::proofs::Nans::bits))]
    fn from_bits(word: u32, here: Here) -> f32 {
        f32::from_bits(word)
    }

    fn to_bits(self, here: Here) -> u32 {
        f32::to_bits(self)
    }
}
