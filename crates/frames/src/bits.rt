// The bits of a byte: the enable byte and the reset mask are read with them, the output byte is made with them. A bit's
// number is a plain number below 8: callers count channels, and a type for it would be made and taken apart at each.
ghost use Rattle.std.specs.Prelude.{◌≡◌, cond, ◌+◌, ◌<◌, ◌^◌};
ghost use Rattle.frames.specs.Bits.{bit_of, enabled_in};

// Bit c is 1.
pub fn bit(byte: u8, c: usize) -> bool
    requires { c < 8 }
    ensures { result ≡ bit_of byte c }
{
    (byte >> c) % 2 == 1
}

// The byte with bit c set where `on`; bit c and those above it are 0 in the byte.
pub fn with_bit(byte: u8, c: usize, on: bool) -> u8
    requires { (c < 8) × (byte < 2 ^ c) }
    ensures { result ≡ byte + cond on (2 ^ c) 0 }
{
    if on { byte + (1 << c) } else { byte }
}

// A channel is enabled in a frame if its bit and bit 6 are both 1.
pub fn enabled_in(enable: u8, c: usize) -> bool
    requires { c < 8 }
    ensures { result ≡ enabled_in enable c }
{
    bit(enable, c) & bit(enable, 6)
}
