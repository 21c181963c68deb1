// Bits of a byte, the lowest first.
ghost use Rattle.std.specs.Prelude.{◌≡◌, ◌^◌, ◌<◌, bit_or};
ghost use Rattle.schemes.specs.Bits.{bit};

// Whether bit k of x is set.
pub fn has_bit(x: u8, k: u8) -> bool
    requires { k < 8 }
    ensures { result ≡ bit x k }
{
    (x >> k) % 2 == 1
}

// x with bit k set.
pub fn with_bit(x: u8, k: u8) -> u8
    requires { k < 8 }
    ensures { result ≡ bit_or x (2 ^ k) }
{
    x | (1 << k)
}
