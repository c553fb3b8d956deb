// The functions of FIPS 180-4, 4.1.2.
ghost use Rattle.std.specs.Prelude.{◌≡◌};
ghost use Rattle.sha256.specs.Functions.{◌⊞◌, Ch, Maj, Σ₀, Σ₁, σ₀, σ₁};

// The sum modulo 2^32.
pub(crate) fn sum2(x: u32, y: u32) -> u32
    ensures { result ≡ x ⊞ y }
{
    x.wrapping_add(y)
}

// By each bit of x, that of y or of z, with one operation less than the standard has.
pub(crate) fn choice(x: u32, y: u32, z: u32) -> u32
    ensures { result ≡ Ch x y z }
{
    z ^ (x & (y ^ z))
}

// The bit that most of the three have, likewise.
pub(crate) fn majority(x: u32, y: u32, z: u32) -> u32
    ensures { result ≡ Maj x y z }
{
    y ^ ((x ^ y) & (y ^ z))
}

pub(crate) fn upper0(x: u32) -> u32
    ensures { result ≡ Σ₀ x }
{
    x.rotate_right(2) ^ x.rotate_right(13) ^ x.rotate_right(22)
}

pub(crate) fn upper1(x: u32) -> u32
    ensures { result ≡ Σ₁ x }
{
    x.rotate_right(6) ^ x.rotate_right(11) ^ x.rotate_right(25)
}

pub(crate) fn lower0(x: u32) -> u32
    ensures { result ≡ σ₀ x }
{
    x.rotate_right(7) ^ x.rotate_right(18) ^ (x >> 3)
}

pub(crate) fn lower1(x: u32) -> u32
    ensures { result ≡ σ₁ x }
{
    x.rotate_right(17) ^ x.rotate_right(19) ^ (x >> 10)
}
