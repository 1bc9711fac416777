// Signs and magnitudes of confidences, one number at a time.
ghost use Rattle.std.specs.Prelude.{◌≡◌, ◌^◌, ◌<◌, nat_abs};
ghost use Rattle.hadamard.specs.Correlation.{signed, constant_of};
ghost use Rattle.confidences.specs.Confidences;

// z, negated where s is below 0.
pub fn turned(s: i32, z: i32) -> i32
    requires { nat_abs z < 2 ^ 31 }
    ensures { result ≡ signed (constant_of s) z }
{
    if s < 0 { 0 - z } else { z }
}

// The product of the signs and the smaller magnitude.
pub fn joint(y: i32, z: i32) -> i32
    requires { (nat_abs y < 2 ^ 29) × (nat_abs z < 2 ^ 29) }
    ensures { result ≡ Rattle.confidences.specs.Confidences.joint y z }
{
    (peaks::absolute(y + z) - peaks::absolute(y - z)) >> 1
}

// The number cut to the range.
pub fn cut(z: i32) -> i32
    requires { nat_abs z < 2 ^ 31 }
    ensures { result ≡ Rattle.confidences.specs.Confidences.cut z }
{
    if z < -2047 {
        return -2047;
    }
    if 2047 < z {
        return 2047;
    }
    z
}
