// Numbers in bytes, the lowest byte first, and in two's complement.
ghost use Rattle.std.specs.Prelude.{◌≡◌, ◌+◌, ◌≤◌, ◌<◌, length};
ghost use Rattle.std.proofs.lemmas.List.Edits.{sets};
ghost use Rattle.field.specs.Field.{low_first, signed_by};
ghost use Rattle.field.specs.Spelling.{bytes_of, twos_by};

// How many numbers of 32 and of 64 bits are below 0: the first half stand for themselves.
pub const HALF_32: u64 = 2147483648;

pub const HALF_64: u64 = 9223372036854775808;

// The number that `width` bytes from `at` on spell.
#[tactic(auto, using(crate::proofs::Fields::low_first_none, crate::proofs::Fields::low_first_more, crate::proofs::Fields::low_most, crate::proofs::Spelling::limit7))]
pub fn low_first(s: &[u8], at: usize, width: usize) -> usize
    requires width_bound { width ≤ 8 }
    requires width_in_bounds { at + width ≤ length s.now }
    ensures { result ≡ low_first width s.now at }
{
    let mut v: usize = 0;
    // By the index: of an iterator from the end only what is left is known, so that the proof is 40 lines where this one has 8.
    for i in (0..width).rev() {
        v = v * 256 + s[at + i] as usize;
    }
    v
}

// Puts x in `width` bytes from `at` on, and answers the place past them.
#[tactic(auto, using(crate::proofs::Spelling::none_left, crate::proofs::Spelling::part_put))]
pub fn put_low_first(out: &mut [u8], at: usize, width: usize, x: u64) -> usize
    requires { at + width ≤ length out.old }
    ensures place { result ≡ at + width }
    ensures bytes { out.new ≡ sets out.old at (bytes_of width x) }
{
    let mut rest = x;
    for byte in out[at..at + width].iter_mut() {
        *byte = (rest % 256) as u8;
        rest /= 256;
    }
    at + width
}

// The number that bits stand for, where `half` of the numbers that they can spell are below 0.
// By hand, since it serves both widths: the library has a `cast_signed` for each.
pub fn from_twos(v: u64, half: u64) -> i64
    requires { (v < half + half) × (half ≤ 9223372036854775808) }
    ensures { result ≡ signed_by half v }
{
    if v < half {
        v as i64
    } else {
        -1 - ((half - 1 - (v - half)) as i64)
    }
}

// The 64 bits of a number.
#[tactic(auto, unfolding(crate::specs::Spelling::twos_by))]
pub fn to_twos(z: i64) -> u64
    ensures { result ≡ twos_by 9223372036854775808 z }
{
    z.cast_unsigned()
}
