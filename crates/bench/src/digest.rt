// A digest of many numbers.
ghost use Rattle.std.specs.Prelude.{◌≡◌, ◌%◌};
ghost use Rattle.bench.specs.Digest.{digests, mix};

const DIGESTS: usize = 4294967296;

pub(crate) fn low(x: usize) -> u32
    ensures { result ≡ x % digests }
{
    // The remainder is shown to fit.
    (x % DIGESTS) as u32
}

pub fn mixed(digest: u32, number: u32) -> u32
    ensures { result ≡ mix digest number }
{
    digest.wrapping_mul(31).wrapping_add(number)
}
