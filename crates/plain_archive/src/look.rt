// How many of the waiting entries a look at the archive gives.
ghost use Rattle.std.specs.Prelude.{◌≡◌};
ghost use Rattle.archive_terms.specs.Glimpse.{given};

use archive_terms::laws::given_is_the_greatest;

/// How many of the waiting entries are given, by the octets of their frames: they end with the
/// room, or with the one that reaches the wanted octets.
pub fn given(room: usize, octets: u64, lengths: &[u32]) -> usize
    ensures { result ≡ given room octets lengths.now }
{
    given_is_the_greatest();
    let mut sum = 0u128;
    let mut count = 0usize;
    while count < lengths.len() {
        if count == room || u128::from(octets) <= sum {
            return count;
        }
        sum += u128::from(lengths[count]);
        count += 1;
    }
    count
}
