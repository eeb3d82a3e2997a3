// Numbers that bytes are, big-endian: 0 where there are fewer.
ghost use Rattle.std.specs.Prelude.{◌≡◌, get_or};
ghost use Rattle.demands.specs.Numbers.{part_at, short_at, long_at, number_at};

// So many bytes at a place, or as many zeros.
#[tactic(auto, unfolding(crate::specs::Numbers::part_at))]
fn part<const N: usize>(bytes: &[u8], at: usize) -> [u8; N]
    ensures { result ≡ part_at N bytes.now at }
{
    match bytes.get(at..) {
        Some(rest) => rest.first_chunk().copied().unwrap_or([0; N]),
        None => [0; N],
    }
}

pub fn byte_at(bytes: &[u8], at: usize) -> u8
    ensures { result ≡ get_or bytes.now at 0 }
{
    bytes.get(at).copied().unwrap_or(0)
}

pub fn word_at(bytes: &[u8], at: usize) -> u16
    ensures { result ≡ short_at bytes.now at }
{
    u16::from_be_bytes(part(bytes, at))
}

pub fn long_at(bytes: &[u8], at: usize) -> u32
    ensures { result ≡ long_at bytes.now at }
{
    u32::from_be_bytes(part(bytes, at))
}

pub fn number_at(bytes: &[u8], at: usize) -> u64
    ensures { result ≡ number_at bytes.now at }
{
    u64::from_be_bytes(part(bytes, at))
}
