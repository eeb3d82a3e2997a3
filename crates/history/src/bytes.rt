// A number that bytes are, big-endian. Past the last byte stands 0.
ghost use Rattle.std.specs.Prelude.{◌≡◌, ◌+◌, ◌<◌, ◌^◌};
ghost use Rattle.history.specs.Decode.{number_at};

use marks::bytes::word_at;

// Four bytes: as wide as the C functions take a number.
pub fn number_at(bytes: &[u8], at: usize) -> u32
    requires { at + 3 < 2 ^ 64 }
    ensures { result ≡ number_at bytes.now at }
{
    (word_at(bytes, at) * 65_536 + word_at(bytes, at + 2)) as u32
}
