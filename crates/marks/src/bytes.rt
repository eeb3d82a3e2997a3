// Numbers that bytes are, big-endian. Past the last byte stands 0.
ghost use Rattle.std.specs.Prelude.{◌≡◌, ◌<◌, get_or};
ghost use Rattle.lists.specs.Bytes.{word_at};

fn byte_at(bytes: &[u8], at: usize) -> u64
    ensures { (result ≡ get_or bytes.now at 0) × (result < 256) }
{
    match bytes.get(at) {
        Some(byte) => *byte as u64,
        None => 0,
    }
}

pub fn word_at(bytes: &[u8], at: usize) -> u64
    ensures { (result ≡ word_at bytes.now at) × (result < 65536) }
{
    if bytes.len() <= at {
        return 0;
    }
    256 * byte_at(bytes, at) + byte_at(bytes, at + 1)
}
