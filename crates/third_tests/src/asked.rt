// What the demand asks of its arguments. Nothing here looks at a table or calls the core.
ghost use Rattle.std.specs.Prelude.{◌≡◌, ◌*◌, ◌≤◌, length};
ghost use Rattle.third_tests.specs.Asks.{flags_clear, asks};

// Document 01: of a port's fourteen bytes the last two are the flags, "15:6 zero".
fn flags_clear(block: &[u8], ports: usize) -> bool
    requires { (ports ≤ 48) × (length block.now ≡ 14 * ports) }
    ensures { result ≡ flags_clear ports block.now }
{
    (0..ports).all(|p| (block[14 * p + 12] == 0) & (block[14 * p + 13] < 64))
}

// Document 01: "1 to 48 Type 2 ports"; "supply figure over 60,000" is refused; "14 bytes a port".
pub fn asked(ports: u32, block: &[u8], less: u32, more: u32) -> bool
    ensures { result ≡ asks ports block.now less more }
{
    if (ports < 1) | (48 < ports) {
        return false;
    }
    if (more < less) | (60_000 < more) {
        return false;
    }
    if block.len() != 14 * ports as usize {
        return false;
    }
    flags_clear(block, ports as usize)
}
