// The first number of a tick.
ghost use Rattle.std.specs.Prelude.{◌≡◌, ◌*◌, ◌<◌, length};
ghost use Rattle.lists.specs.Every.{some_below};
ghost use Rattle.sample.specs.Sample.{sample_at, reserved_flags};
ghost use Rattle.interface.specs.Statement1C.{first_number, tick_list};

use ill::ill_made;

// "reserved bits .. in sample flags": the last two of a port's fourteen bytes, of which "15:6 zero".
fn bad_flags(block: &[u8], ports: usize) -> bool
    requires { length block.now ≡ 14 * ports }
    ensures { result ≡ some_below ports (λ p. reserved_flags (sample_at block.now (14 * p)).flags) }
{
    (0..ports).any(|p| {
        let at = 14 * p + 12;
        64 <= u16::from_be_bytes([block[at], block[at + 1]])
    })
}

// "Tick: 1, 4, 3."
pub fn tick_number(cells: &[u16], block: &[u8], figure: u64) -> u8
    ensures { result ≡ first_number (tick_list cells.now block.now figure) }
{
    if ill_made(cells) {
        return 13;
    }
    let ports = cells[0] as usize;
    if block.len() != 14 * ports {
        return 1;
    }
    if 60_000 < figure {
        return 4;
    }
    if bad_flags(block, ports) {
        return 3;
    }
    0
}
