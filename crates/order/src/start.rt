// The first number of a cold start.
ghost use Rattle.std.specs.Prelude.{◌≡◌};
ghost use Rattle.interface.specs.Statement1C.{first_number, start_list};

// "a cold start asked for 0 or over 48 ports"; another number of cells than a table has is refused before that.
pub fn start_number(cells: &[u16], ports: u64) -> u8
    ensures { result ≡ first_number (start_list cells.now ports) }
{
    if cells.len() != 728 {
        return 13;
    }
    if (ports == 0) | (48 < ports) {
        return 2;
    }
    0
}
