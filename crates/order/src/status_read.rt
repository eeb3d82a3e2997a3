// The first number of a status read.
ghost use Rattle.std.specs.Prelude.{◌≡◌};
ghost use Rattle.interface.specs.Statement1C.{first_number, status_list};

use ill::ill_made;

// "13 first, in every call that takes a table. .. Status: 2."
pub fn status_number(cells: &[u16], port: u64) -> u8
    ensures { result ≡ first_number (status_list cells.now port) }
{
    if ill_made(cells) {
        return 13;
    }
    if cells[0] as u64 <= port {
        return 2;
    }
    0
}
