// The first number of a control write.
ghost use Rattle.std.specs.Prelude.{◌≡◌};
ghost use Rattle.interface.specs.Statement1C.{first_number, control_list};

use ill::{bad_word, ill_made};

// "Control word: 2, 3, 5."; "A write that changes the alternative of a port not in DISABLED is refused with 5."
pub fn control_number(cells: &[u16], port: u64, word: u64) -> u8
    ensures { result ≡ first_number (control_list cells.now port word) }
{
    if ill_made(cells) {
        return 13;
    }
    if cells[0] as u64 <= port {
        return 2;
    }
    if bad_word(word) {
        return 3;
    }
    let p = port as usize;
    let present = cells[56 + p] as u64;
    if (present / 4 % 4 != word / 4 % 4) & (cells[8 + p] != 0) {
        return 5;
    }
    0
}
