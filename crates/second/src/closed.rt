// Whether the port at a place is closed, by its cell.
ghost use Rattle.std.specs.Prelude.{◌≡◌};
ghost use Rattle.second.specs.Answers.{closed_cell};

// "A port is closed exactly in POWER_UP, POWER_ON and TEST_MODE": codes 5, 6 and 8. The states stand from cell 8 on, the port count in cell
// 0; "places at or past the port count .. count as open".
pub fn is_closed(cells: &[u16; 728], p: u8) -> bool
    ensures { result ≡ closed_cell cells.now p }
{
    let place = p as usize;
    let state = cells[8 + place];
    (place < cells[0] as usize) & ((state == 5) | (state == 6) | (state == 8))
}
