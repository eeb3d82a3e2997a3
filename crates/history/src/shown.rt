// What every port has shown since it last stood in IDLE.
ghost use Rattle.std.specs.Prelude.{◌≡◌};
ghost use Rattle.history.specs.Marks.{noted_all};

use marks::noted;

// Every port's mark after a call.
pub fn note(cells: &[u16; 728], ticked: bool, block: &[u8], shown: &mut [u8; 48])
    ensures { shown.new ≡ noted_all cells.now ticked block.now shown.old }
{
    for p in 0..48 {
        shown[p] = noted(cells[8 + p], ticked, block, p as u8, shown[p]);
    }
}
