// Refusal 13 written out anew from document 01, for the programs that judge the core: nothing of it is borrowed from the core. The cells of
// a table are a count, a supply, six that nobody uses, and then 48 of each field: states from 8 on, control words from 56, demands from
// 104, classes from 152, latches from 200, and the seven counters from 248.
#![tactic(auto)]

ghost use Rattle.std.specs.Prelude.{◌≡◌, not, ◌<◌, ltb};
ghost use Rattle.lists.specs.Entries.{some};
ghost use Rattle.power.specs.Power.{tenths};
ghost use Rattle.class.specs.Class.{is_demand};
ghost use Rattle.control.specs.Control.{refused};
ghost use Rattle.table.specs.WellMade.{counters};
ghost use Rattle.cells.specs.Cells.{counts_of};
ghost use Rattle.ill.specs.Ill.{ill_at, ill_cells};

// "1:0 enable .. 11 reserved. 3:2 pair control: 01 .., 10 .., others reserved here. .. 15:6 zero."
pub fn bad_word(word: u64) -> bool
    ensures { result ≡ refused word }
{
    let enable = word % 4;
    let pair = word / 4 % 4;
    (64 <= word) | (enable == 3) | (pair == 0) | (pair == 3)
}

// "a demand not 0, 40, 70, 154 or 300"
fn bad_demand(demand: u16) -> bool
    ensures { result ≡ not (is_demand (tenths demand)) }
{
    !matches!(demand, 0 | 40 | 70 | 154 | 300)
}

// "a counter over 2,000"
fn bad_counter(cells: &[u16; 728], p: usize) -> bool
    requires { p < 48 }
    ensures { result ≡ some (ltb 2000) (counters (counts_of cells.now p)) }
{
    (0..7).any(|counter| 2_000 < cells[248 + 48 * counter + p])
}

// There are ten states and eight latches; "a counter over 2,000, a class over 4, a control word that a write refuses with 3, or a demand not .."
fn bad_port(cells: &[u16; 728], p: usize) -> bool
    requires { p < 48 }
    ensures { result ≡ ill_at cells.now p }
{
    (9 < cells[8 + p])
        | (256 <= cells[200 + p])
        | bad_counter(cells, p)
        | (4 < cells[152 + p])
        | bad_word(cells[56 + p] as u64)
        | bad_demand(cells[104 + p])
}

// "port count 0 or over 48; a stored supply over 60,000; or, in a port below the count, .."
fn ill_table(cells: &[u16; 728]) -> bool
    ensures { result ≡ ill_cells cells.now }
{
    let count = cells[0] as usize;
    if (count == 0) | (48 < count) | (60_000 < cells[1]) {
        return true;
    }
    for p in 0..count {
        if bad_port(cells, p) {
            return true;
        }
    }
    false
}

// Other cells than 728 are no table.
pub fn ill_made(cells: &[u16]) -> bool
    ensures { result ≡ ill_cells cells.now }
{
    match cells.as_array::<728>() {
        Some(cells) => ill_table(cells),
        None => true,
    }
}
