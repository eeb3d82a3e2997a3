// What is judged of a tick: its number, the masks that it answered, the demands of the ports that they close, and what those ports have
// shown.
ghost use Rattle.std.specs.Prelude.{◌≡◌, ◌<◌};
ghost use Rattle.third_tests.specs.Answers.{closed_in, none_lost_in, demands_in, all_shown_in, sound_in};

use history::{TickAnswer, Tried};
use marks::BOTH;

// The port's bit is set in one of the two masks.
fn closed_in(answer: TickAnswer, p: usize) -> bool
    requires { p < 48 }
    ensures { result ≡ closed_in answer p }
{
    ((answer.a >> p) % 2 == 1) | ((answer.b >> p) % 2 == 1)
}

// No port that the first answer closes is open in the second.
pub fn none_lost(first: TickAnswer, second: TickAnswer) -> bool
    ensures { result ≡ none_lost_in first second }
{
    (0..48).all(|p| !closed_in(first, p) | closed_in(second, p))
}

// The sum of the demands of the ports that the answer closes. They stand from cell 104 on.
fn demands_in(cells: &[u16; 728], answer: TickAnswer) -> u32
    ensures { result ≡ demands_in cells.now answer }
{
    let mut sum = 0u32;
    for p in 0..48 {
        if closed_in(answer, p) {
            sum += cells[104 + p] as u32;
        }
    }
    sum
}

// No port outside the forced test state is closed unless it has shown both. The states stand from cell 8 on; the code of TEST_MODE is 8.
fn all_shown(cells: &[u16; 728], shown: &[u8; 48], answer: TickAnswer) -> bool
    ensures { result ≡ all_shown_in cells.now shown.now answer }
{
    (0..48).all(|p| !closed_in(answer, p) | (cells[8 + p] == 8) | (shown[p] == BOTH))
}

// One tick: it is accepted, which the number 0 says; the closed ports' demands add up to no more than its figure; and each has shown what
// it must.
pub fn sound(tried: Tried, figure: u32) -> bool
    ensures { result ≡ sound_in tried.cells tried.shown tried.answer figure }
{
    let answer = tried.answer;
    (answer.number == 0)
        & (demands_in(&tried.cells, answer) <= figure)
        & all_shown(&tried.cells, &tried.shown, answer)
}
