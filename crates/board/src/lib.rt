// The boards that stand on this core, and what differs between them. Whatever is not here knows no board.
#![tactic(auto)]

ghost use Rattle.std.specs.Prelude.{◌≡◌, ◌≤◌};
ghost use Rattle.board.specs.Boards.{sample_bytes, class_shown, most_class, budget_of, forced_claim, cold_word, refused, over_class, demand_for, closed_number};

use class::{ClassReading, class_of_two};
use control::by_mask;
use four_pair::class_of_three;
use power::Power;

#[derive(Clone, Copy)]
pub enum Board {
    // The access switch of document 01: each port feeds one pairset.
    Access,
    // The four-pair model of request [13]: each port feeds both pairsets under one grant.
    FourPair,
}

pub fn sample_size(board: Board) -> usize
    ensures { (result ≡ sample_bytes board) × (14 ≤ result) × (result ≤ 16) }
{
    match board {
        Board::Access => 14,
        Board::FourPair => 16,
    }
}

pub fn class_shown(board: Board, c1: u16, c2: u16, c3: u16) -> ClassReading
    ensures { result ≡ class_shown board c1 c2 c3 }
{
    match board {
        Board::Access => class_of_two(c1, c2),
        Board::FourPair => class_of_three(c1, c2, c3),
    }
}

pub fn most_class(board: Board) -> u16
    ensures { (result ≡ most_class board) × (result ≤ 6) }
{
    match board {
        Board::Access => 4,
        Board::FourPair => 6,
    }
}

pub fn budget(board: Board, class: u8) -> Power
    ensures { result ≡ budget_of board class }
{
    match board {
        Board::Access => class::budget(class),
        Board::FourPair => four_pair::budget(class),
    }
}

// What a port in the forced test state claims.
pub fn forced_claim(board: Board) -> Power
    ensures { result ≡ forced_claim board }
{
    match board {
        Board::Access => Power::FORCED,
        Board::FourPair => Power(140),
    }
}

// Enable 00, the pair control that the board starts with, priority unknown.
pub fn cold_word(board: Board) -> u16
    ensures { result ≡ cold_word board }
{
    match board {
        Board::Access => 0x0004,
        Board::FourPair => 0x000C,
    }
}

// Enable 11, or pair control other than 11.
const NOT_BOTH: u64 = 0x8fff_8fff_8fff_8fff;

// A write of a word is refused with 3. The number may be wider than a word: what stands above bit 15 is reserved too.
#[tactic(auto, using(crate::proofs::Words::access_told, crate::proofs::Words::both_told))]
pub fn refused(board: Board, word: u64) -> bool
    ensures { result ≡ refused board word }
{
    match board {
        Board::Access => control::refused(word),
        Board::FourPair => by_mask(NOT_BOTH, word),
    }
}

// A request of a port of a class is refused with 11.
pub fn over_class(board: Board, value: u64, class: u8) -> bool
    ensures { result ≡ over_class board value class }
{
    match board {
        Board::Access => class::over_class(value, class),
        Board::FourPair => four_pair::over_class(value, class),
    }
}

// The demand that a request becomes.
pub fn demand_for(board: Board, value: u64, class: u8) -> Power
    ensures { result ≡ demand_for board value class }
{
    match board {
        Board::Access => class::level_of(value),
        Board::FourPair => four_pair::demand_for(value, class),
    }
}

pub fn closed_number(board: Board, a: u64, b: u64) -> u32
    ensures { result ≡ closed_number board a b }
{
    match board {
        Board::Access => a.count_ones() + b.count_ones(),
        Board::FourPair => a.count_ones(),
    }
}
