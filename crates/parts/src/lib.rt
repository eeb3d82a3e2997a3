// The words of a line, each parted from the next by one space, and the numbers and bytes that they are.
#![tactic(auto)]

ghost use Rattle.std.specs.Prelude.{◌≡◌, ◌==◌, true, not, ◌++◌, ◌≤◌, ◌/◌, length, take, drop, get_or};
ghost use Rattle.std.specs.List.{prefix_len};
ghost use Rattle.lists.specs.Every.{every};
ghost use Rattle.parts.specs.Decimal.{more_of, number_in};
ghost use Rattle.parts.specs.Hex.{digit_in, is_hex, pair_of, bytes_in, bytes_of, room_after};
ghost use Rattle.parts.specs.Numbers.{numbers_in};
ghost use Rattle.parts.specs.Words.{words, word_at};

// The first bytes of a slice, as far as they go.
pub fn front(bytes: &[u8], n: usize) -> &[u8]
    ensures { result.now ≡ take n bytes.now }
{
    &bytes[..n.min(bytes.len())]
}

// One more than the spaces: an empty word is counted, and is no command, number or bytes.
pub fn count(line: &[u8]) -> usize
    ensures { result ≡ length (words line.now) }
{
    let mut n = 1;
    for b in line {
        if *b == b' ' {
            n += 1;
        }
    }
    n
}

// Where the word begins that stands after so many spaces.
fn start(line: &[u8], spaces: usize) -> usize
    ensures { (result ≤ length line.now) × (word_at (drop result line.now) 0 ≡ word_at line.now spaces) }
{
    let mut left = spaces;
    for (i, b) in line.iter().enumerate() {
        if left == 0 {
            return i;
        }
        if *b == b' ' {
            left -= 1;
        }
    }
    line.len()
}

// Where a line's first word ends.
fn end(line: &[u8]) -> usize
    ensures { result ≡ prefix_len (λ b. not (b == 32)) line.now }
{
    line.iter().take_while(|b| **b != b' ').count()
}

pub fn word(line: &[u8], k: usize) -> &[u8]
    ensures { result.now ≡ word_at line.now k }
{
    let rest = &line[start(line, k)..];
    &rest[..end(rest)]
}

// One digit more, unless the number is then over 64 bits.
fn more(n: u64, b: u8) -> Option<u64>
    ensures { result ≡ more_of n b }
{
    if !b.is_ascii_digit() {
        return None;
    }
    n.checked_mul(10)?.checked_add((b - b'0') as u64)
}

// Zeros may stand in front: what counts is the number.
pub fn number_of(word: &[u8]) -> Option<u64>
    ensures { result ≡ number_in word.now }
{
    if word.is_empty() {
        return None;
    }
    let mut n = 0;
    for b in word {
        n = more(n, *b)?;
    }
    Some(n)
}

// The numbers of a line after its command, if there are just so many and each is one.
#[tactic(auto, using(crate::proofs::NumbersLaws::too_many, crate::proofs::NumbersLaws::other_count))]
pub fn numbers_of(line: &[u8], many: usize) -> Option<[u64; 9]>
    ensures { result ≡ numbers_in line.now many }
{
    let mut n = [0; 9];
    if n.len() < many || count(line) != many + 1 {
        return None;
    }
    for i in 0..many {
        n[i] = number_of(word(line, i + 1))?;
    }
    Some(n)
}

// What a hex digit says.
fn nibble(b: u8) -> Option<u8>
    ensures { result ≡ digit_in b }
{
    match b {
        b'0'..=b'9' => Some(b - b'0'),
        b'A'..=b'F' => Some(b - b'A' + 10),
        b'a'..=b'f' => Some(b - b'a' + 10),
        _ => None,
    }
}

fn all_hex(word: &[u8]) -> bool
    ensures { result ≡ every (length word.now) (λ p. is_hex (get_or word.now p 0)) }
{
    word.iter().all(|b| b.is_ascii_hexdigit())
}

// Both are hex digits. With a value beside `None` there is no branch, and `fill` takes many pairs at a time.
#[tactic(auto, using(crate::proofs::Hex::digit_is, crate::proofs::Hex::hex_small))]
fn pair(high: u8, low: u8) -> u8
    requires high_value { is_hex high ≡ true }
    requires low_value { is_hex low ≡ true }
    ensures { result ≡ pair_of high low }
{
    16 * nibble(high).unwrap_or(0) + nibble(low).unwrap_or(0)
}

fn fill(word: &[u8], room: &mut [u8])
    requires word_in_bounds { length word.now / 2 ≤ length room.old }
    requires p_value { every (length word.now) (λ p. is_hex (get_or word.now p 0)) ≡ true }
    ensures { room.new ≡ bytes_in word.now ++ drop (length word.now / 2) room.old }
{
    for i in 0..word.len() / 2 {
        room[i] = pair(word[2 * i], word[2 * i + 1]);
    }
}

// Pairs of hex digits in either case, or `-` for no bytes: how many bytes, from the room's start on. A bad word leaves the room as it is.
pub fn bytes_of(word: &[u8], room: &mut [u8]) -> Option<usize>
    ensures { (result ≡ bytes_of word.now room.old) × (room.new ≡ room_after word.now room.old) }
{
    if word == b"-".as_slice() {
        return Some(0);
    }
    let n = word.len() / 2;
    if word.is_empty() || word.len() % 2 != 0 || room.len() < n || !all_hex(word) {
        return None;
    }
    fill(word, room);
    Some(n)
}
