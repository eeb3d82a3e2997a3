// What a tick reads off its sample block: the flags of every port, and what a port's sample tells its move.
#![tactic(auto)]

pub mod digest;

ghost use Rattle.std.specs.Prelude.{◌≡◌, ◌+◌, ◌*◌, ◌/◌, ◌<◌, ◌≤◌, length};
ghost use Rattle.sizes.specs.Sizes.{most_ports, sample_bytes};
ghost use Rattle.block.specs.Flags.{flags_of_port, flags_fine, flag_lane, some_fine, some_laid, flags_clean, flags_laid};

use sizes::{PORTS, SAMPLE};

// A port's flags alone: most moves look at nothing else. Read as sample::word_at reads, which asks something of its caller and so is of its
// crate alone.
#[tactic(auto, unfolding(crate::specs::Flags::flags_of_port, sample::specs::Sample::sample_at, lists::specs::Bytes::word_at))]
fn flags_at(block: &[u8], port: usize) -> u16
    requires { port < length block.now / sample_bytes }
    ensures { result ≡ flags_of_port block.now port }
{
    let at = SAMPLE * port + 12;
    u16::from_be_bytes([block[at], block[at + 1]])
}

// The flags of so many ports from one on. All are read, also past one that is not fine: a loop that may end early takes longer.
#[tactic(auto, unfolding(crate::specs::Flags::some_fine, crate::specs::Flags::some_laid))]
fn some_flags(block: &[u8], from: usize, many: usize, lane: &mut [u16]) -> bool
    requires { (from + many ≤ length block.now / sample_bytes) × (from + many ≤ most_ports) × (length lane.old ≡ most_ports) }
    ensures value { result ≡ some_fine block.now from many }
    ensures lane_after { lane.new ≡ some_laid block.now from many lane.old }
{
    let mut clean = true;
    for k in 0..many {
        let word = flags_at(block, from + k);
        lane[from + k] = word;
        clean &= word < 64;
    }
    clean
}

// Eight ports at a time, so that the loop over them is laid out in full: a compiler that is shown one loop over all would gather bytes for
// many, which takes twice as long.
fn all_flags(block: &[u8], n: usize, lane: &mut [u16]) -> bool
    requires { (length block.now ≡ sample_bytes * n) × (n ≤ most_ports) × (length lane.old ≡ most_ports) }
    ensures value { result ≡ flags_fine n block.now }
    ensures lane_after { lane.new ≡ flag_lane n block.now lane.old }
{
    let mut clean = true;
    for k in 0..n / 8 {
        clean &= some_flags(block, 8 * k, 8, lane);
    }
    clean & some_flags(block, n / 8 * 8, n % 8, lane)
}

// The flags of every port into the lane, of a block that is as long as n ports make it. Has none a reserved bit set?
#[tactic(auto, unfolding(crate::specs::Flags::flags_fit, crate::specs::Flags::flags_clean, crate::specs::Flags::flags_laid))]
pub fn flags_into(block: &[u8], n: usize, lane: &mut [u16]) -> bool
    ensures value { result ≡ flags_clean n block.now lane.old }
    ensures lane_after { lane.new ≡ flags_laid n block.now lane.old }
{
    if PORTS < n || block.len() != SAMPLE * n || lane.len() != PORTS {
        return false;
    }
    all_flags(block, n, lane)
}
