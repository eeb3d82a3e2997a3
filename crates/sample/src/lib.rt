// A port's sample: 14 bytes of a block, and the six flags of its last number.
#![tactic(auto)]

ghost use Rattle.std.specs.Prelude.{◌≡◌, ◌+◌, ◌<◌, length};
ghost use Rattle.lists.specs.Bits.{bit};
ghost use Rattle.lists.specs.Bytes.{word_at};
ghost use Rattle.sample.specs.Sample.{sample_of, flags_of};

use sizes::SAMPLE;

// Voltages in mV, currents in µA.
#[derive(Clone, Copy)]
pub struct Sample {
    pub v1: u16,
    pub v2: u16,
    pub i1: u16,
    pub i2: u16,
    pub c1: u16,
    pub c2: u16,
    pub flags: u16,
}

#[tactic(auto, unfolding(lists::specs::Bytes::word_at))]
fn word_at(block: &[u8], at: usize) -> u16
    requires { at + 1 < length block.now }
    ensures { result ≡ word_at block.now at }
{
    u16::from_be_bytes([block[at], block[at + 1]])
}

// None: the block ends before the port's fourteen bytes do.
#[tactic(auto, unfolding(crate::specs::Sample::sample_of, crate::specs::Sample::sample_at))]
pub fn sample_of(block: &[u8], port: usize) -> Option<Sample>
    ensures { result ≡ sample_of block.now port }
{
    if port < block.len() / SAMPLE {
        let at = SAMPLE * port;
        Some(Sample {
            v1: word_at(block, at),
            v2: word_at(block, at + 2),
            i1: word_at(block, at + 4),
            i2: word_at(block, at + 6),
            c1: word_at(block, at + 8),
            c2: word_at(block, at + 10),
            flags: word_at(block, at + 12),
        })
    } else {
        None
    }
}

#[derive(Clone, Copy)]
pub struct Flags {
    pub detection_done: bool,
    pub class_done: bool,
    pub settled: bool,
    pub limiting: bool,
    pub overload: bool,
    pub load: bool,
}

#[tactic(auto, unfolding(crate::specs::Sample::flags_of, lists::specs::Bits::bit))]
pub fn flags_of(flags: u16) -> Flags
    ensures { result ≡ flags_of flags }
{
    let bit = |k: u32| -> bool
        requires { k < 6 }
        ensures { result ≡ bit k flags }
    { flags >> k & 1 == 1 };
    Flags {
        detection_done: bit(0),
        class_done: bit(1),
        settled: bit(2),
        limiting: bit(3),
        overload: bit(4),
        load: bit(5),
    }
}
