// What a tick is told of a port by this board's sample.
ghost use Rattle.std.specs.Prelude.{◌≡◌, cond};
ghost use Rattle.class.specs.Class.{class_of_two};
ghost use Rattle.signature.specs.Signature.{signature_of};
ghost use Rattle.block.specs.Digest.{detection_of, classing_of, digest};

use class::{Failure, budget, class_of_two};
use port::form::{Classing, Detection, Reading};
use sample::{Sample, flags_of};
use signature::{Signature, signature_of};

fn detection_of(signature: Signature) -> Detection
    ensures { result ≡ detection_of signature }
{
    match signature {
        Signature::Valid => Detection::Valid,
        Signature::Invalid => Detection::Invalid,
        Signature::Open => Detection::Open,
    }
}

fn classing_of(shown: Result<u8, Failure>) -> Classing
    ensures { result ≡ classing_of shown }
{
    match shown {
        Ok(k) => Classing::Is(k, budget(k)),
        Err(Failure::OverCurrent) => Classing::OverCurrent,
        Err(Failure::Disagree) => Classing::Disagree,
    }
}

fn detection(done: bool, s: Sample) -> Detection
    ensures { result ≡ cond done (detection_of (signature_of s.v1 s.v2 s.i1 s.i2)) Detection.NotDone }
{
    if done {
        detection_of(signature_of(s.v1, s.v2, s.i1, s.i2))
    } else {
        Detection::NotDone
    }
}

fn classing(done: bool, s: Sample) -> Classing
    ensures { result ≡ cond done (classing_of (class_of_two s.c1 s.c2).shown) Classing.NotDone }
{
    if done {
        classing_of(class_of_two(s.c1, s.c2).shown)
    } else {
        Classing::NotDone
    }
}

#[tactic(auto, unfolding(crate::specs::Digest::digest))]
pub fn digest_of(sample: Sample) -> Reading
    ensures { result ≡ digest sample }
{
    let flags = flags_of(sample.flags);
    let detection = detection(flags.detection_done, sample);
    let class = classing(flags.class_done, sample);
    Reading {
        detection,
        class,
        settled: flags.settled,
        limiting: flags.limiting,
        overload: flags.overload,
        load: flags.load,
    }
}
