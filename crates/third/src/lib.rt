// The third demand: "Take any table that calls can reach from a cold start, one block of samples, and two supply figures, each within
// range; let the tick be accepted. Every port closed under the smaller figure is closed under the greater. Under either, the closed
// ports' demands add up to no more than that figure, and no port outside the forced test state is closed unless, since it last stood in
// IDLE, it showed a valid signature and gave a class."
#![tactic(auto)]

ghost use Rattle.std.specs.Prelude.{◌≡◌, cond};
ghost use Rattle.verdict.specs.declared.Verdict.TheVariants.{Held, NotAsked};
ghost use Rattle.third_tests.specs.Asks.{asks};

use history::{run, tick_from};
use third_tests::answers::{none_lost, sound};
use third_tests::asked::asked;
use verdict::Verdict;

// The history is any bytes. The C functions run it from a cold start; then the tick, theirs too, is made twice from the table that was
// reached, once on each figure. Ports and figures are as wide as these functions take them.
pub fn third_demand(history: &[u8], ports: u32, block: &[u8], less: u32, more: u32) -> Verdict
    ensures { result ≡ cond (asks ports block.now less more) Held NotAsked }
{
    if !asked(ports, block, less, more) {
        return Verdict::NotAsked;
    }
    let reached = run(history, ports);
    let small = tick_from(reached, block, less);
    let great = tick_from(reached, block, more);
    if sound(small, less) & sound(great, more) & none_lost(small.answer, great.answer) {
        Verdict::Held
    } else {
        Verdict::Broken
    }
}
