// What a tick leaves as it was.
ghost use Rattle.std.specs.Prelude.{◌≡◌};
ghost use Rattle.second.specs.Untouched.{may_change, rest_kept};

// A tick may change the stored figure, cell 1, and the fields of a port below the count except the control words, which stand from cell 56
// on. Field f of port p stands in cell 8 + 48 f + p, and there are twelve fields: what comes after is nobody's. So "places at or past the
// port count .. never change", nor does the count, cell 0.
fn may_change(k: usize, ports: usize) -> bool
    ensures { result ≡ may_change k ports }
{
    if k < 8 {
        return k == 1;
    }
    ((k < 56) | (104 <= k)) & (k < 584) & ((k - 8) % 48 < ports)
}

// All cells are compared, also past one that differs: a loop that may end early is not made of the processor's wide operations.
pub fn rest_kept(before: &[u16; 728], after: &[u16; 728]) -> bool
    ensures { result ≡ rest_kept before.now after.now }
{
    let ports = before[0] as usize;
    let mut kept = true;
    for k in 0..728 {
        kept &= may_change(k, ports) | (after[k] == before[k]);
    }
    kept
}
