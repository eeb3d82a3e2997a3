// What a call did, held against the number that is due: the first whose condition holds, and 0 if none does.
#![tactic(auto)]

ghost use Rattle.std.specs.Prelude.{◌≡◌, cond, not, ◌&&◌, eqb};
ghost use Rattle.std.specs.Cmp.Lexicographic.{pointwise};
ghost use Rattle.verdict.specs.declared.Verdict.TheVariants.{Held, Broken};

use verdict::Verdict;

// As many, and each the same: cells or bytes, as they were lent and as they are after the call.
pub fn same<T: PartialEq>(before: &[T], after: &[T]) -> bool
    ensures { result ≡ pointwise T.eq before.now after.now }
{
    before == after
}

// A call that answered: no condition may hold.
pub fn answered(due: u8) -> Verdict
    ensures { result ≡ cond (eqb due 0) Held Broken }
{
    if due == 0 {
        Verdict::Held
    } else {
        Verdict::Broken
    }
}

// A call that refused: the number is the one that is due, and nothing was changed. No refusal is numbered 0.
pub fn refused(due: u8, number: u8, unchanged: bool) -> Verdict
    ensures { result ≡ cond ((eqb number due && not (eqb number 0)) && unchanged) Held Broken }
{
    if (number == due) & (number != 0) & unchanged {
        Verdict::Held
    } else {
        Verdict::Broken
    }
}
