// The nine numbers that a C caller hands in for the fields of a power TLV: whether they are fields, and of which form.
#![tactic(auto)]

ghost use Rattle.std.specs.Prelude.{◌≡◌};
ghost use Rattle.numbers.specs.Numbers.{no_form, no_fields, form_given};

use fields::{Added, Form};

#[tactic(auto, unfolding(crate::specs::Numbers::no_form))]
fn no_form(form: u32) -> bool
    ensures { result ≡ no_form form }
{
    !matches!(form, 7 | 12)
}

// Refusal 3 of the form and the octets.
#[tactic(auto, unfolding(crate::specs::Numbers::no_fields))]
pub fn no_fields(numbers: &[u32; 9]) -> bool
    ensures { result ≡ no_fields numbers.now }
{
    no_form(numbers[0]) || numbers[1..4].iter().any(|octet| 255 < *octet)
}

#[tactic(auto, unfolding(crate::specs::Numbers::form_given))]
pub fn form_given(numbers: &[u32; 9]) -> Form
    ensures { result ≡ form_given numbers.now }
{
    let [form, _, _, _, kind, source, priority, requested, allocated] = numbers.map(u64::from);
    if form == 7 {
        Form::Short
    } else {
        Form::Long(Added {
            kind,
            source,
            priority,
            requested,
            allocated,
        })
    }
}
