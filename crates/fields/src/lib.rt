// The fields of a power TLV, in both its forms.
#![tactic(auto)]

ghost use Rattle.std.specs.Prelude.{◌≡◌};
ghost use Rattle.fields.specs.Fields.{too_high, bad_values};

use sizes::MOST_VALUE;

// Document 01: "three octets kept as they are (support, pair, class)."
#[derive(Clone, Copy, PartialEq, Eq)]
pub struct Fields {
    pub support: u8,
    pub pair: u8,
    pub class: u8,
    pub form: Form,
}

// Document 01: "Length 7 ends there. Length 12 adds one octet .. and the requested and allocated values".
// No Option<Added>, which is no plainer: these are the document's two forms, and the short one lacks nothing.
#[derive(Clone, Copy, PartialEq, Eq)]
pub enum Form {
    Short,
    Long(Added),
}

// As wide as a caller's numbers may be: the writer refuses those that are too large, and never cuts one.
#[derive(Clone, Copy, PartialEq, Eq)]
pub struct Added {
    pub kind: u64,
    pub source: u64,
    pub priority: u64,
    pub requested: u64,
    pub allocated: u64,
}

#[tactic(auto, unfolding(crate::specs::Fields::too_high))]
fn too_high(value: u64) -> bool
    ensures { result ≡ too_high value }
{
    MOST_VALUE < value
}

// Refusal 10, of the reader and of the writer.
#[tactic(auto, unfolding(crate::specs::Fields::bad_values))]
pub fn bad_values(form: Form) -> bool
    ensures { result ≡ bad_values form }
{
    match form {
        Form::Short => false,
        Form::Long(added) => too_high(added.requested) || too_high(added.allocated),
    }
}
