// "The numbers a refusal gives", under the names that include/ipaqsuni.h has for them.
ghost use Rattle.std.specs.Prelude.{◌≡◌};
ghost use Rattle.sizes.specs.Refused.{number};

#[derive(Clone, Copy, PartialEq, Eq)]
pub enum Refusal {
    // "a sample block isn't 14 bytes per port; a PDU is over 1,500 bytes; the room for a written TLV is too short"
    BadLength = 1,
    // "port number not below the port count; a cold start asked for 0 or over 48 ports"
    NoSuchPort = 2,
    // "reserved bits or codes in a control word or in sample flags; a type, source or priority code over 3 handed to the writer"
    Reserved = 3,
    // "supply figure over 60,000"
    SupplyTooLarge = 4,
    // "port in the wrong state for the call"
    WrongState = 5,
    // "a TLV runs past the end of the bytes"
    Cut = 6,
    // "no power TLV in the PDU"
    NoTlv = 7,
    // "more than one power TLV in the PDU"
    SeveralTlvs = 8,
    // "the bytes aren't exactly one power TLV of length 7 or 12"
    NotOneTlv = 9,
    // Request [4] of document 02, where document 01 has "power value outside 1..255": of a TLV "only above 999", of a request "0 or above 999"
    BadValue = 10,
    // "request over the port's class", by request [4] "256 to 999" too
    OverClass = 11,
    // "request doesn't fit the supply"
    OverSupply = 12,
    // "ill-made table"
    IllMade = 13,
}

impl Refusal {
    // As document 01 and C name it.
    pub fn number(self) -> u8
        ensures { result ≡ number self }
    {
        self as u8
    }
}
