// Faults gathered as bits: the field is the count of trailing zeros plus one.
#![tactic(auto)]

ghost use Rattle.std.specs.Prelude.{◌≡◌, [], ◌∷◌};
ghost use Rattle.std.specs.Int.Bits.{bit_or};
ghost use Rattle.octets.specs.Bytes.{pick};
ghost use Rattle.faults.specs.WorkingField.{bits_of, lowest};

// What is at fault, field by field.
#[derive(Clone, Copy)]
pub struct Faults {
    pub identifier: bool,
    pub sender: bool,
    pub sent: bool,
    pub status: bool,
    pub msg_type: bool,
    pub scope: bool,
    pub other: bool,
}

// One fault is noted, or not. A flag and no method of Faults: its clause takes any bits and any mask, and docs/PROMISES.md names it so.
pub fn noted(bits: u32, bad: bool, mask: u32) -> u32
    ensures { result ≡ pick bad (bit_or bits mask) bits }
{
    if bad { bits | mask } else { bits }
}

impl Faults {
    // The faults, gathered as bits, the first field the lowest.
    pub fn gathered(self) -> u32
        ensures { result ≡ bits_of (self.identifier ∷ self.sender ∷ self.sent ∷ self.status ∷ self.msg_type ∷ self.scope ∷ self.other ∷ []) }
    {
        u32::from(self.identifier)
            | u32::from(self.sender) << 1
            | u32::from(self.sent) << 2
            | u32::from(self.status) << 3
            | u32::from(self.msg_type) << 4
            | u32::from(self.scope) << 5
            | u32::from(self.other) << 6
    }

    // The field: the lowest of 1 to 6 at fault, else 7; 0 where none is, as `lowest` says, and the calls answer that number.
    pub fn field(self) -> u32
        ensures { result ≡ lowest (self.identifier ∷ self.sender ∷ self.sent ∷ self.status ∷ self.msg_type ∷ self.scope ∷ self.other ∷ []) }
    {
        let bits = self.gathered();
        if bits == 0 {
            0
        } else {
            bits.trailing_zeros() + 1
        }
    }
}
