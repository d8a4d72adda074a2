//! What is wrong with a block, or with a field that is to be written.
ghost use Rattle.std.specs.Prelude.{◌≡◌};
ghost use Rattle.tags.specs.Faults.{fault_number, fault_place, refusal_number};

/// Why a block does not read.
#[derive(Clone, Copy, Debug, PartialEq, Eq)]
pub enum BlockFault {
    /// The check is not that of the bytes before it.
    WrongCheck,
    /// The fields break the layout: the position of the tag or of the stray byte.
    BrokenLayout(u16),
}

/// Why a field is not written.
#[derive(Clone, Copy, Debug, PartialEq, Eq)]
pub enum FieldRefusal {
    /// No field has this tag.
    UnlistedTag,
    /// The tag's values have no such length.
    UnlistedLength,
    /// The tag is not above that of the field before.
    NotRising,
}

impl BlockFault {
    /// The number under which the fault is reported.
    pub fn number(self) -> u8
        ensures { result ≡ fault_number self }
    {
        // A fault that holds a place has no number of its own to cast.
        match self {
            BlockFault::WrongCheck => 2,
            BlockFault::BrokenLayout(_) => 3,
        }
    }

    /// The byte of the block at which the fault stands.
    pub fn place(self) -> u16
        ensures { result ≡ fault_place self }
    {
        match self {
            BlockFault::WrongCheck => 510,
            BlockFault::BrokenLayout(at) => at,
        }
    }
}

impl FieldRefusal {
    /// The number under which the refusal is reported.
    pub fn number(self) -> u8
        ensures { result ≡ refusal_number self }
    {
        // All three have one number, so none can be the enum's own.
        match self {
            FieldRefusal::UnlistedTag | FieldRefusal::UnlistedLength | FieldRefusal::NotRising =>
                49,
        }
    }
}
