//! Why a field can't be read.
ghost use Rattle.std.specs.Prelude.{◌≡◌};
ghost use Rattle.byte_fields.specs.Faults.{left_of};
ghost use Rattle.byte_fields.specs.declared.fault.TakeFault.TheVariants as fault;

/// The first thing that is wrong, by the number of bytes from its first byte to the end.
#[derive(Clone, Copy, Debug, PartialEq, Eq)]
pub enum FieldFault {
    /// The bytes end within a field.
    Short,
    /// A number that the format doesn't allow here.
    Kind(usize),
    /// Bytes that aren't the text or the name that they should be.
    BadText(usize),
    /// Bytes behind the last field.
    Long(usize),
}

impl FieldFault {
    /// The number of bytes from the first wrong one to the end.
    pub fn left(self) -> usize
        ensures { result ≡ left_of self }
    {
        match self {
            FieldFault::Short => 0,
            FieldFault::Kind(left) | FieldFault::BadText(left) | FieldFault::Long(left) => left,
        }
    }
}

/// Why a field can't be read into memory.
#[derive(Clone, Copy, Debug, PartialEq, Eq)]
pub enum TakeFault {
    /// The bytes are wrong.
    Field(FieldFault),
    /// There is no memory for the value.
    Memory,
}

impl From<FieldFault> for TakeFault {
    ghost from_gives = { λ e made. made ≡ fault.Field e };

    fn from(e: FieldFault) -> TakeFault {
        TakeFault::Field(e)
    }
}
