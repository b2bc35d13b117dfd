use text_scan::NoMemory;

/// Why a primitive's text makes no table.
#[derive(Clone, Copy, Debug, PartialEq, Eq)]
pub enum UdpRefusal {
    NoMemory,
    /// This row, counted from 1, isn't written as a row of such a primitive.
    BadRow(u32),
    /// These two rows of one class match one case with different values.
    RowsConflict(u32, u32),
    /// The primitive has this many inputs, which are more than ten.
    TooManyInputs(u32),
}

impl From<NoMemory> for UdpRefusal {
    ghost use Rattle.std.specs.Prelude.{◌≡◌};
    ghost use Rattle.udp_table.specs.declared.refusal.UdpRefusal.TheVariants.{NoMemory as refused};

    ghost from_gives = { λ _ e. e ≡ refused };

    fn from(_: NoMemory) -> Self {
        UdpRefusal::NoMemory
    }
}
