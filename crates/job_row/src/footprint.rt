//! What copies take of the window and of the device.
ghost use Rattle.std.specs.Prelude.{◌≡◌};
ghost use Rattle.std.specs.Option.{option_copied, option_map_or};
ghost use Rattle.job_row.specs.Counted.{capped, nothing as nothing_lem, footprint_by, exchanged as exchanged_lem, CanExchange};

use row_copy::RowCopy;

/// What copies take together, in bytes; each counts at most `u64::MAX`.
#[derive(Clone, Copy)]
pub(crate) struct Footprint {
    pub(crate) window: u128,
    pub(crate) device: u128,
}

impl Footprint {
    /// What no copy takes.
    pub(crate) fn nothing() -> Footprint
        ensures { result ≡ nothing_lem }
    {
        Footprint {
            window: 0,
            device: 0,
        }
    }

    /// What the copy takes.
    pub(crate) fn by(copy: &RowCopy) -> Footprint
        ensures { result ≡ footprint_by copy.now }
    {
        Footprint {
            window: u128::from(copy.window_bytes()),
            device: u128::from(copy.device_bytes()),
        }
    }

    /// What the copy took, if there was one.
    pub(crate) fn by_any(copy: Option<&RowCopy>) -> Footprint
        ensures { result ≡ option_map_or footprint_by (option_copied copy.entry) nothing_lem }
    {
        match copy {
            Some(copy) => Footprint::by(copy),
            None => Footprint::nothing(),
        }
    }

    /// The same with what is taken after in place of what was taken before.
    pub(crate) fn exchanged(self, before: Footprint, after: Footprint) -> Footprint
        requires { CanExchange self before after }
        ensures { result ≡ exchanged_lem self before after }
    {
        Footprint {
            window: self.window - before.window + after.window,
            device: self.device - before.device + after.device,
        }
    }
}

/// The number, or `u64::MAX` if it is more.
pub(crate) fn to_u64(bytes: u128) -> u64
    ensures { result ≡ capped bytes }
{
    u64::try_from(bytes).unwrap_or(u64::MAX)
}
