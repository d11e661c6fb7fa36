ghost use Rattle.std.specs.Prelude.{◌≡◌, Some};
ghost use Rattle.slot_log.specs.Fault.{fault_code, fault_text};

use std::fmt;
use thiserror::Error;

/// Why a command isn't put at a slot.
///
/// It prints as its number and its name.
#[derive(Clone, Copy, Debug, PartialEq, Eq, Error)]
pub enum SlotFault {
    /// 30: another command is known at the slot.
    Conflict,
    /// 31: the slot is 4,000,000 or above.
    SlotsSpent,
}

impl SlotFault {
    /// The fault's number.
    pub fn code(self) -> u8
        ensures { result ≡ fault_code self }
    {
        match self {
            SlotFault::Conflict => 30,
            SlotFault::SlotsSpent => 31,
        }
    }
}

impl fmt::Display for SlotFault {
    ghost output = { λ fault. Some (fault_text fault) };

    fn fmt<W: fmt::Write>(&self, f: &mut fmt::Formatter<W>) -> fmt::Result {
        match self {
            SlotFault::Conflict => f.write_str("30 Conflict"),
            SlotFault::SlotsSpent => f.write_str("31 SlotsSpent"),
        }
    }
}
