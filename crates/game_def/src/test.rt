use crate::fault_kind::FaultKind;
use crate::key::Key;

/// A test of a whole game file: the fault where it fails, and the key at whose line that is told.
#[derive(Clone, Copy)]
pub(crate) struct Test {
    pub(crate) passes: bool,
    pub(crate) kind: FaultKind,
    pub(crate) key: Key,
}
