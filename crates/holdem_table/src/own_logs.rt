//! Which of the logs that a node kept at its starts are of its store, and the newest of them.

use crate::identity::refused;
use crate::kept_match::unread;
use crate::log_files::{newest_kept, no_log};
use crate::made_files::{Readers, put};
use crate::notes::Notes;
use match_file::{Difference, LogsKept, logs_kept_text, read_logs_kept};
use match_runs::Unserved;
use operator_notes::{kept_log_path, logs_kept_path};
use peer_codes::Life;
use std::{fs, io};

/// The logs of a node in a folder, by the life of its store.
#[derive(Clone, Copy)]
pub(crate) struct OwnLogs<'a> {
    pub(crate) rt: &'a HostRuntime,
    pub(crate) folder: &'a str,
    pub(crate) node: u8,
    pub(crate) life: Life,
}

impl OwnLogs<'_> {
    /// The number from which on kept logs are of the store, as `nodeI.logs.kept` says it; none where that isn't there, or is of
    /// another store. `OtherMatch` (109) comes where it says nothing; a note names it.
    pub(crate) fn first(&self, notes: &mut Notes<'_>) -> Result<Option<u32>, Unserved> {
        let path = logs_kept_path(self.rt.alloc(), self.folder, self.node)?;
        let text = match fs::read(self.rt, path.as_str()) {
            Ok(text) => text,
            Err(error) if error.kind() == io::ErrorKind::NotFound => return Ok(None),
            Err(error) => return Err(unread(path.as_str(), &error, notes)),
        };
        let Some(kept) = read_logs_kept(&text) else {
            return Err(refused(path.as_str(), Difference::Unread, notes));
        };
        let bytes = kept.life;
        if self.life == (Life { bytes }) {
            Ok(Some(kept.first))
        } else {
            Ok(None)
        }
    }

    /// The number of the newest kept log, if it is of the store by this first number of its logs. Without one `nodeI.logs.kept`
    /// is made, by which the store's are those that are kept from now on.
    pub(crate) fn newest(
        &self,
        first: Option<u32>,
        notes: &mut Notes<'_>,
    ) -> Result<Option<u32>, Unserved> {
        let newest = newest_kept(self.rt, self.folder, self.node, notes)?;
        if first.is_none() {
            let next = match newest {
                Some(newest) => newest.saturating_add(1),
                None => 1,
            };
            self.begin(next, notes)?;
        }
        Ok(own(first, newest))
    }

    /// Looks at the newest kept log as a start does, and changes nothing.
    pub(crate) fn look(&self, first: Option<u32>, notes: &mut Notes<'_>) -> Result<(), Unserved> {
        let newest = newest_kept(self.rt, self.folder, self.node, notes)?;
        if let Some(number) = own(first, newest) {
            let _ = self.read(number, notes)?;
        }
        Ok(())
    }

    /// Makes `nodeI.logs.kept`.
    fn begin(&self, first: u32, notes: &mut Notes<'_>) -> Result<(), Unserved> {
        let path = logs_kept_path(self.rt.alloc(), self.folder, self.node)?;
        let life = self.life.bytes;
        let text = logs_kept_text(self.rt.alloc(), &LogsKept { life, first })?;
        match put(self.rt, self.folder, path.as_str(), &text, Readers::All) {
            Ok(()) => Ok(()),
            Err(error) => Err(no_log(path.as_str(), &error, notes)),
        }
    }

    /// What the kept log of this number has.
    pub(crate) fn read(&self, number: u32, notes: &mut Notes<'_>) -> Result<Vec<u8>, Unserved> {
        let path = kept_log_path(self.rt.alloc(), self.folder, self.node, number)?;
        match fs::read(self.rt, path.as_str()) {
            Ok(text) => Ok(text),
            Err(error) => Err(no_log(path.as_str(), &error, notes)),
        }
    }
}

/// The number of the newest kept log, if it is of the store whose logs begin with this one.
fn own(first: Option<u32>, newest: Option<u32>) -> Option<u32> {
    match (first, newest) {
        (Some(first), Some(newest)) if first <= newest => Some(newest),
        _ => None,
    }
}
