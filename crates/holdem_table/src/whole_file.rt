use std::fs;
use streamed::Ending;

/// All that a file has, or how a command ends where it can't be read: `OutOfMemory` (92) or `Unreadable` (104).
pub(crate) fn read_file(rt: &HostRuntime, path: &str) -> Result<Vec<u8>, Ending> {
    match fs::read(rt, path) {
        Ok(text) => Ok(text),
        Err(error) => Err(Ending::unread(&error)),
    }
}
