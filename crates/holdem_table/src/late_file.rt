use std::fs::File;
use std::io;
use std::io::Read;

/// A file that is opened where it is first read.
#[derive(Drop)]
pub(crate) struct LateFile<'a> {
    rt: &'a HostRuntime,
    name: &'a str,
    file: Option<File>,
}

impl<'a> LateFile<'a> {
    /// A file that isn't looked at yet: whether it is there, its first read tells.
    pub(crate) fn new(rt: &'a HostRuntime, name: &'a str) -> LateFile<'a> {
        LateFile {
            rt,
            name,
            file: None,
        }
    }
}

impl Read for LateFile<'_> {
    fn read(&mut self, buf: &mut [u8]) -> io::Result<usize> {
        let mut file = match self.file.take() {
            Some(file) => file,
            None => File::open(self.rt, self.name)?,
        };
        let result = file.read(buf);
        self.file = Some(file);
        result
    }
}
