//! The file with the image.
ghost use Rattle.std.specs.Prelude.{◌≡◌, None};

use std::fs::File;
use std::io;
use std::io::Read;

/// A file that is opened where it is first read, so that a file which is never read is not opened. Each read
/// of one that cannot be opened fails.
#[derive(Drop)]
pub struct ImageFile<'a> {
    rt: &'a HostRuntime,
    name: &'a str,
    file: Option<File>,
}

impl<'a> ImageFile<'a> {
    /// The file of this name, not yet opened.
    pub fn of_name(rt: &'a HostRuntime, name: &'a str) -> ImageFile<'a>
        ensures name { result.name ≡ name.entry }
        ensures unopened { result.file ≡ None }
    {
        ImageFile {
            rt,
            name,
            file: None,
        }
    }
}

impl<'a> Read for ImageFile<'a> {
    fn read(&mut self, buf: &mut [u8]) -> io::Result<usize> {
        let mut file = match self.file.take() {
            Some(file) => file,
            None => File::open(self.rt, self.name)?,
        };
        let read = file.read(buf);
        self.file = Some(file);
        read
    }
}
