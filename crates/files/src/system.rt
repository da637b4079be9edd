// What the operating system tells about a file, and a short wait.
ghost use Rattle.std.specs.Prelude.{◌≡◌, IfOk};
ghost use Rattle.files.specs.Replacing.{is_regular, same_file, may_make};

use crate::unnamed;
use std::fs::{File, Metadata, OpenOptions};
use std::io::ErrorKind;
use std::os::unix::fs::MetadataExt;
use std::rt::{Clock, Files};
use std::time::Duration;
use std::{fs, io, thread};

// A file, as the operating system knows it: its kind and permissions, how many names it has, what tells it from every other
// file, and whose it is.
#[derive(Clone, Copy)]
pub struct Seen {
    pub mode: u32,
    pub names: u64,
    pub device: u64,
    pub number: u64,
    pub owner: u32,
    pub group: u32,
}

impl From<Metadata> for Seen {
    fn from(seen: Metadata) -> Seen {
        Seen {
            mode: seen.mode(),
            names: seen.nlink(),
            device: seen.dev(),
            number: seen.ino(),
            owner: seen.uid(),
            group: seen.gid(),
        }
    }
}

// The file that a name leads to, also through a link.
pub(crate) fn of_name(files: &impl Files, name: &[u8]) -> io::Result<Seen> {
    Ok(Seen::from(fs::metadata(files, path(name)?)?))
}

// The file that was opened.
pub(crate) fn of_file(file: &File) -> io::Result<Seen> {
    Ok(Seen::from(file.metadata()?))
}

// Opens a file to read.
pub(crate) fn opened(files: &impl Files<File = File>, name: &[u8]) -> io::Result<File> {
    fs::open(files, path(name)?)
}

// Whether a name is a link.
pub(crate) fn is_link(files: &impl Files, name: &[u8]) -> bool {
    let Ok(text) = path(name) else {
        return false;
    };
    matches!(fs::symlink_metadata(files, text), Ok(seen) if seen.is_symlink())
}

// Whether this user may write to a regular file. It is opened for that, and nothing is written. Another file is not opened: a FIFO
// would wait.
pub(crate) fn may_write(files: &impl Files, name: &[u8], old: io::Result<Seen>) -> bool {
    if !matches!(old, Ok(old) if is_regular(old.mode)) {
        return false;
    }
    match path(name) {
        Ok(text) => OpenOptions::new().write(true).open(files, text).is_ok(),
        Err(_) => false,
    }
}

// Whether a file can be made in the folder, or the error that making one would give. As a rule its mode tells, and the folder
// /proc/self is the user's own, as the process runs. Where the mode says no, a file is made, since a user may have a right that
// modes do not tell.
pub(crate) fn takes_files(files: &impl Files<File = File>) -> io::Result<()> {
    let folder = of_name(files, b".")?;
    let process = of_name(files, b"/proc/self");
    if matches!(process, Ok(process) if !may_make(folder, process.owner, process.group)) {
        unnamed::made(files, b"lay")?;
    }
    Ok(())
}

// Whether a user may make a file in a folder, by its mode. The first group alone is known of those that a user is in.
fn may_make(folder: Seen, user: u32, group: u32) -> bool
    ensures { result ≡ may_make folder user group }
{
    if user == 0 {
        return true;
    }
    if user == folder.owner {
        return folder.mode / 128 % 2 == 1;
    }
    if group == folder.group {
        return folder.mode / 16 % 2 == 1;
    }
    folder.mode / 16 % 2 == 1 || folder.mode / 2 % 2 == 1
}

// Whether the mode is that of a regular file: no folder, FIFO, device or socket.
pub(crate) fn is_regular(mode: u32) -> bool
    ensures { result ≡ is_regular mode }
{
    mode / 4096 % 16 == 8
}

// Whether both were found, and are the same file.
pub(crate) fn is_same(a: io::Result<Seen>, b: io::Result<Seen>) -> bool
    ensures { result ≡ same_file a b }
{
    match (a, b) {
        (Ok(a), Ok(b)) => a.device == b.device && a.number == b.number,
        _ => false,
    }
}

// A name as a path. One that is no text in UTF-8 is none.
pub(crate) fn path(name: &[u8]) -> io::Result<&str>
    ensures { IfOk result (λ text. text.now ≡ name.now) }
{
    str::from_utf8(name).map_err(|_| io::Error::from(ErrorKind::InvalidFilename))
}

// Waits 100 ms.
pub(crate) fn wait(clock: &impl Clock) {
    thread::sleep(clock, Duration::from_millis(100));
}
