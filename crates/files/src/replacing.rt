// Replacing a file: the fresh file that is also the lock, and whether the old one may be replaced.
ghost use Rattle.std.specs.Prelude.{◌≡◌, true, false};
ghost use Rattle.std.specs.IoError.{raw_os_error};
ghost use Rattle.files.specs.Answers.{is_error};
ghost use Rattle.files.specs.Replacing.{is_writable, may_replace};

use crate::messages::Message;
use crate::system::Seen;
use crate::{EprintBytes, Target, Tool, system};
use std::fs::{File, OpenOptions, Permissions};
use std::os::unix::fs::{PermissionsExt, fchown};
use std::rt::{Clock, Files};
use std::{fs, io};

// The errors of a file that is not there, and of one that is there already.
pub(crate) const ENOENT: i32 = 2;

pub(crate) const EEXIST: i32 = 17;

// Whether a call failed with this error of the operating system.
pub(crate) fn is_error(error: io::Error, number: i32) -> bool
    ensures { result ≡ is_error (raw_os_error error) number }
{
    error.raw_os_error() == Some(number)
}

// What is printed.
impl<R: EprintBytes> Tool<'_, R> {
    // Whether a file may be replaced, from what the operating system said.
    fn may_be_replaced(
        &self,
        name: &[u8],
        link: bool,
        old: io::Result<Seen>,
        missing: bool,
        writable: bool,
    ) -> bool
        ensures { result ≡ may_replace link old missing writable }
    {
        if link {
            return self.trouble(
                name,
                b"this is a link; go to the folder of the file that it leads to",
            );
        }
        let old = match old {
            Ok(old) => old,
            Err(error) => return self.may_be_made(name, missing, error),
        };
        if !system::is_regular(old.mode) {
            return self.not_regular(name);
        }
        if old.names != 1 {
            return self.trouble(
                name,
                b"this file has another name, which would keep the old one; remove one of the two",
            );
        }
        if !writable || !is_writable(old.mode) {
            return self.protected(name);
        }
        true
    }

    fn protected(&self, name: &[u8]) -> bool
        ensures { result ≡ false }
    {
        self.trouble(name, b"this file is write-protected")
    }

    fn may_be_made(&self, name: &[u8], missing: bool, error: io::Error) -> bool
        ensures { result ≡ missing }
    {
        missing || self.failed(name, error)
    }

    // Prints that a file is of another kind.
    pub(crate) fn not_regular(&self, name: &[u8]) -> bool
        ensures { result ≡ false }
    {
        self.trouble(name, b"this is a folder, a FIFO or a device, not a file")
    }

    // Prints that there is a fresh file.
    pub(crate) fn taken(&self, target: Target<'_>) -> bool
        ensures { result ≡ false }
    {
        let mut text = Message::<1024>::new();
        text.put_taken(target);
        self.trouble(target.name, text.bytes())
    }

    // Prints that the fresh file is not the one that was made.
    pub(crate) fn lost(&self, target: Target<'_>) -> bool
        ensures { result ≡ false }
    {
        let mut text = Message::<1024>::new();
        text.put_lost(target.fresh);
        self.trouble(target.name, text.bytes())
    }
}

impl<R: Files + EprintBytes> Tool<'_, R> {
    // Whether a file may be replaced: it is a regular file with one name, which is no link, and it is not write-protected. One that
    // is missing may be made. If not, the reason is printed.
    fn may_replace(&self, name: &[u8]) -> bool {
        let link = system::is_link(self.rt, name);
        let old = system::of_name(self.rt, name);
        let missing = matches!(old, Err(error) if is_error(error, ENOENT));
        let writable = !link && system::may_write(self.rt, name, old);
        self.may_be_replaced(name, link, old, missing, writable)
    }

    // Whether the old file may be replaced, and the fresh one has its mode.
    pub(crate) fn is_prepared(&self, name: &[u8], file: &File) -> bool {
        self.may_replace(name) && self.has_mode(name, file)
    }

    // Gives a fresh file the mode of the file that it will replace and, as far as that is allowed, its owner and group. The owner
    // comes first, since changing it may change the mode. Returns whether it has the mode.
    fn has_mode(&self, name: &[u8], file: &File) -> bool {
        let old = match system::of_name(self.rt, name) {
            Ok(old) => old,
            Err(error) => return self.may_be_made(name, is_error(error, ENOENT), error),
        };
        if fchown(file, Some(old.owner), Some(old.group)).is_err() {
            let _ = fchown(file, None, Some(old.group));
        }
        match file.set_permissions(Permissions::from_mode(old.mode % 4096)) {
            Ok(()) => true,
            Err(error) => self.failed(name, error),
        }
    }
}

impl<R: Files + Clock + EprintBytes> Tool<'_, R> {
    // Whether there is no fresh file, now or after up to `tries` waits.
    fn is_gone(&self, target: Target<'_>, tries: u32) -> bool {
        for i in 0..tries {
            if !is_there(self.rt, target.fresh) {
                return true;
            }
            self.wait_once(target, i);
        }
        !is_there(self.rt, target.fresh)
    }
}

impl<R: Clock + EprintBytes> Tool<'_, R> {
    // The first wait is announced.
    fn wait_once(&self, target: Target<'_>, i: u32) {
        if i == 0 {
            let mut text = Message::<1024>::new();
            text.put_waiting(target);
            self.note(text.bytes());
        }
        system::wait(self.rt);
    }
}

impl<R: Files<File = File> + Clock + EprintBytes> Tool<'_, R> {
    // Makes the fresh file. While there is one, it is tried again, up to `tries` times.
    pub(crate) fn made(&self, target: Target<'_>, tries: u32) -> io::Result<File> {
        for i in 0..tries {
            match create(self.rt, target.fresh) {
                Err(error) if is_error(error, EEXIST) => self.wait_once(target, i),
                other => return other,
            }
        }
        create(self.rt, target.fresh)
    }

    // Whether nothing is in the way: there is no fresh file, the folder may be written to, and the file may be replaced.
    pub(crate) fn nothing_in_the_way(&self, target: Target<'_>, tries: u32) -> bool {
        if !self.is_gone(target, tries) {
            return self.taken(target);
        }
        if let Err(error) = system::takes_files(self.rt) {
            return self.failed(target.name, error);
        }
        self.may_replace(target.name)
    }
}

// Makes a file that is not there yet.
fn create(files: &impl Files<File = File>, fresh: &[u8]) -> io::Result<File> {
    OpenOptions::new()
        .write(true)
        .create_new(true)
        .open(files, system::path(fresh)?)
}

// Whether the mode lets anybody write: its owner, the group or all others.
fn is_writable(mode: u32) -> bool
    ensures { result ≡ is_writable mode }
{
    mode / 128 % 2 == 1 || mode / 16 % 2 == 1 || mode / 2 % 2 == 1
}

fn is_there(files: &impl Files, name: &[u8]) -> bool {
    system::is_link(files, name) || system::of_name(files, name).is_ok()
}

// Whether the fresh file is still the one that was made. If it cannot be looked at, it is looked at once more.
pub(crate) fn is_ours(files: &impl Files, fresh: &[u8], file: &File) -> bool {
    seems_ours(files, fresh, file) || seems_ours(files, fresh, file)
}

fn seems_ours(files: &impl Files, fresh: &[u8], file: &File) -> bool {
    // the name last: what follows is done to it
    !system::is_link(files, fresh)
        && system::is_same(system::of_file(file), system::of_name(files, fresh))
}

// Gives a fresh file the old one's name.
pub(crate) fn renamed(files: &impl Files, target: Target<'_>) -> io::Result<()> {
    fs::rename(
        files,
        system::path(target.fresh)?,
        system::path(target.name)?,
    )
}

// Removes a file.
pub(crate) fn removed(files: &impl Files, name: &[u8]) -> io::Result<()> {
    fs::remove_file(files, system::path(name)?)
}

// Asks that the folder, and with it a new name in it, is stored. Returns whether it is.
pub(crate) fn stored_folder(files: &impl Files<File = File>) -> bool {
    match fs::open(files, ".") {
        Ok(folder) => folder.sync_all().is_ok(),
        Err(_) => false,
    }
}
