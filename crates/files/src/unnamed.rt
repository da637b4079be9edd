// A file without a name.
use crate::messages::Message;
use crate::replacing::{EEXIST, is_error};
use crate::system;
use std::fs::{File, OpenOptions};
use std::os::unix::fs::OpenOptionsExt;
use std::rt::Files;
use std::{fs, io};

// How many names are tried.
const NAMES: u32 = 100;

// Makes it beside the file `name`.
pub(crate) fn made(files: &impl Files<File = File>, name: &[u8]) -> io::Result<File> {
    for i in 0..NAMES {
        let mut text = Message::<256>::new();
        text.put_scratch(name, i);
        match made_as(files, text.bytes()) {
            Err(error) if is_error(error, EEXIST) => {}
            other => return other,
        }
    }
    Err(io::Error::from_raw_os_error(EEXIST))
}

fn made_as(files: &impl Files<File = File>, name: &[u8]) -> io::Result<File> {
    let path = system::path(name)?;
    let file = OpenOptions::new()
        .read(true)
        .write(true)
        .create_new(true)
        .mode(0o600)
        .open(files, path)?;
    fs::remove_file(files, path)?;
    Ok(file)
}
