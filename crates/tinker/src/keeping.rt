// How a file is kept: whole, or not at all.
use std::alloc::Global;
use std::fs::{self, File, OpenFile, Permissions};
use std::io::{self, ErrorKind, Write};
use std::rt::Files;

/// How many names beside a file's own are tried.
const TRIES: u32 = 100;

/// Makes a file of these bytes, in place of one that has the name. After an error the old file stands whole. A name that
/// isn't a plain file's, such as `/dev/stdout`, is written as it is.
pub fn keep<R: Files>(alloc: Global, rt: &R, name: &str, bytes: &[u8]) -> io::Result<()> {
    match fs::symlink_metadata(rt, name) {
        Ok(old) if old.is_file() => replace(alloc, rt, name, bytes, Some(old.permissions())),
        Ok(_) => fs::write(rt, name, bytes),
        Err(e) if e.kind() == ErrorKind::NotFound => replace(alloc, rt, name, bytes, None),
        Err(e) => Err(e),
    }
}

/// Writes the bytes beside the name and then gives them the name.
fn replace<R: Files>(
    alloc: Global,
    rt: &R,
    name: &str,
    bytes: &[u8],
    permissions: Option<Permissions>,
) -> io::Result<()> {
    let (beside, file) = create_beside(alloc, rt, name)?;
    let written = fill(file, bytes, permissions).and_then(|()| fs::rename(
        rt,
        beside.as_str(),
        name,
    ));
    if written.is_err() {
        let _ = fs::remove_file(rt, beside.as_str());
    }
    written
}

/// A new file whose name begins with this one's.
fn create_beside<R: Files>(alloc: Global, rt: &R, name: &str) -> io::Result<(String, R::File)> {
    for number in 0..TRIES {
        let beside = format!(in alloc; "{name}.{number}.part")?;
        match File::create_new(rt, beside.as_str()) {
            Ok(file) => return Ok((beside, file)),
            Err(e) if e.kind() == ErrorKind::AlreadyExists => {}
            Err(e) => return Err(e),
        }
    }
    Err(io::Error::from(ErrorKind::AlreadyExists))
}

/// Writes the bytes through to the disk, with the permissions of the file that they will replace.
fn fill<F: Write + OpenFile + Drop>(
    mut file: F,
    bytes: &[u8],
    permissions: Option<Permissions>,
) -> io::Result<()> {
    file.write_all(bytes)?;
    if let Some(permissions) = permissions {
        file.set_permissions(permissions)?;
    }
    file.sync_all()
}
