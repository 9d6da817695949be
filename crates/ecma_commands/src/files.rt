// The files that paths name.
use std::alloc::{AllocError, Global};
use std::io::Read;
use std::{fs, io};
use swc_lexer::reader::MAX_LEN;

/// What is found in folders.
#[derive(Drop)]
struct Found {
    files: Vec<String>,
    /// The folders that weren't read yet.
    folders: Vec<String>,
    /// Where something can't be read, and why.
    failed: Vec<(String, io::Error)>,
}

/// The files of the folder that end with `.js`, `.mjs` or `.cjs`, and those in folders below it, in the order of their
/// paths. Folders named `node_modules`, and those whose names begin with a dot, are passed over, and so are links to
/// folders. Beside them are the folders in which something can't be read, and why. The only error is out of memory.
pub fn files_below(
    rt: &HostRuntime,
    folder: &str,
) -> Result<(Vec<String>, Vec<(String, io::Error)>), AllocError> {
    let alloc = rt.alloc();
    let mut found = Found {
        files: Vec::new(alloc),
        folders: vec![in alloc; String::from_str(alloc, folder)?]?,
        failed: Vec::new(alloc),
    };
    for _ in 0..u64::MAX {
        let Some(next) = found.folders.pop() else {
            break;
        };
        list(rt, next.as_str(), &mut found)?;
    }
    let Found {
        mut files,
        folders: _,
        failed,
    } = found;
    files.sort_by(|one: &String, other: &String| one.as_str().cmp(other.as_str()))?;
    Ok((files, failed))
}

/// Adds what is in a folder.
fn list(rt: &HostRuntime, folder: &str, found: &mut Found) -> Result<(), AllocError> {
    let entries = match fs::read_dir(rt, folder) {
        Ok(entries) => entries,
        Err(failure) => return fail(rt, folder, failure, found),
    };
    for entry in entries {
        match entry {
            Ok(entry) => put_entry(rt, &entry, found)?,
            Err(failure) => fail(rt, folder, failure, found)?,
        }
    }
    Ok(())
}

/// Remembers what can't be read.
fn fail(
    rt: &HostRuntime,
    path: &str,
    failure: io::Error,
    found: &mut Found,
) -> Result<(), AllocError> {
    found
        .failed
        .push((String::from_str(rt.alloc(), path)?, failure))?;
    Ok(())
}

/// Adds a file or a folder.
fn put_entry(rt: &HostRuntime, entry: &fs::DirEntry, found: &mut Found) -> Result<(), AllocError> {
    let name = entry.file_name();
    let path = String::from_str(rt.alloc(), entry.path().as_str())?;
    let what = match entry.file_type() {
        Ok(what) => what,
        Err(failure) => return fail(rt, path.as_str(), failure, found),
    };
    if what.is_dir() {
        if name != "node_modules" && !name.starts_with('.') {
            found.folders.push(path)?;
        }
    } else if is_script(name) && is_file(rt, path.as_str(), what) {
        found.files.push(path)?;
    }
    Ok(())
}

/// Whether a name is that of a program.
fn is_script(name: &str) -> bool {
    name.ends_with(".js") || name.ends_with(".mjs") || name.ends_with(".cjs")
}

/// Whether a path names a file, by a link or not.
fn is_file(rt: &HostRuntime, path: &str, found: fs::FileType) -> bool {
    if !found.is_symlink() {
        return found.is_file();
    }
    match fs::metadata(rt, path) {
        Ok(metadata) => metadata.is_file(),
        Err(_) => false,
    }
}

/// Whether a path names a folder.
pub fn is_folder(rt: &HostRuntime, path: &str) -> bool {
    match fs::metadata(rt, path) {
        Ok(metadata) => metadata.is_dir(),
        Err(_) => false,
    }
}

/// What is no regular file, as a device or a pipe, may give so many bytes.
const MOST: u64 = 1 << 30;

/// The bytes of a file. A regular file that is longer than a text may be is an error, and so is what isn't one and gives
/// more than `MOST` bytes.
pub fn read_file(rt: &HostRuntime, path: &str) -> io::Result<Vec<u8>> {
    let metadata = fs::metadata(rt, path)?;
    if !metadata.is_file() {
        return read_stream(rt.alloc(), fs::File::open(rt, path)?);
    }
    if metadata.len() > MAX_LEN as u64 {
        return Err(io::Error::other("texts of 4 GB or more aren't read"));
    }
    fs::read(rt, path)
}

/// The bytes of an input that may never end. More than `MOST` are an error.
pub fn read_stream<R: Read + Drop>(alloc: Global, input: R) -> io::Result<Vec<u8>> {
    let mut bytes = Vec::new(alloc);
    let mut limited = input.take(MOST.saturating_add(1));
    limited.read_to_end(&mut bytes)?;
    if bytes.len() as u64 > MOST {
        return Err(io::Error::other("it gives more than 1 GB, and is no regular file"));
    }
    Ok(bytes)
}

/// Writes a file anew, which had the first text: beside it, and then in its place, so that it is there whole at any time.
/// A link stays, and so does who may read, write and run the file. If it has another text by now, it stays as it is.
pub fn replace(rt: &HostRuntime, path: &str, before: &str, text: &str) -> io::Result<()> {
    let real = fs::canonicalize(rt, path)?;
    let metadata = fs::metadata(rt, real.as_str())?;
    if metadata.permissions().readonly() {
        return Err(io::Error::from(io::ErrorKind::PermissionDenied));
    }
    let mut beside = String::from_str(rt.alloc(), real.as_str())?;
    beside.push_str(".ecma-new")?;
    write_beside(rt, beside.as_str(), text, metadata.permissions())?;
    let moved = move_over(rt, beside.as_str(), real.as_str(), before);
    if moved.is_err() {
        let _ = fs::remove_file(rt, beside.as_str());
    }
    moved
}

/// Moves a file in the place of one that still has a text.
fn move_over(rt: &HostRuntime, beside: &str, real: &str, before: &str) -> io::Result<()> {
    if fs::read(rt, real)?.as_slice() != before.as_bytes() {
        return Err(io::Error::other("it changed meanwhile, so it isn't written"));
    }
    fs::rename(rt, beside, real)
}

/// Writes a file that isn't there yet; where that fails, there is none.
fn write_beside(
    rt: &HostRuntime,
    path: &str,
    text: &str,
    permissions: fs::Permissions,
) -> io::Result<()> {
    let mut file = match fs::File::create_new(rt, path) {
        Ok(file) => file,
        Err(failure) if failure.kind() == io::ErrorKind::AlreadyExists => {
            return Err(io::Error::other(
                "FILE.ecma-new is there, which a run that was interrupted left: remove it",
            ));
        }
        Err(failure) => return Err(failure),
    };
    let written = fill(&mut file, text, permissions);
    if written.is_err() {
        let _ = fs::remove_file(rt, path);
    }
    written
}

fn fill(file: &mut fs::File, text: &str, permissions: fs::Permissions) -> io::Result<()> {
    use std::io::Write;
    file.set_permissions(permissions)?;
    file.write_all(text.as_bytes())?;
    file.sync_all()
}
