// A file that is written again as a whole. Its new bytes go to a file beside it, which takes its place once they are on the disk, so that
// whatever ends the program meanwhile leaves the old bytes or the new ones.

use std::alloc::{AllocError, Global};
use std::fs::{self, File};
use std::io::{self, Write};
use std::process;

// Writes a new file whose bytes have reached the disk, with the permissions of the file that it is to replace, if there is one.
fn write_beside(rt: &HostRuntime, beside: &str, path: &str, bytes: &[u8]) -> io::Result<()> {
    let mut file = File::create_new(rt, beside)?;
    if fs::exists(rt, path)? {
        file.set_permissions(fs::metadata(rt, path)?.permissions())?;
    }
    file.write_all(bytes)?;
    file.sync_all()
}

// The name of a new file beside another, which no other process gives while this one runs.
fn name_beside(heap: Global, path: &str, process: u32) -> Result<String, AllocError> {
    format!(in heap; "{path}.{process}.new")
}

// Writes a new file beside another and puts it in the place of that.
fn replace_by(rt: &HostRuntime, beside: &str, path: &str, bytes: &[u8]) -> io::Result<()> {
    // A process that had this number before has left it and no longer writes it.
    if fs::exists(rt, beside)? {
        fs::remove_file(rt, beside)?;
    }
    write_beside(rt, beside, path, bytes)?;
    fs::rename(rt, beside, path)
}

fn replace(rt: &HostRuntime, path: &str, bytes: &[u8]) -> io::Result<()> {
    let beside = name_beside(rt.alloc(), path, process::id(rt.process()))?;
    let replaced = replace_by(rt, beside.as_str(), path, bytes);
    if replaced.is_err() {
        // The failure is told, and not whether what was begun could be removed.
        let _ = fs::remove_file(rt, beside.as_str());
    }
    replaced
}

/// Writes a file's bytes, in place of those that it has. Where the path is a link, the file that it leads to is written.
pub(crate) fn save(rt: &HostRuntime, path: &str, bytes: &[u8]) -> io::Result<()> {
    if !fs::exists(rt, path)? {
        return replace(rt, path, bytes);
    }
    let file = fs::canonicalize(rt, path)?;
    replace(rt, file.as_str(), bytes)
}
