//! What tests of real files call: loads and saves with what has to come of them, and names of new files.
ghost use Rattle.std.specs.Prelude.{◌<◌, length};

use bn_outside::{LoadError, SaveError, Store};
use std::alloc::Global;
use std::test::Fail;
use std::{env, process};

// A load through the bound, which tells of the bytes that they are these.
pub fn loads<S: Store>(
    alloc: Global,
    files: &mut S,
    name: &str,
    limit: usize,
    bytes: &[u8],
) -> bool {
    match files.load(alloc, name, limit) {
        Ok(found) => found.as_slice() == bytes,
        Err(_) => false,
    }
}

// Why a load through the bound gives no bytes.
pub fn refusal<S: Store>(
    alloc: Global,
    files: &mut S,
    name: &str,
    limit: usize,
) -> Option<LoadError> {
    files.load(alloc, name, limit).err()
}

// Whether these bytes are saved, and loaded if the limit is their length, but not with a lower one.
pub fn is_kept<S: Store>(alloc: Global, files: &mut S, name: &str, bytes: &[u8]) -> bool
    requires { 0 < length bytes.now }
{
    files.save(name, bytes) == Ok(())
        && loads(alloc, files, name, bytes.len(), bytes)
        && refusal(alloc, files, name, bytes.len() - 1) == Some(LoadError::TooLong)
}

// Whether what is a folder is neither loaded nor saved.
pub fn is_refused<S: Store>(alloc: Global, files: &mut S, folder: &str) -> bool {
    refusal(alloc, files, folder, 4) == Some(LoadError::Failed)
        && files.save(folder, b"text") == Err(SaveError::Failed)
}

// The name of a file or folder of this process among temporary files.
pub fn fresh_name(rt: &HostRuntime, word: &str) -> Result<String, Fail> {
    let folder = env::temp_dir(rt)?;
    let process = process::id(rt.process());
    let folder = folder.as_str();
    Ok(format!(in rt.alloc(); "{folder}/host_outside_{word}_{process}")?)
}
