//! Files that are saved and loaded, and which of them a save leaves alone.
ghost use Rattle.std.specs.Prelude.{◌<◌, length};

use crate::calls::{fresh_name, is_kept, is_refused, loads, refusal};
use bn_outside::{LoadError, SaveError, Store};
use host_outside::FileStore;
use std::alloc::{AllocError, Global};
use std::fs::Files;
use std::os::unix::fs::symlink;
use std::random::RandomSource;
use std::test::Fail;
use std::{env, fs, io};

// Whether a longer file is saved, and a shorter one in its place that is kept; whether it is missing once it was
// removed; and whether a folder is refused.
fn replaced<R: Files + RandomSource + AllocGlobal>(
    rt: &R,
    alloc: Global,
    name: &str,
    folder: &str,
) -> [bool; 5] {
    let longer = FileStore::new(rt).save(name, b"a longer text") == Ok(());
    let mut files = FileStore::new(rt);
    let kept = is_kept(alloc, &mut files, name, b"text");
    let removed = fs::remove_file(rt, name).is_ok();
    let missing = refusal(alloc, &mut files, name, 4) == Some(LoadError::Missing);
    let refused = is_refused(alloc, &mut files, folder);
    [longer, kept, removed, missing, refused]
}

#[test]
fn files_are_saved_whole_and_loaded_within_the_limit(rt: HostRuntime) -> Result<(), Fail> {
    let folder = env::temp_dir(&rt)?;
    let name = fresh_name(&rt, "test")?;
    let told = replaced(&rt, rt.alloc(), name.as_str(), folder.as_str());
    assert_eq!(rt; told, [true; 5]);
    Ok(())
}

// Whether these bytes are kept in a file, and it is removed.
fn kept_and_removed<R: Files + RandomSource + AllocGlobal>(
    rt: &R,
    alloc: Global,
    name: &str,
    bytes: &[u8],
) -> bool
    requires { 0 < length bytes.now }
{
    let mut files = FileStore::new(rt);
    let kept = is_kept(alloc, &mut files, name, bytes);
    fs::remove_file(rt, name).is_ok() && kept
}

#[test]
fn a_file_of_several_pieces_is_loaded_whole(rt: HostRuntime) -> Result<(), Fail> {
    let name = fresh_name(&rt, "pieces")?;
    let bytes = vec![in rt.alloc(); 7u8; 200_000]?;
    let well = kept_and_removed(&rt, rt.alloc(), name.as_str(), &bytes);
    assert!(rt; well);
    Ok(())
}

// Makes a folder with a file of six bytes, two links to it, and a folder.
fn make_links<R: Files + RandomSource + AllocGlobal>(rt: &R, folder: &str) -> io::Result<()> {
    let alloc = rt.alloc();
    let file = format!(in alloc; "{folder}/FILE")?;
    let inner = format!(in alloc; "{folder}/inner")?;
    let soft = format!(in alloc; "{folder}/inner/soft")?;
    let hard = format!(in alloc; "{folder}/hard")?;
    fs::create_dir(rt, folder)?;
    fs::create_dir(rt, inner.as_str())?;
    fs::write(rt, file.as_str(), b"loaded")?;
    symlink(rt, "../FILE", soft.as_str())?;
    fs::hard_link(rt, file.as_str(), hard.as_str())
}

// Whether a store that loaded a file refuses to save it by another spelling of its name, and the file stays.
fn is_spared<R: Files + RandomSource + AllocGlobal>(
    rt: &R,
    folder: &str,
    spelling: &str,
) -> Result<bool, AllocError> {
    let alloc = rt.alloc();
    let name = format!(in alloc; "{folder}/FILE")?;
    let spelled = format!(in alloc; "{folder}/{spelling}")?;
    let mut files = FileStore::new(rt);
    Ok(
        loads(alloc, &mut files, name.as_str(), 6, b"loaded")
            && files.save(spelled.as_str(), b"saved") == Err(SaveError::Failed)
            && loads(alloc, &mut files, name.as_str(), 6, b"loaded"),
    )
}

// Whether each spelling is refused.
fn each_is_spared<R: Files + RandomSource + AllocGlobal>(
    rt: &R,
    folder: &str,
) -> Result<[bool; 5], AllocError> {
    Ok([
        is_spared(rt, folder, "FILE")?,
        is_spared(rt, folder, "./FILE")?,
        is_spared(rt, folder, "inner/../FILE")?,
        is_spared(rt, folder, "inner/soft")?,
        is_spared(rt, folder, "hard")?,
    ])
}

// Whether a store that loaded another file saves this one, and a store that loaded none does.
fn others_are_saved<R: Files + RandomSource + AllocGlobal>(
    rt: &R,
    folder: &str,
) -> Result<[bool; 3], AllocError> {
    let alloc = rt.alloc();
    let name = format!(in alloc; "{folder}/FILE")?;
    let other = format!(in alloc; "{folder}/OTHER")?;
    let mut files = FileStore::new(rt);
    let loaded = loads(alloc, &mut files, name.as_str(), 6, b"loaded");
    let saved = is_kept(alloc, &mut files, other.as_str(), b"saved");
    let anew = FileStore::new(rt).save(name.as_str(), b"anew") == Ok(());
    Ok([loaded, saved, anew])
}

#[test]
fn a_save_never_destroys_what_was_loaded(rt: HostRuntime) -> Result<(), Fail> {
    let folder = fresh_name(&rt, "spelled")?;
    make_links(&rt, folder.as_str())?;
    let spared = each_is_spared(&rt, folder.as_str())?;
    let others = others_are_saved(&rt, folder.as_str())?;
    fs::remove_dir_all(&rt, folder.as_str())?;
    assert_eq!(rt; spared, [true; 5]);
    assert_eq!(rt; others, [true; 3]);
    Ok(())
}

// Whether a store that saved a file refuses to save it by another spelling of its name, and the file stays.
fn is_saved_once<R: Files + RandomSource + AllocGlobal>(
    rt: &R,
    folder: &str,
    spelling: &str,
) -> Result<bool, AllocError> {
    let alloc = rt.alloc();
    let name = format!(in alloc; "{folder}/FILE")?;
    let spelled = format!(in alloc; "{folder}/{spelling}")?;
    let mut files = FileStore::new(rt);
    Ok(
        files.save(name.as_str(), b"first") == Ok(())
            && files.save(spelled.as_str(), b"second") == Err(SaveError::Failed)
            && loads(alloc, &mut files, name.as_str(), 5, b"first"),
    )
}

// Whether a save under each spelling of a file, in a folder with links, saves that one file: while it is there, and
// after it was removed.
fn each_is_saved_once<R: Files + RandomSource + AllocGlobal>(
    rt: &R,
    folder: &str,
) -> Result<[bool; 5], AllocError> {
    let alloc = rt.alloc();
    let name = format!(in alloc; "{folder}/FILE")?;
    let there = is_saved_once(rt, folder, "FILE")?;
    let hard = is_saved_once(rt, folder, "hard")?;
    let removed = fs::remove_file(rt, name.as_str()).is_ok();
    let soft = is_saved_once(rt, folder, "inner/soft")?;
    let dotted = removed && fs::remove_file(rt, name.as_str()).is_ok();
    Ok([
        there,
        hard,
        soft,
        dotted && is_saved_once(rt, folder, "./FILE")?,
        is_saved_once(rt, folder, "inner/../FILE")?,
    ])
}

#[test]
fn a_save_never_destroys_what_was_saved(rt: HostRuntime) -> Result<(), Fail> {
    let folder = fresh_name(&rt, "saved_once")?;
    make_links(&rt, folder.as_str())?;
    let once = each_is_saved_once(&rt, folder.as_str())?;
    fs::remove_dir_all(&rt, folder.as_str())?;
    assert_eq!(rt; once, [true; 5]);
    Ok(())
}

// Whether what keeps no bytes is loaded and then saved.
fn stream_is_saved<R: Files + RandomSource + AllocGlobal>(
    rt: &R,
    alloc: Global,
    name: &str,
) -> bool {
    let mut files = FileStore::new(rt);
    loads(alloc, &mut files, name, 0, b"")
        && files.save(name, b"text") == Ok(())
        && files.save(name, b"more") == Ok(())
}

#[test]
fn a_stream_is_loaded_and_then_saved(rt: HostRuntime) {
    let saved = stream_is_saved(&rt, rt.alloc(), "/dev/null");
    assert!(rt; saved);
}
