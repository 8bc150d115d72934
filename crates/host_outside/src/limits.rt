//! The limit that the system sets to the size of files: a write past it would end the process.
use std::fs;
use std::fs::Files;
use std::io::Read;

// The bytes of a text as one: none if they aren't UTF-8.
fn text_of(bytes: &[u8]) -> &str {
    str::from_utf8(bytes).unwrap_or("")
}

// The greatest size of a file that a table of limits tells, as Linux prints it (proc_pid_limits(5)): a line that
// begins with the limit's name, and has the number after it, or `unlimited`.
fn most_in(table: &str) -> u64 {
    for line in table.lines() {
        if let Some(rest) = line.strip_prefix("Max file size ") {
            let first = rest.split_whitespace().next().unwrap_or("");
            return first.parse::<u64>().unwrap_or(u64::MAX);
        }
    }
    u64::MAX
}

/// The greatest size that this process may give a file. There is none if the system doesn't tell.
pub fn most_bytes<R: Files>(rt: &R) -> u64 {
    let mut room = [0; 4096];
    match fs::open(rt, "/proc/self/limits") {
        Ok(mut table) => match table.read(&mut room) {
            Ok(count) => most_in(text_of(room.get(..count).unwrap_or(&[]))),
            Err(_) => u64::MAX,
        },
        Err(_) => u64::MAX,
    }
}
