// Plan files, read and written.
use super::reply::Reply;
use super::stored::StoredKind;
use account::bytes_to_read;
use plan::Plan;
use std::alloc::AllocError;
use std::fs::File;
use std::io::Read;
use std::{fs, io};

// The length of the longest plan file.
const LONGEST_FILE: usize = 10 + 12 * 4096;

// As many bytes of a file as decide how it is read.
pub fn read_file(rt: &HostRuntime, path: &str) -> io::Result<Vec<u8>> {
    let mut bytes = Vec::new(rt.alloc());
    File::open(rt, path)?
        .take(bytes_to_read())
        .read_to_end(&mut bytes)?;
    Ok(bytes)
}

// Writes the plan's file. One that cannot be written is not understood.
pub fn write_file<K: StoredKind>(
    rt: &HostRuntime,
    plan: &Plan<K>,
    path: &str,
) -> Result<Reply<K>, AllocError> {
    let mut bytes = vec![in rt.alloc(); 0u8; LONGEST_FILE]?;
    match plan.write(&mut bytes) {
        Ok(length) => {
            bytes.truncate(length);
            match fs::write(rt, path, &bytes) {
                Ok(()) => Ok(Reply::Written(length)),
                Err(_) => Ok(Reply::NotUnderstood),
            }
        }
        Err(refusal) => Ok(Reply::Refused(refusal)),
    }
}
