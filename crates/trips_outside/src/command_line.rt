//! The words of the command line.

use std::alloc::{AllocError, Global};
use std::env;
use std::io::ErrorKind;

/// The words after the program's name, and none where one of them is no text. Want of memory is the only error.
pub fn words(rt: &HostRuntime, alloc: Global) -> Result<Vec<String>, AllocError> {
    let mut words = Vec::new(alloc);
    match env::args(rt) {
        Ok(args) => {
            for word in args.skip(1) {
                words.push(word)?;
            }
        }
        Err(error) if error.kind() == ErrorKind::OutOfMemory => return Err(AllocError),
        Err(_) => {}
    }
    Ok(words)
}
