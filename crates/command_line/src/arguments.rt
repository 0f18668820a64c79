//! The program's arguments.
use std::alloc::{AllocError, Global};
use std::env::FillError;
use std::rt::Env;

/// The program's arguments, byte for byte, including its own name. std's `args` has none if one isn't UTF-8.
pub fn arguments<E: Env>(env: &E, alloc: Global) -> Result<Vec<Vec<u8>>, AllocError> {
    let mut arguments = Vec::new(alloc);
    for index in 0..usize::MAX {
        match argument(env, alloc, index)? {
            Some(argument) => arguments.push(argument)?,
            None => break,
        }
    }
    Ok(arguments)
}

// One argument, `None` if `index` is past the last. The buffer is doubled until the argument fits.
fn argument<E: Env>(env: &E, alloc: Global, index: usize) -> Result<Option<Vec<u8>>, AllocError> {
    let mut size = 256usize;
    for _ in 0..usize::BITS {
        let mut bytes = Vec::new(alloc);
        bytes.resize(size, 0)?;
        match env.arg(index, bytes.as_mut_slice()) {
            Ok(len) => {
                bytes.truncate(len);
                return Ok(Some(bytes));
            }
            Err(FillError::NotPresent) => return Ok(None),
            Err(FillError::TooLong) => size = size.saturating_add(size),
        }
    }
    Err(AllocError)
}
