// The words of a command line.
use std::env::{Env, FillError};

// How many words there are, the program's name among them.
pub fn arg_count<R: Env>(rt: &R) -> usize {
    for i in 0..usize::MAX {
        if let Err(FillError::NotPresent) = rt.arg(i, &mut []) {
            return i;
        }
    }
    usize::MAX
}

// A word, at the start of the room that is lent; or why it can't be read.
pub fn arg<'a, R: Env>(rt: &R, i: usize, room: &'a mut [u8]) -> Result<&'a [u8], FillError> {
    let size = rt.arg(i, room)?;
    Ok(&room[..size])
}
