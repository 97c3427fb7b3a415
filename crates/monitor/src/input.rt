// What the program makes of its input.
use crate::answers::{LONGEST_TEXT, answers};
use crate::trouble::Trouble;
use std::alloc::Global;
use std::io::{self, Read};

// A byte more than is served, where there is one, so that the text is known to be too long.
pub(crate) fn read_text<R: Read + Drop>(alloc: Global, input: R) -> io::Result<Vec<u8>> {
    let mut text = Vec::new(alloc);
    input.take(LONGEST_TEXT as u64 + 1).read_to_end(&mut text)?;
    Ok(text)
}

// The answers to all of it.
pub(crate) fn answered<R: Read + Drop>(alloc: Global, input: R) -> Result<Vec<u8>, Trouble> {
    let text = read_text(alloc, input)?;
    Ok(answers(alloc, &text)?)
}
