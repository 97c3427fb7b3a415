// Whether a call was refused, and with which number of the panel.
use refusal::Refusal;

// The number of the refusal, if there is one: it is the panel's numbers that the tests are about.
pub(crate) fn refused<T: Drop>(answer: Result<T, Refusal>) -> Option<u8> {
    match answer {
        Ok(_) => None,
        Err(refusal) => Some(u8::from(refusal)),
    }
}
