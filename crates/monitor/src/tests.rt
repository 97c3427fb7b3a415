// Texts of as many bytes as the program serves, and of more.
use crate::input::{answered, read_text};
use std::test::Fail;

// Letters, and at the end a line feed, which is the first impossible byte: so the answer tells that the last byte was read.
#[test]
fn the_longest_texts(rt: HostRuntime) -> Result<(), Fail> {
    let mut text = vec![in rt.alloc(); b'a'; 4097]?;
    text[4095] = b'\n';
    let served = answered(rt.alloc(), &text[..4096])?;
    assert!(rt; served.as_slice() == b"no,20,1,1,4096\r\n".as_slice());
    let refused = answered(rt.alloc(), text.as_slice())?;
    assert!(rt; refused.as_slice() == b"no,25,1,1,1\r\n".as_slice());
    Ok(())
}

// So many bytes that there are, and so many that are read.
#[test]
fn a_byte_more_than_is_served_is_read(rt: HostRuntime) -> Result<(), Fail> {
    for (bytes, read) in [
        (0usize, 0usize),
        (4095, 4095),
        (4096, 4096),
        (4097, 4097),
        (5000, 4097),
    ] {
        let input = vec![in rt.alloc(); b'\n'; bytes]?;
        let text = read_text(rt.alloc(), input.as_slice())?;
        assert_eq!(rt; text.len(), read);
    }
    Ok(())
}
