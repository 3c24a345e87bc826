//! The parts of an input, and digits of captures: the bytes that they stand for, and which bytes are no digits.
use super::racl_test_refused;
use racl_io::{Fault, Form, decode_digits, split_input};
use std::test::Fail;

#[test]
fn an_input_has_three_parts(rt: HostRuntime) -> Result<(), Fail> {
    let Some(input) = split_input(b"# one\nhex\nd4 c3\n") else {
        return racl_test_refused();
    };
    assert!(rt; input.policy == b"# one\n".as_slice());
    assert!(rt; input.form == Form::Hexadecimal);
    assert!(rt; input.content == b"d4 c3\n".as_slice());
    Ok(())
}

/// The part of an input that has digits: two for each byte, blanks among them, and nothing else.
#[test]
fn digits_stand_for_bytes(rt: HostRuntime) -> Result<(), Fail> {
    let alloc = rt.alloc();
    let bytes = decode_digits(alloc, b"d4 C3\tb2\r\na 1")?;
    assert!(rt; bytes.as_slice() == [0xd4, 0xc3, 0xb2, 0xa1].as_slice());
    assert!(rt; decode_digits(alloc, b"d4c").err() == Some(Fault::Hex));
    assert!(rt; decode_digits(alloc, b"0x00").err() == Some(Fault::Hex));
    Ok(())
}
