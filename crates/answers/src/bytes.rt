// Each of the 256 bytes, alone and inside a name.
use crate::expect::expect_refused;
use std::test::Fail;

// The number and the place at which a text of that one byte is refused.
fn alone(byte: u8) -> (u8, usize) {
    match byte {
        // a word where an opening bracket is due, of the shape of a name or not
        b'a'..=b'z' => (4, 0),
        b'0'..=b'9' => (2, 0),
        // the text ends where a head is due
        b'(' => (4, 1),
        b')' | b'\n' => (4, 0),
        // no line has begun
        b' ' => (10, 1),
        _ => (1, 0),
    }
}

// The number and the place at which `(inputs a?b)` is refused, with the byte for the question mark.
fn inside_a_name(byte: u8) -> (u8, usize) {
    match byte {
        // one name, or two: the text ends where a line should begin
        b'a'..=b'z' | b'0'..=b'9' | b' ' => (10, 12),
        b'(' | b'\n' => (4, 9),
        // the line is closed, and `b` stands where its end is due
        b')' => (4, 10),
        _ => (1, 9),
    }
}

#[test]
fn every_byte(rt: HostRuntime) -> Result<(), Fail> {
    let heap = rt.alloc();
    for byte in 0..=255u8 {
        let (number, place) = alone(byte);
        expect_refused(&rt, heap, &[byte], number, place)?;
        let (number, place) = inside_a_name(byte);
        let mut text = *b"(inputs a?b)";
        text[9] = byte;
        expect_refused(&rt, heap, &text, number, place)?;
    }
    Ok(())
}
