use super::{has_fault, item};
use LineFaultKind::{BadOperands, BadToken, UnknownName};
use alpha_text::{Item, LineFaultKind, Statement};

// The fault of a line that is this byte alone.
fn fault_alone(byte: u8) -> Option<(LineFaultKind, u32)> {
    match byte {
        b' ' | b'\t' | b'#' => None,
        b'A'..=b'Z' | b'a'..=b'z' | b'_' => Some((UnknownName, 1)),
        b'0'..=b'9' | b'.' | b',' | b'(' | b')' | b':' | b'+' | b'-' => Some((BadOperands, 1)),
        _ => Some((BadToken, 1)),
    }
}

// The fault of `.ascii "?"` with this byte in place of `?`.
fn fault_in_string(byte: u8) -> Option<(LineFaultKind, u32)> {
    match byte {
        b'"' => Some((BadToken, 10)),
        b'\\' => Some((BadToken, 8)),
        b' '..=b'~' => None,
        _ => Some((BadToken, 8)),
    }
}

/// Each byte as a line of its own, in a string and in a comment.
#[test]
fn each_byte(rt: HostRuntime) {
    for byte in 0..=255_u8 {
        let alone = [byte];
        assert!(rt; has_fault(&alone, fault_alone(byte)), "{byte}");
        let string = [b'.', b'a', b's', b'c', b'i', b'i', b' ', b'"', byte, b'"'];
        assert!(rt; has_fault(&string, fault_in_string(byte)), "{byte}");
        let comment = [b'n', b'o', b'p', b' ', b'#', byte];
        assert!(rt; has_fault(&comment, None), "{byte}");
    }
}

/// Lines of 1,024 bytes.
#[test]
fn longest_lines(rt: HostRuntime) {
    let mut short = [b' '; 1024];
    short[0] = b'b';
    short[1] = b'r';
    assert!(rt; has_fault(&short, Some((BadOperands, 1025))));

    let mut string = [b'a'; 1024];
    string[..8].copy_from_slice(b".ascii \"");
    assert!(rt; has_fault(&string, Some((BadToken, 8))));
    string[1023] = b'"';
    match item(&string) {
        Ok(
            Item {
                label: None,
                statement: Statement::Text(text),
            },
        ) => {
            assert_eq!(rt; text.len(), 1015);
            assert!(rt; text.iter().all(|b| *b == b'a'));
        }
        _ => assert!(rt; false),
    }
}
