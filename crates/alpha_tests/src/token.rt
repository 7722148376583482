use TokenKind::{
    Close, Colon, Comma, Dot, Minus, Name, Number, Open, Operator, Plus, Register, Text,
};
use alpha_token::{Step, TokenKind, next, next_byte, number};
use std::process::Abort;

// What ends a line of tokens: the line's end or comment, or a byte that begins none, with the count
// of bytes that are left there.
#[derive(Clone, Copy, Debug, PartialEq, Eq)]
enum Last {
    End(usize),
    Bad(usize),
}

// Asserts the tokens of a line, and what ends them.
fn assert_tokens(rt: &impl Abort, line: &[u8], want: &[(TokenKind, &[u8])], last: Last) {
    let mut rest = line;
    for (kind, text) in want {
        match next(rest) {
            Step::Token(token) => {
                assert_eq!(rt; token.kind, *kind);
                assert!(rt; token.text == *text);
                rest = token.rest;
            }
            step => assert!(rt; false, "{step:?} where {kind:?} stands"),
        }
    }
    let found = match next(rest) {
        Step::End(left) => Some(Last::End(left)),
        Step::Bad(left) => Some(Last::Bad(left)),
        Step::Token(_) => None,
    };
    assert_eq!(rt; found, Some(last));
}

#[test]
fn tokens_are_the_longest_possible(rt: HostRuntime) {
    let of = |line: &[u8], want: &[(TokenKind, &[u8])], last| {
        assert_tokens(&rt, line, want, last);
    };
    of(
        b"x.1/v: ldq_l\t$1,-8($sp) # ?",
        &[
            (Name, b"x.1/v"),
            (Colon, b":"),
            (Name, b"ldq_l"),
            (Register, b"$1"),
            (Comma, b","),
            (Minus, b"-"),
            (Number, b"8"),
            (Open, b"("),
            (Register, b"$sp"),
            (Close, b")"),
        ],
        Last::End(3),
    );
    of(b".8", &[(Name, b".8")], Last::End(0));
    of(
        b".+8 .-0x1F",
        &[
            (Dot, b"."),
            (Plus, b"+"),
            (Number, b"8"),
            (Dot, b"."),
            (Minus, b"-"),
            (Number, b"0x1F"),
        ],
        Last::End(0),
    );
    of(
        b"0xg 0x",
        &[(Number, b"0"), (Name, b"xg"), (Number, b"0"), (Name, b"x")],
        Last::End(0),
    );
    of(
        b"%hi(a",
        &[(Operator, b"%hi"), (Open, b"("), (Name, b"a")],
        Last::End(0),
    );
    of(b"1 %1", &[(Number, b"1")], Last::Bad(2));
    of(b"$01 $", &[(Register, b"$01")], Last::Bad(1));
    of(
        b"\".\\\"#\" x",
        &[(Text, b"\".\\\"#\""), (Name, b"x")],
        Last::End(0),
    );
    of(b"\"\"", &[(Text, b"\"\"")], Last::End(0));
    of(br#"1 "\q""#, &[(Number, b"1")], Last::Bad(4));
    of(br#"1 "\xg0""#, &[(Number, b"1")], Last::Bad(6));
    of(b"\"no end", &[], Last::Bad(7));
    of(b"nop\r", &[(Name, b"nop")], Last::Bad(1));
    of(b"", &[], Last::End(0));
}

#[test]
fn every_byte_alone_in_a_string_and_in_a_comment(rt: HostRuntime) {
    for b in 0..=255u8 {
        let alone = matches!(next(&[b]), Step::Bad(1));
        let begins = b.is_ascii_alphanumeric() || b" \t#_.,():+-".contains(&b);
        assert_eq!(rt; alone, !begins, "{b:02x} alone");
        let inside = matches!(next(&[b'"', b, b'"']), Step::Token(_));
        let plain = (b == b' ' || b.is_ascii_graphic()) && b != b'\\';
        assert_eq!(rt; inside, plain, "{b:02x} in a string");
        assert!(rt;
            matches!(next(&[b'#', b]), Step::End(2)),
            "{b:02x} in a comment"
        );
    }
}

#[test]
fn numbers_and_bytes(rt: HostRuntime) {
    let texts: [(&[u8], Option<u64>); 7] = [
        (b"0", Some(0)),
        (b"007", Some(7)),
        (b"0xfF", Some(255)),
        (b"18446744073709551615", Some(u64::MAX)),
        (b"18446744073709551616", None),
        (b"0xffffffffffffffff", Some(u64::MAX)),
        (b"0x10000000000000000", None),
    ];
    for (text, want) in texts {
        assert_eq!(rt; number(text), want, "{text:?}");
    }
    let bytes: [(&[u8], Option<u8>); 10] = [
        (b"a", Some(b'a')),
        (br"\n", Some(10)),
        (br"\t", Some(9)),
        (br"\\", Some(b'\\')),
        (br#"\""#, Some(b'"')),
        (br"\0", Some(0)),
        (br"\x4E", Some(0x4e)),
        (br"\x4", None),
        (b"\"", None),
        (b"", None),
    ];
    for (text, want) in bytes {
        assert_eq!(rt; next_byte(text).map(|(b, _)| b), want, "{text:?}");
    }
    assert!(rt; matches!(next_byte(br"\x41z"), Some((b'A', b"z"))));
}
