use alpha_operands::{Half, ListValue, Number, Shape, next_value, operator, register};

#[test]
fn registers_by_number_and_by_use(rt: HostRuntime) {
    let names: [(&[u8], Option<u8>); 12] = [
        (b"$0", Some(0)),
        (b"$31", Some(31)),
        (b"$v0", Some(0)),
        (b"$t7", Some(8)),
        (b"$s5", Some(14)),
        (b"$fp", Some(15)),
        (b"$a5", Some(21)),
        (b"$t8", Some(22)),
        (b"$zero", Some(31)),
        (b"$32", None),
        (b"$01", None),
        (b"$T0", None),
    ];
    for (name, want) in names {
        assert_eq!(rt; register(name).map(|r| r.number()), want, "{name:?}");
    }
    assert_eq!(rt; operator(b"%hi"), Some(Half::High));
    assert_eq!(rt; operator(b"%lo"), Some(Half::Low));
    assert_eq!(rt; operator(b"%HI"), None);
}

#[test]
fn operands_of_a_store(rt: HostRuntime) {
    match Shape::Memory.operands(b" $1 , -8($sp) # saved") {
        Ok(found) => {
            assert!(rt; matches!(found.number, Some(Number::Displacement(-8))));
            assert!(rt; found.label.is_none());
        }
        Err(_) => assert!(rt; false),
    }
}

// The first value of a list as a number, how many bytes its label has, and what is behind its comma.
fn first(list: &[u8], bytes: u8) -> Option<(Option<u64>, usize, &[u8])> {
    let (value, rest) = next_value(list, bytes)?;
    match value {
        ListValue::Number(n) => Some((Some(n), 0, rest)),
        ListValue::Label(to) => Some((None, to.label.len(), rest)),
    }
}

#[test]
fn first_values_of_lists(rt: HostRuntime) {
    let lists: [(&[u8], u8, Option<(Option<u64>, usize, &[u8])>); 12] = [
        (b"7,0,255", 1, Some((Some(7), 0, b"0,255"))),
        (b" -1 , 2", 1, Some((Some(u64::MAX), 0, b" 2"))),
        (b"255  ", 1, Some((Some(255), 0, b""))),
        (b"256", 1, None),
        (b"-129", 1, None),
        (b"-32768", 2, Some((Some(u64::MAX - 32767), 0, b""))),
        (b"0xffffffff", 4, Some((Some(0xffff_ffff), 0, b""))),
        (b"start-8,1", 8, Some((None, 5, b"1"))),
        (b"start", 4, None),
        (b"1 # one", 1, None),
        (b"1 2", 1, None),
        (b"1", 3, None),
    ];
    for (list, bytes, want) in lists {
        let found = first(list, bytes);
        assert_eq!(rt; found.is_some(), want.is_some(), "{list:?}");
        if let (Some(found), Some(want)) = (found, want) {
            assert_eq!(rt; found.0, want.0, "{list:?}");
            assert_eq!(rt; found.1, want.1, "{list:?}");
            assert!(rt; found.2 == want.2, "{list:?}");
        }
    }
}
