use alpha_names::Names;
use std::alloc::{AllocError, Global};
use std::test::Fail;

// Whether each of some names is added once, keeps the number of its place, and is found by it; and whether another one
// isn't there.
fn are_told_apart(
    alloc: Global,
    all: &[&'static [u8]],
    other: &'static [u8],
) -> Result<bool, AllocError> {
    let mut names = Names::empty(alloc);
    for name in all {
        if names.number(name).is_some() || !names.add(name)? {
            return Ok(false);
        }
    }
    for (number, name) in all.iter().enumerate() {
        if names.add(name)?
            || names.number(name) != Some(number)
            || names.get(number) != Some(*name)
        {
            return Ok(false);
        }
    }
    Ok(names.len() == all.len() && names.number(other).is_none() && names.get(all.len()).is_none())
}

#[test]
fn names_that_are_fronts_of_one_another_are_told_apart(rt: HostRuntime) -> Result<(), Fail> {
    let all: [&'static [u8]; 6] = [
        b"aaaa",
        b"a",
        b"aaaaaaaaaaaaaaaaaaaaaaaaaaaaaaaaa",
        b"",
        b"aa",
        b"aaaaaaaaaaaaaaaaa",
    ];
    assert!(rt; are_told_apart(rt.alloc(), &all, b"aaa")?);
    Ok(())
}

#[test]
fn names_that_share_a_front_are_told_apart(rt: HostRuntime) -> Result<(), Fail> {
    let all: [&'static [u8]; 4] = [
        b"a_front_of_thirty_two_bytes_or_so_1",
        b"a_front_of_thirty_two_bytes_or_so_2",
        b"a_front_of_thirty_two_bytes_or_so_",
        b"a_front_of_thirty_two_bytes_or_so_11",
    ];
    assert!(rt; are_told_apart(rt.alloc(), &all, b"a_front_of_thirty_two_bytes_or_so_3")?);
    Ok(())
}

#[test]
fn names_that_differ_in_one_bit_are_told_apart(rt: HostRuntime) -> Result<(), Fail> {
    let all: [&'static [u8]; 5] = [b"name_b", b"name_c", b"Name_b", b"name_B", b"name_\xe2"];
    assert!(rt; are_told_apart(rt.alloc(), &all, b"Name_c")?);
    Ok(())
}

// The quick hash of each of these is 0: the third eight bytes of each are the state of the hasher behind the first
// sixteen.
#[test]
fn names_with_one_hash_are_told_apart(rt: HostRuntime) -> Result<(), Fail> {
    let all: [&'static [u8]; 4] = [
        b"crowd_0000100431jxd8Xp31aaaaaaaa",
        b"crowd_0000100431jxd8Xp31aaaaaaab",
        b"crowd_0000100431jxd8Xp31zzzzzzzz",
        b"crowd_0000100431jxd8Xp31baaaaaaa",
    ];
    assert!(rt; are_told_apart(rt.alloc(), &all, b"crowd_0000100431jxd8Xp31bbbbbbbb")?);
    Ok(())
}

// The quick hashes of these differ in their low halves alone, and so find no slot of their own.
#[test]
fn names_with_one_way_through_the_tree_are_told_apart(rt: HostRuntime) -> Result<(), Fail> {
    let all: [&'static [u8]; 26] = [
        b"crowd_0000100431kxd8Xp31aaaazzzz",
        b"crowd_0000100431kxd8Xp31aaabzzzz",
        b"crowd_0000100431kxd8Xp31aaaczzzz",
        b"crowd_0000100431kxd8Xp31aaadzzzz",
        b"crowd_0000100431kxd8Xp31aaaezzzz",
        b"crowd_0000100431kxd8Xp31aaafzzzz",
        b"crowd_0000100431kxd8Xp31aaagzzzz",
        b"crowd_0000100431kxd8Xp31aaahzzzz",
        b"crowd_0000100431kxd8Xp31aaaizzzz",
        b"crowd_0000100431kxd8Xp31aaajzzzz",
        b"crowd_0000100431kxd8Xp31aaakzzzz",
        b"crowd_0000100431kxd8Xp31aaalzzzz",
        b"crowd_0000100431kxd8Xp31aaamzzzz",
        b"crowd_0000100431kxd8Xp31aaanzzzz",
        b"crowd_0000100431kxd8Xp31aaaozzzz",
        b"crowd_0000100431kxd8Xp31aaapzzzz",
        b"crowd_0000100431kxd8Xp31aaaqzzzz",
        b"crowd_0000100431kxd8Xp31aaarzzzz",
        b"crowd_0000100431kxd8Xp31aaaszzzz",
        b"crowd_0000100431kxd8Xp31aaatzzzz",
        b"crowd_0000100431kxd8Xp31aaauzzzz",
        b"crowd_0000100431kxd8Xp31aaavzzzz",
        b"crowd_0000100431kxd8Xp31aaawzzzz",
        b"crowd_0000100431kxd8Xp31aaaxzzzz",
        b"crowd_0000100431kxd8Xp31aaayzzzz",
        b"crowd_0000100431kxd8Xp31aaazzzzz",
    ];
    assert!(rt; are_told_apart(rt.alloc(), &all, b"crowd_0000100431kxd8Xp31aabazzzz")?);
    Ok(())
}
