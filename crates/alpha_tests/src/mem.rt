use alpha_mem::{MemFault, Memory, Size};
use alpha_words::NoMemory;
use std::alloc::Global;
use std::test::Fail;

// Sixteen bytes of code, and at once after them eight bytes of data and eight zeros.
fn two_regions(alloc: Global) -> Result<Memory, NoMemory> {
    let code = [1, 2, 3, 4, 5, 6, 7, 8, 9, 10, 11, 12, 13, 14, 15, 16];
    let mut memory = Memory::empty(alloc);
    memory.add(0x1_0000, &code, 0, false)?;
    memory.add(
        0x1_0010,
        &[0xf8, 0xf9, 0xfa, 0xfb, 0xfc, 0xfd, 0xfe, 0xff],
        8,
        true,
    )?;
    Ok(memory)
}

#[test]
fn loads(rt: HostRuntime) -> Result<(), Fail> {
    let memory = two_regions(rt.alloc())?;
    for (addr, size, want) in [
        (0x1_0000, Size::B1, Ok(0x01)),
        (0x1_0000, Size::B2, Ok(0x0201)),
        (0x1_0000, Size::B4, Ok(0x0403_0201)),
        (0x1_0000, Size::B8, Ok(0x0807_0605_0403_0201)),
        (0x1_000f, Size::B1, Ok(0x10)),
        (0x1_000e, Size::B2, Ok(0x100f)),
        (0x1_000c, Size::B4, Ok(0x100f_0e0d)),
        (0x1_0008, Size::B8, Ok(0x100f_0e0d_0c0b_0a09)),
        (0x1_0010, Size::B8, Ok(0xfffe_fdfc_fbfa_f9f8)),
        (0x1_0017, Size::B1, Ok(0xff)),
        (0x1_0016, Size::B2, Ok(0xfffe)),
        (0x1_0014, Size::B4, Ok(0xfffe_fdfc)),
        (0x1_0018, Size::B8, Ok(0)),
    ] {
        assert_eq!(rt; memory.load(addr, size), want, "at {addr:x}");
    }
    Ok(())
}

#[test]
fn faults(rt: HostRuntime) -> Result<(), Fail> {
    let memory = two_regions(rt.alloc())?;
    for (addr, size, load, store) in [
        (
            0xffff,
            Size::B1,
            Some(MemFault::Region),
            Some(MemFault::Region),
        ),
        (
            0xfff8,
            Size::B8,
            Some(MemFault::Region),
            Some(MemFault::Region),
        ),
        (
            0xfffc,
            Size::B8,
            Some(MemFault::Align),
            Some(MemFault::Align),
        ),
        (
            0x1_0001,
            Size::B2,
            Some(MemFault::Align),
            Some(MemFault::Align),
        ),
        (
            0x1_0002,
            Size::B4,
            Some(MemFault::Align),
            Some(MemFault::Align),
        ),
        (
            0x1_0004,
            Size::B8,
            Some(MemFault::Align),
            Some(MemFault::Align),
        ),
        (0x1_0008, Size::B8, None, Some(MemFault::Region)),
        (0x1_000f, Size::B1, None, Some(MemFault::Region)),
        (
            0x1_000c,
            Size::B8,
            Some(MemFault::Align),
            Some(MemFault::Align),
        ),
        (0x1_0010, Size::B8, None, None),
        (0x1_001f, Size::B1, None, None),
        (
            0x1_0020,
            Size::B1,
            Some(MemFault::Region),
            Some(MemFault::Region),
        ),
        (
            0x1_0020,
            Size::B4,
            Some(MemFault::Region),
            Some(MemFault::Region),
        ),
        (
            u64::MAX,
            Size::B1,
            Some(MemFault::Region),
            Some(MemFault::Region),
        ),
        (
            u64::MAX,
            Size::B2,
            Some(MemFault::Align),
            Some(MemFault::Align),
        ),
        (
            u64::MAX - 7,
            Size::B8,
            Some(MemFault::Region),
            Some(MemFault::Region),
        ),
    ] {
        assert_eq!(rt; memory.load(addr, size).err(), load, "at {addr:x}");
        assert_eq!(rt; memory.writable(addr, size).err(), store, "at {addr:x}");
    }
    Ok(())
}

#[test]
fn stores(rt: HostRuntime) -> Result<(), Fail> {
    let mut memory = two_regions(rt.alloc())?;
    let number = 0x8877_6655_4433_2211;
    assert_eq!(rt;
        memory.store(0x1_0008, Size::B8, number),
        Err(MemFault::Region)
    );
    assert_eq!(rt;
        memory.store(0x1_0012, Size::B4, number),
        Err(MemFault::Align)
    );
    assert_eq!(rt; memory.store(0x1_0018, Size::B8, number), Ok(()));
    assert_eq!(rt; memory.store(0x1_0011, Size::B1, number), Ok(()));
    assert_eq!(rt; memory.store(0x1_0012, Size::B2, number), Ok(()));
    assert_eq!(rt; memory.store(0x1_0014, Size::B4, number), Ok(()));
    assert_eq!(rt; memory.load(0x1_0008, Size::B8), Ok(0x100f_0e0d_0c0b_0a09));
    assert_eq!(rt; memory.load(0x1_0010, Size::B8), Ok(0x4433_2211_2211_11f8));
    assert_eq!(rt; memory.load(0x1_0018, Size::B8), Ok(number));
    Ok(())
}

#[test]
fn ranges(rt: HostRuntime) -> Result<(), Fail> {
    let mut memory = two_regions(rt.alloc())?;
    assert_eq!(rt;
        memory.bytes(0x1_000e, 2).ok_or("code")?,
        [15, 16].as_slice()
    );
    assert!(rt; memory.bytes(0x1_000e, 3).is_none());
    assert!(rt; memory.bytes(0x1_0010, u64::MAX).is_none());
    assert_eq!(rt; memory.bytes(u64::MAX, 0).ok_or("nothing")?.len(), 0);
    assert!(rt; !memory.can_write(0x1_000e, 2));
    assert!(rt; !memory.can_write(0x1_000f, 2));
    assert!(rt; memory.can_write(0x1_000f, 0));
    assert!(rt; !memory.can_write(0x1_001e, 3));
    assert!(rt; memory.can_write(0x1_001e, 2));
    memory.write(0x1_001e, &[7, 9]);
    assert_eq!(rt;
        memory.bytes(0x1_001c, 4).ok_or("data")?,
        [0, 0, 7, 9].as_slice()
    );
    Ok(())
}
