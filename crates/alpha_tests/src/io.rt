use alpha_io::*;
use std::alloc::Global;
use std::io::Read;
use std::test::Fail;
use std::{fs, io};

const NAME: &str = "alpha_io_test.bin";

const FIRST: &str = "alpha_io_first.bin";

const SECOND: &str = "alpha_io_second.bin";

// A reader that fails.
#[derive(Drop)]
struct Broken;

impl Read for Broken {
    fn read(&mut self, _buf: &mut [u8]) -> io::Result<usize> {
        Err(io::Error::from(io::ErrorKind::Other))
    }
}

fn whole<H: Shelf>(
    alloc: Global,
    shelf: &mut H,
    name: &str,
    limit: u32,
) -> Result<Vec<u8>, ReadFault> {
    read_whole(alloc, shelf, name, u64::from(limit))
}

#[test]
fn a_source_gives_its_bytes_two_at_a_time(rt: HostRuntime) -> Result<(), Fail> {
    let alloc = rt.alloc();
    let mut source = MemorySource::new([1, 2, 3].to_vec(alloc)?, 2, [1].to_vec(alloc)?);
    let mut buf = [0; 4];
    let counts = [
        source.take(&mut buf),
        source.take(&mut buf),
        source.take(&mut buf),
        source.take(&mut buf),
    ];
    assert_eq!(rt; counts, [Ok(2), Err(Failed), Ok(1), Ok(0)]);
    assert_eq!(rt; buf, [3, 2, 0, 0]);
    Ok(())
}

#[test]
fn a_sure_source_gives_what_fits(rt: HostRuntime) -> Result<(), Fail> {
    let mut source = SureSource::new([1, 2, 3].to_vec(rt.alloc())?);
    let mut buf = [0; 2];
    let counts = [source.take(&mut buf), source.take(&mut buf)];
    assert_eq!(rt; counts, [Ok(2), Ok(1)]);
    assert_eq!(rt; buf, [3, 2]);
    Ok(())
}

#[test]
fn a_whole_write_goes_on_after_a_short_put(rt: HostRuntime) -> Result<(), Fail> {
    let alloc = rt.alloc();
    let mut out = TrickleSink::new(alloc, 9, [4].to_vec(alloc)?)?;
    let answers = [
        write_whole(&mut out, &[1, 2, 3]),
        write_whole(&mut out, &[4, 5]),
        write_whole(&mut NullSink::new(), &[1, 2]),
    ];
    assert_eq!(rt; answers, [Ok(()), Err(Failed), Ok(())]);
    assert_eq!(rt; out.bytes(), [1, 2, 3, 4].as_slice());
    Ok(())
}

#[test]
fn a_shelf_fails_at_the_listed_calls(rt: HostRuntime) -> Result<(), Fail> {
    let alloc = rt.alloc();
    let mut shelf = MemoryShelf::new(alloc, [0, 2, 4].to_vec(alloc)?);
    let mut buf = [0; 2];
    shelf.add("a", &[7, 8, 9])?;
    let counts = [
        shelf.piece("b", 0, &mut buf),
        shelf.piece("a", 1, &mut buf),
        shelf.piece("a", 0, &mut buf),
    ];
    assert_eq!(rt; counts, [Err(Failed), Ok(2), Err(Failed)]);
    assert_eq!(rt; buf, [8, 9]);
    assert_eq!(rt;
        [shelf.keep("b", &[5]), shelf.keep("b", &[6])],
        [Ok(()), Err(Failed)]
    );
    assert_eq!(rt;
        whole(alloc, &mut shelf, "b", 1)?.as_slice(),
        [5].as_slice()
    );
    Ok(())
}

#[test]
fn a_file_is_read_whole_up_to_its_limit(rt: HostRuntime) -> Result<(), Fail> {
    let alloc = rt.alloc();
    let mut shelf = MemoryShelf::new(alloc, Vec::new(alloc));
    let long = vec![in alloc; 7; 70_000]?;
    shelf.add("long", &long)?;
    assert_eq!(rt;
        whole(alloc, &mut shelf, "long", 70_000)?.as_slice(),
        long.as_slice()
    );
    let faults = [
        whole(alloc, &mut shelf, "long", 69_999).err(),
        whole(alloc, &mut shelf, "none", 1).err(),
    ];
    assert_eq!(rt; faults, [Some(ReadFault::TooLarge), Some(ReadFault::Shelf)]);
    Ok(())
}

#[test]
fn a_sure_shelf_takes_one_name(rt: HostRuntime) -> Result<(), Fail> {
    let alloc = rt.alloc();
    let name = String::from_str(alloc, "in")?;
    let out = String::from_str(alloc, "out")?;
    assert!(rt; name != out);
    let mut shelf = SureShelf::new(alloc, name, [1, 2].to_vec(alloc)?, out, 2)?;
    let answers = [
        shelf.keep("in", &[3]),
        shelf.keep("out", &[3, 4, 5]),
        shelf.keep("out", &[3, 4]),
    ];
    assert_eq!(rt; answers, [Err(Failed), Err(Failed), Ok(())]);
    assert_eq!(rt;
        whole(alloc, &mut shelf, "out", 9)?.as_slice(),
        [3, 4].as_slice()
    );
    assert_eq!(rt;
        whole(alloc, &mut shelf, "in", 2)?.as_slice(),
        [1, 2].as_slice()
    );
    Ok(())
}

#[test]
fn a_reader_serves(rt: HostRuntime) -> Result<(), Fail> {
    let mut buf = [0; 2];
    let mut source = ReadSource::new([1u8, 2, 3].as_slice());
    let counts = [
        source.take(&mut buf),
        source.take(&mut buf),
        ReadSource::new(Broken).take(&mut buf),
    ];
    assert_eq!(rt; counts, [Ok(2), Ok(1), Err(Failed)]);
    assert_eq!(rt; buf, [3, 2]);
    Ok(())
}

#[test]
fn a_writer_serves(rt: HostRuntime) -> Result<(), Fail> {
    let mut bytes = Vec::new(rt.alloc());
    let mut room = [0; 1];
    let answers = [
        write_whole(&mut WriteSink::new(&mut bytes), &[4, 5]),
        write_whole(&mut WriteSink::new(room.as_mut_slice()), &[6, 7]),
    ];
    assert_eq!(rt; answers, [Ok(()), Err(Failed)]);
    assert_eq!(rt; bytes.as_slice(), [4, 5].as_slice());
    Ok(())
}

#[test]
fn the_disk_keeps_a_file(rt: HostRuntime) -> Result<(), Fail> {
    let alloc = rt.alloc();
    let mut shelf = DiskShelf::new(&rt);
    assert_eq!(rt; shelf.keep(NAME, &[1, 2, 3]), Ok(()));
    assert_eq!(rt;
        whole(alloc, &mut shelf, NAME, 3)?.as_slice(),
        [1, 2, 3].as_slice()
    );
    fs::remove_file(&rt, NAME)?;
    assert_eq!(rt;
        whole(alloc, &mut shelf, NAME, 3).err(),
        Some(ReadFault::Shelf)
    );
    Ok(())
}

// What a piece of a file is that has two bytes at most.
fn two_at<H: Shelf>(shelf: &mut H, name: &str, at: u64) -> (Result<usize, Failed>, [u8; 2]) {
    let mut buffer = [0; 2];
    let answer = shelf.piece(name, at, buffer.as_mut_slice());
    (answer, buffer)
}

#[test]
fn the_disk_reads_on_from_a_piece_or_anew(rt: HostRuntime) -> Result<(), Fail> {
    let mut shelf = DiskShelf::new(&rt);
    assert_eq!(rt; shelf.keep(NAME, &[1, 2, 3, 4, 5]), Ok(()));
    assert_eq!(rt; two_at(&mut shelf, NAME, 0), (Ok(2), [1, 2]));
    assert_eq!(rt; two_at(&mut shelf, NAME, 2), (Ok(2), [3, 4]));
    assert_eq!(rt; two_at(&mut shelf, NAME, 1), (Ok(2), [2, 3]));
    assert_eq!(rt; two_at(&mut shelf, NAME, 3), (Ok(2), [4, 5]));
    assert_eq!(rt; two_at(&mut shelf, NAME, 5), (Ok(0), [0, 0]));
    assert_eq!(rt; two_at(&mut shelf, NAME, 0), (Ok(2), [1, 2]));
    assert_eq!(rt; shelf.keep(NAME, &[6, 7, 8, 9]), Ok(()));
    assert_eq!(rt; two_at(&mut shelf, NAME, 2), (Ok(2), [8, 9]));
    fs::remove_file(&rt, NAME)?;
    assert_eq!(rt; two_at(&mut shelf, NAME, 4).0, Ok(0));
    assert_eq!(rt; two_at(&mut shelf, NAME, 0).0, Err(Failed));
    Ok(())
}

#[test]
fn the_disk_reads_two_files_in_turn(rt: HostRuntime) -> Result<(), Fail> {
    let mut shelf = DiskShelf::new(&rt);
    assert_eq!(rt; shelf.keep(FIRST, &[1, 2, 3, 4]), Ok(()));
    assert_eq!(rt; shelf.keep(SECOND, &[5, 6, 7, 8]), Ok(()));
    assert_eq!(rt; two_at(&mut shelf, FIRST, 0), (Ok(2), [1, 2]));
    assert_eq!(rt; two_at(&mut shelf, SECOND, 2), (Ok(2), [7, 8]));
    assert_eq!(rt; two_at(&mut shelf, FIRST, 2), (Ok(2), [3, 4]));
    fs::remove_file(&rt, FIRST)?;
    fs::remove_file(&rt, SECOND)?;
    Ok(())
}
