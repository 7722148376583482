//! Calls that files of cases can't make: over devices that never fail or take so much and no more, and of the
//! functions beside the top call.

use alpha_cmd::{Devices, Status, alpha_sure, alpha_top, image_of};
use alpha_image::ImageFault;
use alpha_io::{MemorySink, NullSink, SureShelf, SureSource};
use alpha_request::Words;
use alpha_words::NoMemory;
use std::alloc::Global;
use std::test::Fail;

/// `lda $1,2($31); lda $2,3($31); addq/v $1,$2,$3; trapb; callsys`.
const ACCEPTED: [u8; 68] =
    *b"ALPHAIM1\x00\x00\x01\x00\x00\x00\x00\x00\x00\x00\x00\x10\x00\x00\x00\x00\x00\x00\x01\x00\x00\x00\x00\x00\x05\x00\x00\x00\x00\x00\x00\x00\x00\x00\x00\x00\x00\x00\x01\x00\x02\x00\x3f\x20\x03\x00\x5f\x20\x03\x0c\x22\x40\x00\x00\xff\x63\x83\x00\x00\x00";

// The words of a call.
fn words_of(alloc: Global, texts: &[&str]) -> Result<Words, NoMemory> {
    let mut words = Words::new(alloc);
    for text in texts {
        words.push(text)?;
    }
    Ok(words)
}

/// A shelf with the file `a`, which takes a file `b` of so many bytes at most.
fn shelf(alloc: Global, bytes: &[u8], room: usize) -> Result<SureShelf, Fail> {
    let name = String::from_str(alloc, "a")?;
    let out = String::from_str(alloc, "b")?;
    if name == out {
        return Err(Fail::from("one name"));
    }
    Ok(SureShelf::new(alloc, name, bytes.to_vec(alloc)?, out, room)?)
}

#[test]
fn sure_devices_serve(rt: HostRuntime) -> Result<(), Fail> {
    let alloc = rt.alloc();
    let mut devices = Devices {
        shelf: shelf(alloc, &ACCEPTED, 0)?,
        input: SureSource::new(Vec::new(alloc)),
        out: NullSink::new(),
        notes: NullSink::new(),
    };
    assert_eq!(rt;
        alpha_sure(alloc, &words_of(alloc, &["check", "a"])?, &mut devices),
        Status::Done(0)
    );
    Ok(())
}

// The image has 52 bytes.
#[test]
fn an_image_that_is_not_taken_is_a_shelf_fault(rt: HostRuntime) -> Result<(), Fail> {
    let alloc = rt.alloc();
    for (room, status, line) in [
        (52, Status::Done(0), b"".as_slice()),
        (51, Status::ShelfFault, b"shelf\n".as_slice()),
    ] {
        let mut devices = Devices {
            shelf: shelf(alloc, b"ret\n.entry 0x10000", room)?,
            input: SureSource::new(Vec::new(alloc)),
            out: MemorySink::new(alloc, 0, Vec::new(alloc))?,
            notes: MemorySink::new(alloc, 64, Vec::new(alloc))?,
        };
        let words = words_of(alloc, &["asm", "a", "b"])?;
        let answer = alpha_top(alloc, &words, &mut devices);
        assert_eq!(rt; answer, status);
        assert_eq!(rt; devices.notes.bytes(), line);
    }
    Ok(())
}

#[test]
fn bytes_give_their_image(rt: HostRuntime) -> Result<(), Fail> {
    let alloc = rt.alloc();
    match image_of(alloc, ACCEPTED.to_vec(alloc)?) {
        Ok(image) => assert!(rt; image.code_base() == 0x1_0000),
        Err(_) => return Err(Fail::from("no image")),
    }
    match image_of(alloc, ACCEPTED[..67].to_vec(alloc)?) {
        Ok(_) => return Err(Fail::from("an image")),
        Err(status) => { assert_eq!(rt; status, Status::BadImage(ImageFault::Length(67, 68))) }
    }
    Ok(())
}
