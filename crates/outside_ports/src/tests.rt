// Ports in memory give and take what they are asked, with ample memory.
use crate::{Feed, File, Files, Library, MemoryFeed, MemoryLibrary, MemorySink, PortFault, Sink};
use chill_base::{Memory, Numbers, Text};
use std::alloc::Global;
use std::test::Fail;

fn text(alloc: Global, bytes: &[u8]) -> Result<Text, Memory> {
    Ok(Text::from_vec(bytes.to_vec(alloc)?))
}

#[test]
fn a_library_gives_the_first_file_of_a_name(rt: HostRuntime) -> Result<(), Fail> {
    let alloc = rt.alloc();
    let mut files = Files::new(alloc);
    for (name, bytes) in [(b"a", b"hello"), (b"a", b"other")] {
        files.push(File {
            name: text(alloc, name)?,
            bytes: text(alloc, bytes)?,
        })?;
    }
    let mut fails = Numbers::new(alloc);
    fails.push(3)?;
    let mut library = MemoryLibrary::new(files, fails);
    let mut into = [0u8; 4];
    // the name, the place, and what is read
    for (name, at, count) in [
        ("a", 0, Ok(4)),
        ("a", 4, Ok(1)),
        ("a", 0, Err(PortFault)),
        ("a", 5, Ok(0)),
        ("b", 0, Err(PortFault)),
    ] {
        assert_eq!(rt; library.read(name, at, &mut into), count, "{name} at {at}");
    }
    assert_eq!(rt; into, *b"oell");
    Ok(())
}

#[test]
fn a_sink_takes_pieces_as_long_as_there_is_room(rt: HostRuntime) -> Result<(), Fail> {
    let alloc = rt.alloc();
    let mut fails = Numbers::new(alloc);
    fails.push(2)?;
    let mut sink = MemorySink::new(alloc, 3, 5, fails)?;
    for (piece, count) in [
        ("hello", Ok(3)),
        ("lo", Err(PortFault)),
        ("", Ok(0)),
        ("lo!", Ok(2)),
        ("!", Err(PortFault)),
    ] {
        assert_eq!(rt; sink.put(piece.as_bytes()), count, "{piece}");
    }
    assert_eq!(rt; sink.taken(), b"hello".as_slice());
    Ok(())
}

#[test]
fn a_feed_gives_what_is_left(rt: HostRuntime) -> Result<(), Fail> {
    let alloc = rt.alloc();
    let mut fails = Numbers::new(alloc);
    fails.push(2)?;
    let mut feed = MemoryFeed::new(text(alloc, b"hello")?, fails);
    let mut into = [0u8; 4];
    // what each take gives
    for count in [Ok(4), Err(PortFault), Ok(1), Ok(0)] {
        assert_eq!(rt; feed.take(&mut into), count);
    }
    assert_eq!(rt; into, *b"oell");
    Ok(())
}
