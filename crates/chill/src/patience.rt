// Streams that aren't ready: who reads or writes waits for a hundredth of a second and tries again.
ghost use Rattle.std.specs.Io.{ReadsAtMost, WritesAtMost};

use std::io::{self, ErrorKind, Read, Write};
use std::thread;
use std::time::{Clock, Duration};

// How long who isn't served waits, in milliseconds.
const PAUSE: u64 = 10;

/// Reads as `read` does, but where there is nothing yet it waits.
pub fn read_patiently<C: Clock, F: Read>(
    clock: &C,
    stream: &mut F,
    into: &mut [u8],
) -> io::Result<usize>
    ensures { ReadsAtMost result into.new }
{
    for _ in 0..u64::MAX {
        match stream.read(into) {
            Err(error) if error.kind() == ErrorKind::WouldBlock => {
                thread::sleep(clock, Duration::from_millis(PAUSE));
            }
            answer => return answer,
        }
    }
    stream.read(into)
}

/// Writes as `write` does, but where nothing is taken yet it waits.
pub fn write_patiently<C: Clock, F: Write>(
    clock: &C,
    stream: &mut F,
    piece: &[u8],
) -> io::Result<usize>
    ensures { WritesAtMost result piece.now }
{
    for _ in 0..u64::MAX {
        match stream.write(piece) {
            Err(error) if error.kind() == ErrorKind::WouldBlock => {
                thread::sleep(clock, Duration::from_millis(PAUSE));
            }
            answer => return answer,
        }
    }
    stream.write(piece)
}
