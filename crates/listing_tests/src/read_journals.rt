// Texts of journals by hand: those that are read and written again, and lines that can't stand there.
ghost use Rattle.std.specs.Prelude.{◌<◌, ◌^◌, IfOk, length};

use journal_text::{JournalRefusal, read_journal, write_journal};
use std::test::Fail;

// Every kind of line, with every kind of request, answer and field.
const TEXTS: &[&str] = &[
    "chill journal 1\nend\n",
    "chill journal 1\ndid 1 0 put 33 done -\ndid 1 0 end normal done -\nend\n",
    "chill journal 1\ndid 1 0 put - done -\ndid 2 9 put 00ff0a done -\nend\n",
    "chill journal 1\ndid 1 0 read 0 1 2 value 2 -5 7 -\ndid 1 0 write 0 1 1 1 -9223372036854775808 done -\nend\n",
    "chill journal 1\ndid 3 0 enter 4 done -\nwaits 2 1 enter 4\ndid 3 0 leave 4 done -\ngoes 2 done\nend\n",
    "chill journal 1\nwaits 1 0 delay 2 0 0 3 1 5\ndid 2 0 continue 3 chose 1 -\ndid 2 0 continue 3 chose - -\nend\n",
    "chill journal 1\ngoes 1 woken 1 2\ndid 1 0 sendb 0 1 9223372036854775807 4 stored -\nend\n",
    "chill journal 1\ndid 2 0 recvb 1 0 0 0 got 0 1 1 9 1 3\ndid 2 0 recvb 0 1 otherwise -\nend\n",
    "chill journal 1\ndid 2 0 sends 1 0 7 0 handed 7 -\ndid 2 0 sends 1 0 - 0 fail 6 -\nwaits 7 0 recvs 1 1 0 0\nend\n",
    "chill journal 1\ndid 1 0 start 4294967295 1 0 instance 2 -\ndid 1 0 get value 1 0 -\ndid 1 0 get fail 4294967302 -\nend\n",
    "chill journal 1\nruns 1 256\ndid 1 0 end stopped done -\ndid 2 0 end raised 0 done -\nend\n",
];

// A text, and the number of its first line that can't stand there.
const BAD: &[(&str, u32)] = &[
    ("", 1),
    ("chill journal 1", 1),
    ("chill journal 2\nend\n", 1),
    ("chill journal 1\n", 2),
    ("chill journal 1\nend", 2),
    ("chill journal 1\nend\nend\n", 3),
    ("chill journal 1\nruns 1 1\nend\n\n", 4),
    ("chill journal 1\nruns 1 1\n", 3),
    ("chill journal 1\nruns 1 01\nend\n", 2),
    ("chill journal 1\nruns 1 +1\nend\n", 2),
    ("chill journal 1\nruns 1 4294967296\nend\n", 2),
    ("chill journal 1\nruns  1 1\nend\n", 2),
    ("chill journal 1\nruns 1 1 \nend\n", 2),
    ("chill journal 1\nruns 1\nend\n", 2),
    ("chill journal 1\nruns 1 1\r\nend\n", 2),
    ("chill journal 1\nruns 1 1\nRuns 1 1\nend\n", 3),
    ("chill journal 1\ndid 1 0 put 3 done -\nend\n", 2),
    ("chill journal 1\ndid 1 0 put 3A done -\nend\n", 2),
    ("chill journal 1\ndid 1 0 put  done -\nend\n", 2),
    ("chill journal 1\ndid 1 0 get value 1 -0 -\nend\n", 2),
    ("chill journal 1\ndid 1 0 get value 2 1 -\nend\n", 2),
    (
        "chill journal 1\ndid 1 0 get value 1 9223372036854775808 -\nend\n",
        2,
    ),
    ("chill journal 1\ndid 1 0 get fail 4294967303 -\nend\n", 2),
    (
        "chill journal 1\ndid 1 0 recvb 1 0 0 2 otherwise -\nend\n",
        2,
    ),
    ("chill journal 1\ndid 1 0 end raised done -\nend\n", 2),
];

// The bytes of a text, which are to be fewer than 2^32.
fn bytes_of(text: &str) -> Result<&[u8], Fail>
    ensures { IfOk result (λ bytes. length bytes.now < 2 ^ 32) }
{
    let bytes = text.as_bytes();
    if bytes.len() < 4_294_967_296 {
        Ok(bytes)
    } else {
        Err(Fail::from("a long text"))
    }
}

#[test]
fn texts_by_hand_are_read_and_written_again(rt: HostRuntime) -> Result<(), Fail> {
    let alloc = rt.alloc();
    for text in TEXTS {
        match read_journal(alloc, bytes_of(text)?) {
            Ok(events) => {
                let written = write_journal(alloc, events.as_slice())?;
                assert_eq!(rt; written.as_slice(), text.as_bytes());
            }
            Err(_) => assert!(rt; false, "not read: {text}"),
        }
    }
    Ok(())
}

#[test]
fn the_first_line_that_cannot_stand_there_is_told(rt: HostRuntime) -> Result<(), Fail> {
    for (text, wanted) in BAD {
        match read_journal(rt.alloc(), bytes_of(text)?) {
            Err(JournalRefusal::BadLine { line }) => assert_eq!(rt; line, *wanted, "{text}"),
            _ => assert!(rt; false, "no bad line: {text}"),
        }
    }
    Ok(())
}
