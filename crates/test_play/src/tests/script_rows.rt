use super::compare;
use requests::Ask;
use script::{BadScript, NotRead, Row, Task, Word, read_script, script};
use std::alloc::Global;
use std::io;
use std::io::Read;
use std::test::Fail;

/// A reader that gives at most so many bytes at a time, each time after a read that was
/// interrupted. At the end it fails with an error of this kind, if there is one.
#[derive(Drop)]
struct Halting<'a> {
    left: &'a [u8],
    most: usize,
    is_interrupted: bool,
    kind: Option<io::ErrorKind>,
}

impl<'a> Halting<'a> {
    fn new(left: &'a [u8], most: usize, kind: Option<io::ErrorKind>) -> Halting<'a> {
        Halting {
            left,
            most,
            is_interrupted: false,
            kind,
        }
    }
}

impl Read for Halting<'_> {
    fn read(&mut self, buf: &mut [u8]) -> io::Result<usize> {
        self.is_interrupted = !self.is_interrupted;
        if self.is_interrupted {
            return Err(io::Error::from(io::ErrorKind::Interrupted));
        }
        match self.kind {
            Some(kind) if self.left.is_empty() => Err(io::Error::from(kind)),
            _ => {
                let room = buf.len().min(self.most);
                self.left.read(&mut buf[..room])
            }
        }
    }
}

/// The number and the word of a script's refusal, (0, None) for one that is not refused.
fn refusal(alloc: Global, text: &[u8], workers: u32) -> (u32, Option<Word>) {
    match script(alloc, text, workers) {
        Ok(_) => (0, None),
        Err(BadScript::Refused { row, word }) => (row, Some(word)),
        Err(BadScript::NoMemory) => (99, None),
    }
}

/// Scripts for so many workers, with the number and the word of their refusal.
const REFUSALS: [(&[u8], u32, (u32, Option<Word>)); 18] = [
    (b"", 1, (0, None)),
    (b"\n\n1,1,put,a,text,\n\n", 1, (0, None)),
    (
        b"1,1,put,a,text,AB\n1,1,read,a,0",
        1,
        (2, Some(Word::Fields)),
    ),
    (b"0,1,read,a,0,1", 1, (1, Some(Word::Round))),
    (b"01,1,read,a,0,1", 1, (1, Some(Word::Round))),
    (b"4294967296,1,read,a,0,1", 1, (1, Some(Word::Round))),
    (b"2,1,read,a,0,1\n1,1,read,a,0,1", 1, (2, Some(Word::Round))),
    (b"1,0,read,a,0,1", 1, (1, Some(Word::Worker))),
    (b"1,2,read,a,0,1", 1, (1, Some(Word::Worker))),
    (b"1,2,read,a,0,1", 2, (0, None)),
    (b"1,1,move,a,0,0", 1, (1, Some(Word::Op))),
    (b"1,1,read,A,0,1", 1, (1, Some(Word::Name))),
    (b"1,1,read,\xff,0,1", 1, (1, Some(Word::Name))),
    (b"1,1,put,a,hex,0", 1, (1, Some(Word::Argument))),
    (
        b"1,1,read,a,18446744073709551616,0",
        1,
        (1, Some(Word::Argument)),
    ),
    (b"1,1,put6,a,hex,0F", 1, (1, Some(Word::Argument))),
    (b"1,1,stat,a,1,", 1, (1, Some(Word::Argument))),
    (b"1,1,read,a,00,1", 1, (1, Some(Word::Argument))),
];

#[test]
fn refusals(rt: HostRuntime) {
    for (text, workers, wanted) in &REFUSALS {
        compare(&rt, refusal(rt.alloc(), text, *workers), *wanted);
    }
}

/// Whether a script is one put of these bytes.
fn puts_bytes(rows: &[Row], wanted: &[u8]) -> bool {
    match rows {
        [row] => match &row.task {
            Task::Make(Ask::Put { bytes, .. }) => bytes.as_slice() == wanted,
            Task::Make(_) | Task::Mend => false,
        },
        _ => false,
    }
}

/// Whether a text is a script of one put of these bytes.
fn is_put(alloc: Global, text: &[u8], wanted: &[u8]) -> bool {
    match script(alloc, text, 1) {
        Ok(rows) => puts_bytes(rows.as_slice(), wanted),
        Err(_) => false,
    }
}

#[test]
fn puts(rt: HostRuntime) {
    assert!(rt; is_put(rt.alloc(), b"1,1,put,a,text,\xff", b"\xff"));
    assert!(rt; is_put(rt.alloc(), b"1,1,put,a,hex,00ff", b"\x00\xff"));
    assert!(rt; is_put(rt.alloc(), b"1,1,put,a,text,\"x,\"\"y\"", b"x,\"y"));
}

const BAD_SECOND: BadScript = BadScript::Refused {
    row: 2,
    word: Word::Fields,
};

const BAD_FIRST: BadScript = BadScript::Refused {
    row: 1,
    word: Word::Fields,
};

/// Scripts with how many rows they have, or why they are refused.
const TEXTS: [(&[u8], Result<usize, NotRead>); 8] = [
    (b"", Ok(0)),
    (b"\n\n", Ok(0)),
    (b"\xef\xbb\xbf", Ok(0)),
    (b"\xef\xbb\xbf1,1,put,a,text,AB\n1,1,read,a,0,1", Ok(2)),
    (b"\n1,1,put,a,text,AB\n1,1,read,a,0,1\n", Ok(2)),
    (b"\"\"\n1,1,put,a,text,AB\n", Err(NotRead::Bad(BAD_FIRST))),
    (b",\n1,1,put,a,text,AB\n", Err(NotRead::Bad(BAD_FIRST))),
    (
        b"1,1,put,a,text,AB\n1,1,read,a,0\n1,1,read,a,0,1\n",
        Err(NotRead::Bad(BAD_SECOND)),
    ),
];

/// How many rows a reader's script has, or why it is not read.
fn count_rows(alloc: Global, input: Halting) -> Result<usize, NotRead> {
    read_script(alloc, input, 1).map(|rows| rows.len())
}

/// How many rows a script has, or why it is refused, whatever number of bytes a read gives.
#[test]
fn a_few_bytes_at_a_time(rt: HostRuntime) {
    for (text, wanted) in &TEXTS {
        for most in 1..10 {
            let input = Halting::new(*text, most, None);
            compare(&rt, count_rows(rt.alloc(), input), *wanted);
        }
    }
}

/// A reader that fails after any number of bytes: the failure is reported, before a refused row and
/// after it.
#[test]
fn a_reader_fails(rt: HostRuntime) {
    let text: &[u8] = b"1,1,put,a,text,AB\n1,1,read,a,0\n1,1,read,a,0,1\n";
    for given in 0..text.len() + 1 {
        for kind in &[io::ErrorKind::Other, io::ErrorKind::OutOfMemory] {
            let input = Halting::new(&text[..given], 5, Some(*kind));
            let read = count_rows(rt.alloc(), input);
            compare(&rt, read, Err(NotRead::Reader(*kind)));
        }
    }
}

/// The first record is the first row, as a reader gives it.
#[test]
fn the_first_row(rt: HostRuntime) -> Result<(), Fail> {
    let alloc = rt.alloc();
    let input = Halting::new(b"1,1,put,a,text,\xff", 3, None);
    let rows = read_script(alloc, input, 1).map_err(|_| "refused")?;
    assert!(rt; puts_bytes(rows.as_slice(), b"\xff"));
    let text: &[u8] = b"1,1,put,a,text,\"x,\"\"y\"";
    let rows = read_script(alloc, text, 1).map_err(|_| "refused")?;
    assert!(rt; puts_bytes(rows.as_slice(), b"x,\"y"));
    Ok(())
}
