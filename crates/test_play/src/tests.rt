ghost use Rattle.std.specs.Prelude.{◌≡◌};
ghost use Rattle.script.specs.Ranges.{InRange};

use play::{Always, Fail as PlayFail, Options, play};
use script::{BadScript, Word};
use shared::Pace;
use std::alloc::Global;
use std::fmt::Debug;
use std::io;
use std::io::{Read, Write};
use std::process::Abort;
use std::sync::Wait;
use std::test::Fail;
use std::thread::Threads;

/// A reader that gives its bytes one at a time, and fails behind the last.
#[derive(Drop)]
struct Breaking<'a> {
    left: &'a [u8],
}

impl Read for Breaking<'_> {
    fn read(&mut self, buf: &mut [u8]) -> io::Result<usize> {
        if self.left.is_empty() {
            return Err(io::Error::from(io::ErrorKind::Other));
        }
        let one = buf.len().min(1);
        self.left.read(&mut buf[..one])
    }
}

/// A writer that takes so many bytes, and then fails.
#[derive(Drop)]
struct Narrow {
    room: usize,
}

impl Write for Narrow {
    fn write(&mut self, buf: &[u8]) -> io::Result<usize> {
        if self.room == 0 {
            return Err(io::Error::from(io::ErrorKind::Other));
        }
        let taken = buf.len().min(self.room);
        self.room -= taken;
        Ok(taken)
    }

    fn flush(&mut self) -> io::Result<()> {
        Ok(())
    }
}

/// The options of a run with two workers.
fn options(width: u32, limit: u32, history: bool) -> Options
    ensures { (result.workers ≡ 2) × (result.width ≡ width) × (result.limit ≡ limit) }
{
    Options {
        width,
        workers: 2,
        limit,
        history,
    }
}

fn two_workers() -> Options
    ensures { (result.workers ≡ 2) × (result.width ≡ 1) × (result.limit ≡ 4096) }
{
    options(1, 4096, false)
}

/// How a run of a script ends, and what it writes.
fn run<R: Threads + Wait + Sync, P: Pace + Sync>(
    rt: &R,
    alloc: Global,
    options: &Options,
    script: &[u8],
    pace: &P,
) -> (Result<(), PlayFail>, Vec<u8>)
    requires width { InRange options.now.width 65536 }
    requires workers { InRange options.now.workers 16 }
    requires limit { InRange options.now.limit 1048576 }
{
    let mut out = Vec::new(alloc);
    let ended = play(rt, alloc, options, script, &mut out, pace);
    (ended, out)
}

/// Asserts that what was found is what was wanted. For the prover a call is one state, and
/// `assert_eq!` in place is many.
fn compare<T: PartialEq + Debug + Drop>(rt: &impl Abort, found: T, wanted: T) {
    assert_eq!(rt; found, wanted);
}

const FIRST_PATH: &[u8] = b"1,1,put,a,text,HELLO\n2,2,read,a,1,3\n";

const FIRST_OUTPUT: &[u8] = b"1 stored 1\n2 granted 1 3 0 454c4c\ncalls 2\nlawful yes\n";

/// Scripts with what they print.
#[test]
fn scripts(rt: HostRuntime) -> Result<(), Fail> {
    let alloc = rt.alloc();
    let options = two_workers();
    let rows: [(&[u8], &[u8]); 5] = [
        (FIRST_PATH, FIRST_OUTPUT),
        (b"", b"calls 0\nlawful yes\n"),
        (
            b"1,1,put,e,text,\n1,1,read,e,0,0\n1,1,read,e,0,1\n1,1,read,f,0,0",
            b"1 stored 1\n2 granted 1 0 0 -\n3 out-of-range\n4 no-name\ncalls 4\nlawful yes\n",
        ),
        (
            b"1,1,put,a,text,AB\n2,2,put,a,text,CD\n3,1,read,a,0,2\n",
            b"1 stored 1\n2 stored 2\n3 granted 2 2 0 4344\ncalls 3\nlawful yes\n",
        ),
        (
            b"1,1,put,z,text,\xff\n1,1,read,z,0,1\n1,1,read,z,18446744073709551615,2\n",
            b"1 stored 1\n2 granted 1 1 0 ff\n3 out-of-range\ncalls 3\nlawful yes\n",
        ),
    ];
    for (text, wanted) in &rows {
        let (ended, out) = run(&rt, alloc, &options, text, &Always);
        compare(&rt, ended, Ok(()));
        assert!(rt; out.as_slice() == *wanted);
    }
    Ok(())
}

/// A refused script leaves nothing behind.
#[test]
fn a_row_is_cut(rt: HostRuntime) -> Result<(), Fail> {
    let alloc = rt.alloc();
    let options = two_workers();
    let text: &[u8] = b"1,1,put,a,text,AB\n1,1,read,a,0";
    let (ended, out) = run(&rt, alloc, &options, text, &Always);
    let refused = BadScript::Refused {
        row: 2,
        word: Word::Fields,
    };
    compare(&rt, ended, Err(PlayFail::Script(refused)));
    assert!(rt; out.is_empty());
    Ok(())
}

/// A read that fails after any number of bytes is reported, and nothing runs. A write that fails
/// after any number of bytes is reported.
#[test]
fn broken_ends(rt: HostRuntime) -> Result<(), Fail> {
    let alloc = rt.alloc();
    let options = two_workers();
    for given in 0..FIRST_PATH.len() + 1 {
        let mut out: Vec<u8> = Vec::new(alloc);
        let input = Breaking {
            left: &FIRST_PATH[..given],
        };
        compare(
            &rt,
            play(&rt, alloc, &options, input, &mut out, &Always),
            Err(PlayFail::Read),
        );
        assert!(rt; out.is_empty());
    }
    for room in 0..FIRST_OUTPUT.len() {
        let mut narrow = Narrow { room };
        compare(
            &rt,
            play(&rt, alloc, &options, FIRST_PATH, &mut narrow, &Always),
            Err(PlayFail::Write),
        );
    }
    Ok(())
}

mod bent;
mod degraded;
mod paced;
mod script_rows;
mod words;
mod workers;
