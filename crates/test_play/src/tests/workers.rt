//! Workers on threads of their own, and mends by all of them.
ghost use Rattle.std.specs.Prelude.{◌≡◌, IfOk};
ghost use Rattle.script.specs.Ranges.{InRange};

use super::{compare, options, run};
use play::{Always, Fail as PlayFail, Options};
use shared::Pace;
use std::alloc::{AllocError, Global};
use std::process::Abort;
use std::sync::Wait;
use std::sync::atomic::{AtomicBool, AtomicU32, Ordering};
use std::test::Fail;
use std::thread;
use std::thread::Threads;

/// The options of a run with so many workers.
fn with_workers(workers: u32, limit: u32) -> Options
    ensures { (result.workers ≡ workers) × (result.width ≡ 1) × (result.limit ≡ limit) }
{
    Options {
        workers,
        ..options(1, limit, false)
    }
}

/// A pace in which the first two rows wait for one another.
#[derive(Drop)]
struct Meeting {
    first: AtomicBool,
    second: AtomicBool,
}

/// Sets a flag, and waits for the other.
fn meets(mine: &AtomicBool, other: &AtomicBool) -> bool {
    mine.store(true, Ordering::SeqCst);
    for _ in 0..1_000_000u32 {
        if other.load(Ordering::SeqCst) {
            return true;
        }
        thread::yield_now();
    }
    false
}

impl Pace for Meeting {
    fn before(&self, row: u32) -> bool {
        match row {
            1 => meets(&self.first, &self.second),
            2 => meets(&self.second, &self.first),
            _ => true,
        }
    }

    fn after(&self, _row: u32) {}
}

/// A pace in which those who come to row 4 wait for a second one.
#[derive(Drop)]
struct Gathering {
    came: AtomicU32,
}

impl Pace for Gathering {
    fn before(&self, row: u32) -> bool {
        if row != 4 {
            return true;
        }
        let _before = self.came.fetch_add(1, Ordering::SeqCst);
        for _ in 0..1_000_000u32 {
            if self.came.load(Ordering::SeqCst) >= 2 {
                return true;
            }
            thread::yield_now();
        }
        false
    }

    fn after(&self, _row: u32) {}
}

/// 200 rows of one round: a put by each of two workers, under names of their own, and then reads of
/// them.
fn two_names(alloc: Global) -> Result<String, AllocError> {
    let mut text = String::new(alloc);
    text.push_str("1,1,put,a,text,ABCDEFGHIJKL\n1,2,put,b,text,ABCDEFGHIJKL\n")?;
    for _ in 0..99u32 {
        text.push_str("1,1,read,a,0,12\n1,2,read,b,0,12\n")?;
    }
    Ok(text)
}

/// What these rows print where the two puts are of these versions.
fn two_versions(alloc: Global, first: u32, second: u32) -> Result<String, AllocError> {
    let mut text = String::new(alloc);
    writeln!(text, "1 stored {first}")?;
    writeln!(text, "2 stored {second}")?;
    let bytes = "4142434445464748494a4b4c";
    for turn in 1..100u32 {
        let row = 2 * turn;
        writeln!(text, "{} granted {first} 12 0 {bytes}", row + 1)?;
        writeln!(text, "{} granted {second} 12 0 {bytes}", row + 2)?;
    }
    text.push_str("calls 200\nlawful yes\n")?;
    Ok(text)
}

/// Two workers run at the same time: the first row of each waits for that of the other. On one
/// thread the run is serial, and stops.
#[test]
fn two_workers_meet(rt: HostRuntime) -> Result<(), Fail> {
    let alloc = rt.alloc();
    let options = with_workers(2, 4096);
    let script = two_names(alloc)?;
    let pace = Meeting {
        first: AtomicBool::new(false),
        second: AtomicBool::new(false),
    };
    let (ended, out) = run(&rt, alloc, &options, script.as_bytes(), &pace);
    assert!(rt; ended != Err(PlayFail::Paused), "serial");
    compare(&rt, ended, Ok(()));
    let (one, other) = (two_versions(alloc, 1, 2)?, two_versions(alloc, 2, 1)?);
    assert!(rt; out.as_slice() == one.as_bytes() || out.as_slice() == other.as_bytes());
    Ok(())
}

const TWO_LOST: &[u8] =
    b"1,1,put,a,text,ABCDEFGHIJKL\n1,1,lose,a,0,0\n1,1,lose,a,0,6\n2,0,mend,,,\n3,1,stat,a,,\n";

const TWO_MENDED: &[u8] =
    b"1 stored 1\n2 lost 1\n3 lost 1\n4 mended 2 0 0 0\n5 shape 1 12 1 0\ncalls 6\nlawful yes\n";

/// Two workers of a mend run at the same time: each waits for the other before it draws.
#[test]
fn two_menders_meet(rt: HostRuntime) -> Result<(), Fail> {
    let alloc = rt.alloc();
    let options = with_workers(2, 4096);
    let pace = Gathering {
        came: AtomicU32::new(0),
    };
    let (ended, out) = run(&rt, alloc, &options, TWO_LOST, &pace);
    assert!(rt; ended != Err(PlayFail::Paused), "serial");
    compare(&rt, ended, Ok(()));
    assert!(rt; out.as_slice() == TWO_MENDED);
    Ok(())
}

const TWO_FULL: &[u8] = b"1 stored 1\n2 lost 1\n3 lost 1\n4 full\n5 full\ncalls 4\nlawful yes\n";

/// So many workers print this with a journal of so many entries.
fn mends_by<R: Threads + Wait + Sync + Abort>(
    rt: &R,
    alloc: Global,
    workers: u32,
    limit: u32,
    wanted: &[u8],
) -> Result<(), AllocError>
    requires workers { InRange workers 16 }
    requires limit { InRange limit 1048576 }
{
    let options = with_workers(workers, limit);
    let (ended, out) = run(rt, alloc, &options, TWO_LOST, &Always);
    compare(rt, ended, Ok(()));
    assert!(rt; out.as_slice() == wanted);
    Ok(())
}

/// Any number of workers mends all, and tells a full journal.
#[test]
fn mends(rt: HostRuntime) -> Result<(), Fail> {
    let alloc = rt.alloc();
    mends_by(&rt, alloc, 1, 4096, TWO_MENDED)?;
    mends_by(&rt, alloc, 2, 4096, TWO_MENDED)?;
    mends_by(&rt, alloc, 16, 4096, TWO_MENDED)?;
    mends_by(&rt, alloc, 1, 4, TWO_FULL)?;
    mends_by(&rt, alloc, 2, 4, TWO_FULL)?;
    mends_by(&rt, alloc, 16, 4, TWO_FULL)?;
    Ok(())
}

/// A pace that stops at this row.
#[derive(Drop)]
struct Until(u32);

impl Pace for Until {
    fn before(&self, row: u32) -> bool {
        row != self.0
    }

    fn after(&self, _row: u32) {}
}

/// A row that is not let through ends the run with nothing printed.
#[test]
fn pauses(rt: HostRuntime) -> Result<(), Fail> {
    let alloc = rt.alloc();
    let options = with_workers(2, 4096);
    for row in 1..6 {
        let (ended, out) = run(&rt, alloc, &options, TWO_LOST, &Until(row));
        compare(&rt, ended, Err(PlayFail::Paused));
        assert!(rt; out.is_empty());
    }
    Ok(())
}
