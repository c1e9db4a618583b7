//! Which rows a pace is asked about.
ghost use Rattle.std.specs.Prelude.{◌≡◌, IfOk};

use super::{compare, options, run};
use play::Fail as PlayFail;
use shared::Pace;
use std::alloc::Global;
use std::sync::atomic::{AtomicU64, Ordering};
use std::test::Fail;

/// Writes down its calls, a digit for each: `1` to `7` before the row of this number, `9` after it.
/// It stops at one row.
#[derive(Drop)]
struct RecordingPace {
    digits: AtomicU64,
    last: u32,
}

impl RecordingPace {
    fn note(&self, digit: u32) {
        let before = self.digits.load(Ordering::SeqCst);
        let digits = before.wrapping_mul(10).wrapping_add(u64::from(digit));
        self.digits.store(digits, Ordering::SeqCst);
    }
}

impl Pace for RecordingPace {
    fn before(&self, row: u32) -> bool {
        self.note(row);
        row != self.last
    }

    fn after(&self, row: u32) {
        self.note(row);
        self.note(9);
    }
}

const FIVE_ROWS: &[u8] =
    b"1,1,put,a,text,ABCDEFGHIJKL\n1,1,lose,a,0,0\n1,1,read,b,0,6\n2,0,mend,,,\n3,1,stat,a,,\n";

/// `before` and `after` are called once for each row, in order, also for a mend. After a stop
/// nothing more is called.
#[test]
fn each_row_is_reported_once(rt: HostRuntime) -> Result<(), Fail> {
    let alloc = rt.alloc();
    let mut options = options(1, 4096, false);
    options.workers = 1;
    let expected: [(u32, u64); 6] = [
        (1, 1),
        (2, 1192),
        (3, 1192293),
        (4, 1192293394),
        (5, 1192293394495),
        (6, 119_229_339_449_559),
    ];
    for (last, digits) in expected {
        let pace = RecordingPace {
            digits: AtomicU64::new(0),
            last,
        };
        let (ended, _out) = run(&rt, alloc, &options, FIVE_ROWS, &pace);
        let wanted = if last < 6 {
            Err(PlayFail::Paused)
        } else {
            Ok(())
        };
        compare(&rt, ended, wanted);
        compare(&rt, pace.digits.load(Ordering::SeqCst), digits);
    }
    Ok(())
}

/// The text of each fail that no script is refused for.
#[test]
fn failures_are_reported(rt: HostRuntime) -> Result<(), Fail> {
    let fails = [
        (PlayFail::Read, "cannot read the script"),
        (PlayFail::Write, "cannot write"),
        (PlayFail::Memory, "out of memory"),
        (PlayFail::Start, "cannot start a worker"),
        (PlayFail::Paused, "stopped"),
    ];
    for (fail, text) in fails {
        compare(&rt, format!(in rt.alloc(); "{fail}")?.as_str(), text);
    }
    Ok(())
}
