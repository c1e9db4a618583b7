use super::ranges::{blob, blob_in, grant, without};
use lent::{Grant, Piece};
use lrc_code::Code;
use std::alloc::Global;
use std::process::Abort;
use std::test::Fail;

const LETTERS: &[u8] = b"ABCDEFGHIJKLMNOPQRSTUVWXYZabcdefghijklmnopqrstuv";

/// That a walk gives these runs, each with whether it is lent.
fn gives(rt: &impl Abort, alloc: Global, grant: &Grant, runs: &[(bool, &[u8])]) {
    let mut walk = grant.walk();
    for (lent, want) in runs {
        let run = walk
            .next_run(alloc)
            .expect(rt, "memory")
            .expect(rt, "a run");
        assert!(rt; matches!(run, Piece::Lent(_)) == *lent);
        assert!(rt; run.bytes() == *want);
    }
    assert!(rt; walk.next_run(alloc).expect(rt, "memory").is_none());
}

#[test]
fn an_intact_blob_is_one_run(rt: HostRuntime) -> Result<(), Fail> {
    let alloc = rt.alloc();
    let sealed = blob(&rt, alloc, LETTERS, 1);
    gives(&rt, alloc, &grant(&rt, &sealed, 0, 48), &[(true, LETTERS)]);
    let part = &[(true, b"FGHIJKLMNOPQRSTUVWXYZabcde".as_slice())];
    gives(&rt, alloc, &grant(&rt, &sealed, 5, 26), part);
    gives(&rt, alloc, &grant(&rt, &sealed, 48, 0), &[]);
    let small = blob_in(&rt, alloc, Code::Small, LETTERS, 4);
    gives(&rt, alloc, &grant(&rt, &small, 0, 48), &[(true, LETTERS)]);
    Ok(())
}

#[test]
fn a_partial_last_stripe_is_a_run_of_its_own(rt: HostRuntime) -> Result<(), Fail> {
    let sealed = blob(&rt, rt.alloc(), b"ABCDEFGHIJKLMNOPQRSTUVWXYZabc", 1);
    let runs = &[
        (true, b"ABCDEFGHIJKLMNOPQRSTUVWX".as_slice()),
        (true, b"YZabc".as_slice()),
    ];
    gives(&rt, rt.alloc(), &grant(&rt, &sealed, 0, 29), runs);
    let last = &[(true, b"Zab".as_slice())];
    gives(&rt, rt.alloc(), &grant(&rt, &sealed, 25, 3), last);
    Ok(())
}

/// The second of four stripes has lost a fragment, so that its fragments are lent one by one.
#[test]
fn a_loss_ends_runs_in_its_stripe_alone(rt: HostRuntime) -> Result<(), Fail> {
    let alloc = rt.alloc();
    let whole = blob_in(&rt, alloc, Code::Small, b"ABCDEFGHIJKLMNOPQRSTUVWX", 1);
    let sealed = without(&rt, alloc, &whole, 1, &[2]);
    let runs = &[
        (true, b"CDEF".as_slice()),
        (true, b"G".as_slice()),
        (true, b"H".as_slice()),
        (false, b"I".as_slice()),
        (true, b"J".as_slice()),
        (true, b"K".as_slice()),
        (true, b"L".as_slice()),
        (true, b"MNOPQRSTUVW".as_slice()),
    ];
    gives(&rt, alloc, &grant(&rt, &sealed, 2, 21), runs);
    gives(
        &rt,
        alloc,
        &grant(&rt, &whole, 2, 21),
        &[(true, b"CDEFGHIJKLMNOPQRSTUVW".as_slice())],
    );
    Ok(())
}
