//! Results against their plan.
use super::{compare, name_of};
use book::{Answer, Item, Plan};
use mender::{Done, Gather, Report, gather};
use std::alloc::Global;
use std::process::Abort;
use std::test::Fail;

/// A fragment of the only stripe of `a`.
fn item(rt: &impl Abort, f: u8) -> Item {
    Item {
        name: name_of(rt, "a"),
        version: 1,
        stripe: 0,
        f,
    }
}

/// A plan of these fragments.
fn plan_of(rt: &impl Abort, alloc: Global, planned: &[u8]) -> Plan {
    let mut items = Vec::new(alloc);
    for &f in planned {
        items.push(item(rt, f)).expect(rt, "memory");
    }
    Plan { items }
}

/// Results with these tickets and fragments, all repaired.
fn all_repaired(rt: &impl Abort, alloc: Global, results: &[(u64, u8)]) -> Vec<Done> {
    let mut all = Vec::new(alloc);
    for &(ticket, f) in results {
        let done = Done {
            ticket,
            item: item(rt, f),
            answer: Answer::Repaired(1),
        };
        all.push(done).expect(rt, "memory");
    }
    all
}

/// The outcome of results with these tickets and fragments, all repaired, against a plan of these
/// fragments.
fn gathered(
    rt: &impl Abort,
    alloc: Global,
    planned: &[u8],
    results: &[(u64, u8)],
) -> Result<Report, Gather> {
    let plan = plan_of(rt, alloc, planned);
    let done = all_repaired(rt, alloc, results);
    gather(alloc, &plan, done)
}

const NONE_REPAIRED: Report = Report {
    repaired: 0,
    not_lost: 0,
    gone: 0,
    unrecoverable: 0,
};

const TWO_REPAIRED: Report = Report {
    repaired: 2,
    not_lost: 0,
    gone: 0,
    unrecoverable: 0,
};

/// Results for a plan of two fragments, 0 and 6, with what comes of them.
const CASES: [(&[(u64, u8)], Result<Report, Gather>); 9] = [
    (&[(0, 0), (1, 6)], Ok(TWO_REPAIRED)),
    (&[(1, 6), (0, 0)], Ok(TWO_REPAIRED)),
    (&[], Err(Gather::Missing)),
    (&[(1, 6)], Err(Gather::Missing)),
    (&[(0, 0), (0, 0)], Err(Gather::Twice)),
    (&[(0, 0), (5, 0)], Err(Gather::Stranger)),
    (&[(0, 0), (0, 0), (5, 0)], Err(Gather::Twice)),
    (&[(0, 6)], Err(Gather::Stranger)),
    (&[(0, 0), (0, 6)], Err(Gather::Stranger)),
];

#[test]
fn the_first_fault_is_answered(rt: HostRuntime) {
    for (results, wanted) in &CASES {
        let found = gathered(&rt, rt.alloc(), &[0, 6], results);
        compare(&rt, found, *wanted);
    }
    let found = gathered(&rt, rt.alloc(), &[], &[]);
    compare(&rt, found, Ok(NONE_REPAIRED));
}

#[test]
fn a_report_is_one_line(rt: HostRuntime) -> Result<(), Fail> {
    let report = Report {
        repaired: 1,
        not_lost: 2,
        gone: 3,
        unrecoverable: 4,
    };
    let shown = format!(in rt.alloc(); "{report}")?;
    compare(&rt, shown.as_str(), "mended 1 2 3 4");
    Ok(())
}
