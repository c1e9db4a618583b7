//! Blobs that lose fragments, ranges at the ends, and both codes: scripts with what they print.

use super::{compare, options, run};
use play::Always;
use std::alloc::Global;
use std::process::Abort;
use std::sync::Wait;
use std::test::Fail;
use std::thread::Threads;

#[derive(Drop)]
struct Case {
    name: &'static str,
    width: u32,
    limit: u32,
    history: bool,
    script: &'static [u8],
    output: &'static [u8],
}

const CASES: [Case; 20] = [
    Case {
        name: "one lost, with history",
        width: 1,
        limit: 4096,
        history: true,
        script: b"1,1,put,a,text,ABCDEFGHIJKL\n1,1,lose,a,0,0\n1,1,read,a,0,12",
        output: b"1 stored 1\n2 lost 1\n3 granted 1 11 1 4142434445464748494a4b4c\n\
            h 1 1 put a 12 stored 1\nh 2 1 lose a 0 0 lost 1\nh 3 1 read a 0 12 granted 1\n\
            calls 3\nlawful yes\n",
    },
    Case {
        name: "two of each group",
        width: 1,
        limit: 4096,
        history: false,
        script: b"1,1,put,a,text,ABCDEFGHIJKL\n1,1,lose,a,0,0\n1,1,lose,a,0,1\n1,1,lose,a,0,6\n\
            1,1,lose,a,0,7\n1,1,read,a,0,12",
        output: b"1 stored 1\n2 lost 1\n3 lost 1\n4 lost 1\n5 lost 1\n\
            6 granted 1 8 4 4142434445464748494a4b4c\ncalls 6\nlawful yes\n",
    },
    Case {
        name: "four of one group",
        width: 1,
        limit: 4096,
        history: false,
        script: b"1,1,put,a,text,ABCDEFGHIJKL\n1,1,lose,a,0,0\n1,1,lose,a,0,1\n1,1,lose,a,0,2\n\
            1,1,lose,a,0,3\n1,1,read,a,0,1\n1,1,read,a,4,8",
        output: b"1 stored 1\n2 lost 1\n3 lost 1\n4 lost 1\n5 lost 1\n6 unrecoverable 1\n\
            7 granted 1 8 0 45464748494a4b4c\ncalls 7\nlawful yes\n",
    },
    Case {
        name: "excess 3",
        width: 1,
        limit: 4096,
        history: false,
        script: b"1,1,put,a,text,ABCDEFGHIJKL\n1,1,lose,a,0,0\n1,1,lose,a,0,1\n1,1,lose,a,0,6\n\
            1,1,lose,a,0,14\n1,1,lose,a,0,15\n1,1,read,a,6,1\n1,1,read,a,0,1\n\
            1,1,repair,a,0,6\n1,1,repair,a,0,0",
        output: b"1 stored 1\n2 lost 1\n3 lost 1\n4 lost 1\n5 lost 1\n6 lost 1\n\
            7 granted 1 0 1 47\n8 unrecoverable 1\n9 repaired 1\n10 unrecoverable 1\ncalls 10\n\
            lawful yes\n",
    },
    Case {
        name: "three and two",
        width: 1,
        limit: 4096,
        history: false,
        script: b"1,1,put,a,text,ABCDEFGHIJKL\n1,1,lose,a,0,0\n1,1,lose,a,0,1\n1,1,lose,a,0,2\n\
            1,1,lose,a,0,6\n1,1,lose,a,0,7\n1,1,read,a,8,4\n1,1,read,a,6,2",
        output: b"1 stored 1\n2 lost 1\n3 lost 1\n4 lost 1\n5 lost 1\n6 lost 1\n\
            7 granted 1 4 0 494a4b4c\n8 unrecoverable 1\ncalls 8\nlawful yes\n",
    },
    Case {
        name: "all parities",
        width: 1,
        limit: 4096,
        history: false,
        script: b"1,1,put,a,text,ABCDEFGHIJKL\n1,1,lose,a,0,12\n1,1,lose,a,0,13\n\
            1,1,lose,a,0,14\n1,1,lose,a,0,15\n1,1,read,a,0,12\n1,1,repair,a,0,12\n\
            1,1,repair,a,0,13\n1,1,repair,a,0,14\n1,1,repair,a,0,15\n1,1,stat,a,,",
        output: b"1 stored 1\n2 lost 1\n3 lost 1\n4 lost 1\n5 lost 1\n\
            6 granted 1 12 0 4142434445464748494a4b4c\n7 repaired 1\n8 repaired 1\n\
            9 repaired 1\n10 repaired 1\n11 shape 1 12 1 0\ncalls 11\nlawful yes\n",
    },
    Case {
        name: "the empty blob",
        width: 1,
        limit: 4096,
        history: false,
        script: b"1,1,put,e,text,\n1,1,stat,e,,\n1,1,read,e,0,0\n1,1,read,e,0,1\n\
            1,1,lose,e,0,0",
        output: b"1 stored 1\n2 shape 1 0 0 0\n3 granted 1 0 0 -\n4 out-of-range\n\
            5 no-fragment\ncalls 5\nlawful yes\n",
    },
    Case {
        name: "filling is no knowledge",
        width: 1,
        limit: 4096,
        history: false,
        script: b"1,1,put,a,text,ABCDEFGHIJKLM\n1,1,lose,a,1,0\n1,1,lose,a,1,1\n\
            1,1,lose,a,1,2\n1,1,lose,a,1,3\n1,1,read,a,12,1\n1,1,read,a,0,12",
        output: b"1 stored 1\n2 lost 1\n3 lost 1\n4 lost 1\n5 lost 1\n6 unrecoverable 1\n\
            7 granted 1 12 0 4142434445464748494a4b4c\ncalls 7\nlawful yes\n",
    },
    Case {
        name: "filling lost",
        width: 1,
        limit: 4096,
        history: false,
        script: b"1,1,put,a,text,ABCDEFGHIJKLM\n1,1,lose,a,1,1\n1,1,lose,a,1,2\n\
            1,1,lose,a,1,3\n1,1,lose,a,1,4\n1,1,read,a,12,1",
        output: b"1 stored 1\n2 lost 1\n3 lost 1\n4 lost 1\n5 lost 1\n6 granted 1 1 0 4d\n\
            calls 6\nlawful yes\n",
    },
    Case {
        name: "width 4",
        width: 4,
        limit: 4096,
        history: false,
        script: b"1,1,put,a,text,ABCDEFGHIJKLMNOPQRSTUVWXYZabcdefghijklmnopqrstuv\n\
            1,1,read,a,3,6\n1,1,lose,a,0,1\n1,1,read,a,3,6",
        output: b"1 stored 1\n2 granted 1 3 0 444546474849\n3 lost 1\n\
            4 granted 1 2 1 444546474849\ncalls 4\nlawful yes\n",
    },
    Case {
        name: "twice, and the ends",
        width: 1,
        limit: 4096,
        history: false,
        script: b"1,1,put,a,text,ABCDEFGHIJKL\n1,1,lose,a,0,0\n1,1,lose,a,0,0\n\
            1,1,repair,a,0,0\n1,1,repair,a,0,0\n1,1,read,a,18446744073709551615,2\n\
            1,1,read,a,12,0\n1,1,read,a,13,0\n1,1,lose,a,0,16\n1,1,lose,a,4294967296,0",
        output: b"1 stored 1\n2 lost 1\n3 already-lost\n4 repaired 1\n5 not-lost\n\
            6 out-of-range\n7 granted 1 0 0 -\n8 out-of-range\n9 no-fragment\n10 no-fragment\n\
            calls 10\nlawful yes\n",
    },
    Case {
        name: "a full journal",
        width: 1,
        limit: 3,
        history: false,
        script: b"1,1,put,a,text,ABCDEFGHIJKL\n1,1,stat,a,,\n1,1,stat,a,,\n1,1,stat,a,,",
        output: b"1 stored 1\n2 shape 1 12 1 0\n3 shape 1 12 1 0\n4 full\ncalls 3\n\
            lawful yes\n",
    },
    Case {
        name: "deleted",
        width: 1,
        limit: 4096,
        history: false,
        script: b"1,1,put,a,text,ABCDEFGHIJKL\n1,1,delete,a,,\n1,1,read,a,0,1\n1,1,delete,a,,\n\
            1,1,put,a,hex,00ff\n1,1,read,a,0,2",
        output: b"1 stored 1\n2 deleted 1\n3 no-name\n4 no-name\n5 stored 2\n\
            6 granted 2 2 0 00ff\ncalls 6\nlawful yes\n",
    },
    Case {
        name: "small, two of each",
        width: 1,
        limit: 4096,
        history: false,
        script: b"1,1,put6,s,text,ABCDEF\n1,1,lose,s,0,0\n1,1,lose,s,0,1\n1,1,lose,s,0,3\n\
            1,1,lose,s,0,4\n1,1,read,s,0,6",
        output: b"1 stored 1\n2 lost 1\n3 lost 1\n4 lost 1\n5 lost 1\n\
            6 granted 1 2 4 414243444546\ncalls 6\nlawful yes\n",
    },
    Case {
        name: "small, one group",
        width: 1,
        limit: 4096,
        history: false,
        script: b"1,1,put6,s,text,ABCDEF\n1,1,lose,s,0,0\n1,1,lose,s,0,1\n1,1,lose,s,0,2\n\
            1,1,lose,s,0,6\n1,1,read,s,0,1\n1,1,read,s,3,3",
        output: b"1 stored 1\n2 lost 1\n3 lost 1\n4 lost 1\n5 lost 1\n6 unrecoverable 1\n\
            7 granted 1 3 0 444546\ncalls 7\nlawful yes\n",
    },
    Case {
        name: "small has ten",
        width: 1,
        limit: 4096,
        history: false,
        script: b"1,1,put6,s,text,ABCDEF\n1,1,lose,s,0,10\n1,1,stat,s,,",
        output: b"1 stored 1\n2 no-fragment\n3 shape 1 6 1 0\ncalls 3\nlawful yes\n",
    },
    Case {
        name: "small history",
        width: 1,
        limit: 4096,
        history: true,
        script: b"1,1,put6,s,text,ABCDEF",
        output: b"1 stored 1\nh 1 1 put6 s 6 stored 1\ncalls 1\nlawful yes\n",
    },
    Case {
        name: "a trimmed journal has room again",
        width: 1,
        limit: 3,
        history: true,
        script: b"1,1,put,a,text,ABCDEFGHIJKL\n1,1,stat,a,,\n1,1,trim,,0,\n1,1,stat,a,,\n\
            1,1,stat,a,,\n1,1,stat,a,,\n1,1,stat,a,,",
        output: b"1 stored 1\n2 shape 1 12 1 0\n3 trimmed 2\n4 shape 1 12 1 0\n\
            5 shape 1 12 1 0\n6 shape 1 12 1 0\n7 full\nh 3 1 stat a shape 1 12 1 0\n\
            h 4 1 stat a shape 1 12 1 0\nh 5 1 stat a shape 1 12 1 0\ncalls 5\nlawful yes\n",
    },
    Case {
        name: "a loss before the trim",
        width: 1,
        limit: 4096,
        history: true,
        script: b"1,1,put,a,text,ABCDEFGHIJKL\n1,1,lose,a,0,0\n1,1,trim,,1,\n1,1,lose,a,0,0",
        output: b"1 stored 1\n2 lost 1\n3 trimmed 1\n4 already-lost\nh 2 1 lose a 0 0 lost 1\n\
            h 3 1 lose a 0 0 already-lost\ncalls 3\nlawful yes\n",
    },
    Case {
        name: "mended",
        width: 1,
        limit: 4096,
        history: false,
        script: b"1,1,put,a,text,ABCDEFGHIJKL\n1,1,lose,a,0,0\n1,1,lose,a,0,6\n2,0,mend,,,\n\
            3,1,stat,a,,",
        output: b"1 stored 1\n2 lost 1\n3 lost 1\n4 mended 2 0 0 0\n5 shape 1 12 1 0\ncalls 6\n\
            lawful yes\n",
    },
];

/// Runs the script of a case, and compares what it prints.
fn plays<R: Threads + Wait + Sync + Abort>(rt: &R, alloc: Global, case: &Case) {
    let name = case.name;
    let (width, limit) = (case.width, case.limit);
    assert!(rt; width >= 1 && width <= 65536 && limit >= 1 && limit <= 1048576);
    let options = options(width, limit, case.history);
    let (ended, out) = run(rt, alloc, &options, case.script, &Always);
    assert_eq!(rt; ended, Ok(()), "{name}");
    assert!(rt; out.as_slice() == case.output, "{name}");
}

#[test]
fn scripts(rt: HostRuntime) {
    for case in &CASES {
        plays(&rt, rt.alloc(), case);
    }
}

/// The most that a blob can have, and one byte more.
#[test]
fn long_blobs(rt: HostRuntime) -> Result<(), Fail> {
    let alloc = rt.alloc();
    let options = options(1, 4096, false);
    for (op, most) in &[("put", 49152usize), ("put6", 24576)] {
        let bytes = "x".repeat(alloc, *most)?;
        let text = format!(in alloc;
            "1,1,{op},a,text,{bytes}\n1,1,stat,a,,\n1,1,{op},a,text,{bytes}x\n1,1,stat,a,,\n"
        )?;
        let (ended, out) = run(&rt, alloc, &options, text.as_bytes(), &Always);
        compare(&rt, ended, Ok(()));
        let wanted = format!(in alloc;
            "1 stored 1\n2 shape 1 {most} 4096 0\n3 too-long\n4 shape 1 {most} 4096 0\ncalls 3\n\
                lawful yes\n"
        )?;
        assert!(rt; out.as_slice() == wanted.as_bytes());
    }
    Ok(())
}
