//! Scripts that are cut, bent or too large.

use super::{compare, options, run, two_workers};
use play::{Always, Fail as PlayFail};
use script::{BadScript, Word};
use std::alloc::{AllocError, Global};
use std::sync::Wait;
use std::test::Fail;
use std::thread::Threads;

/// What a script comes to: its output, or the row and the word that refuse it.
#[derive(Clone, Copy, PartialEq, Eq, Debug)]
enum End {
    Prints(&'static [u8]),
    Refuses(u32, Word),
}

/// Whether a script with one worker ends so.
fn ends<R: Threads + Wait + Sync>(
    rt: &R,
    alloc: Global,
    text: &[u8],
    end: End,
) -> Result<bool, AllocError> {
    let mut options = options(1, 4096, false);
    options.workers = 1;
    let (ended, out) = run(rt, alloc, &options, text, &Always);
    Ok(match end {
        End::Prints(wanted) => ended == Ok(()) && out.as_slice() == wanted,
        End::Refuses(row, word) => {
            let refused = BadScript::Refused { row, word };
            ended == Err(PlayFail::Script(refused)) && out.is_empty()
        }
    })
}

/// Two rows, cut after each number of bytes.
#[test]
fn cut_anywhere(rt: HostRuntime) -> Result<(), Fail> {
    let alloc = rt.alloc();
    let text: &[u8] = b"1,1,put,a,text,AB\n1,1,read,a,0,2\n";
    for n in 0..text.len() + 1 {
        let end = match n {
            0 => End::Prints(b"calls 0\nlawful yes\n"),
            1..=14 => End::Refuses(1, Word::Fields),
            15..=18 => End::Prints(b"1 stored 1\ncalls 1\nlawful yes\n"),
            19..=30 => End::Refuses(2, Word::Fields),
            31 => End::Refuses(2, Word::Argument),
            _ => End::Prints(b"1 stored 1\n2 granted 1 2 0 4142\ncalls 2\nlawful yes\n"),
        };
        assert!(rt; ends(&rt, alloc, &text[..n], end)?, "{n}");
    }
    Ok(())
}

/// Rows that are refused, and why.
const ROWS: [(&str, Word); 15] = [
    ("4294967296,1,stat,a,,", Word::Round),
    ("1,0,stat,a,,", Word::Worker),
    ("1,2,stat,a,,", Word::Worker),
    ("1,1,mend,,,", Word::Worker),
    ("1,0,mend,,,", Word::Mend),
    ("2,0,mend,a,,", Word::Name),
    ("2,0,mend,,0,", Word::Argument),
    ("1,1,move,a,,", Word::Op),
    ("1,1,stat,A,,", Word::Name),
    ("1,1,read,a,18446744073709551616,0", Word::Argument),
    ("1,1,read,a,00,1", Word::Argument),
    ("1,1,put,a,hex,0", Word::Argument),
    ("1,1,put,a,hex,0F", Word::Argument),
    ("1,1,trim,a,0,", Word::Name),
    ("1,1,trim,,0,0", Word::Argument),
];

/// Each alone, after a put of twelve letters.
#[test]
fn bent_rows(rt: HostRuntime) -> Result<(), Fail> {
    let alloc = rt.alloc();
    for (row, word) in &ROWS {
        let text = format!(in alloc; "1,1,put,a,text,ABCDEFGHIJKL\n{row}\n")?;
        assert!(rt;
            ends(&rt, alloc, text.as_bytes(), End::Refuses(2, *word))?,
            "{row}"
        );
    }
    let no_utf8: &[u8] = b"1,1,put,a,text,AB\n1,1,stat,\xff,,\n";
    assert!(rt; ends(&rt, alloc, no_utf8, End::Refuses(2, Word::Name))?);
    Ok(())
}

/// As many rows as a script may have, and one more, whatever it holds.
#[test]
fn too_many_rows(rt: HostRuntime) -> Result<(), Fail> {
    let alloc = rt.alloc();
    let options = two_workers();
    let mut text = "1,1,stat,a,,\n".repeat(alloc, 65536)?;
    let (most, out) = run(&rt, alloc, &options, text.as_bytes(), &Always);
    compare(&rt, most, Ok(()));
    assert!(rt;
        out.as_slice()
            .ends_with(b"\n65536 full\ncalls 4096\nlawful yes\n")
    );
    text.push_str("no row\n")?;
    let (one_more, out) = run(&rt, alloc, &options, text.as_bytes(), &Always);
    let refused = BadScript::Refused {
        row: 65537,
        word: Word::Rows,
    };
    compare(&rt, one_more, Err(PlayFail::Script(refused)));
    assert!(rt; out.is_empty());
    Ok(())
}
