//! The text of `--help`, apart from the options.

/// The purpose of the program, in the first line of the help.
pub(crate) const ABOUT: &str = "Runs a script of calls over an in-memory blob store that reads \
    and mends blobs with lost fragments.";

/// The text below the options.
pub(crate) const MORE: &str = "A row of SCRIPT is round,worker,op,name,a,b, with no header row:
  put      a: text or hex     b: the bytes            stores a blob in LRC(12,2,2)
  put6     a: text or hex     b: the bytes            stores a blob in LRC(6,2,2)
  read     a: first byte      b: number of bytes      reads a range, lost fragments or not
  lose     a: stripe          b: fragment             loses a fragment
  repair   a: stripe          b: fragment             rebuilds a lost fragment
  delete, stat                                        deletes a blob; prints its shape
  trim     a: entries to keep                         no name; discards older journal entries
  mend                                                no name, worker 0, alone in its round; repairs all
The rows of a round run at the same time, each worker's in order. An example:
  1,1,put,a,text,HELLO
  1,1,lose,a,0,0
  2,1,read,a,0,5

Exit status: 0 done, 1 a row is refused or a file can't be read or written, 2 the command line
is refused, 3 out of memory or threads. docs/script.md describes it all.";
