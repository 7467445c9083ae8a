//! Tests of the text that a comparison of lines in memory writes.
use corpus_program::corpus::{CorpusError, corpus_run};
use std::alloc::{AllocError, Global};
use std::test::Fail;

const AGREEING: &[u8] = b"_ZN3fooE\\n\tERR\t=\t_ZN3fooE\\n\t_ZN3fooE\\n
_ZN5a\\\\b\\tcE\tOK\t=\ta\\\\b\\tc\ta\\\\b\\tc
_ZN1\\0E\tOK\t=\t\\0\t\\0
_ZN1\\rE\tOK\t=\t\\r\t\\r
_ZN3fooE.llvm.AB\tOK\t_ZN3fooE\tfoo\tfoo
foo.llvm.AB\tERR\tfoo\tfoo\tfoo
\tERR\t=\t\t
_ZN3foo17h05af221e174051e9E\tOK\t=\tfoo::h05af221e174051e9\tfoo
\\limit\t_ZN3foo17h05af221e174051e9E\t3\tfoo{size limit reached}\tfoo
\\limit\t_ZN1\\\\E.x\t00\t{size limit reached}.x\t{size limit reached}.x
\\limit\tfoo\t0\tfoo\tfoo
\\pieces\t_ZN3foo17h05af221e174051e9E.x\tfoo\\|::\\|h05af221e174051e9\\|.x\tfoo\\|.x
\\pieces\t_ZN7a\\\\$u7c$E\ta\\\\\\||\ta\\\\\\||
\\pieces\tfoo\tfoo\tfoo
\\pieces\t_ZN0E\t\t
";

/// The column for a text of 2,001 times `a`.
const LONG: &str =
    "#len=2001 sha256=a0b153f094495e7397ecded317f606264cb1b8dd33e650ddd4be00c2674aa5e7";

/// Returns the line of a symbol whose element is `len` times `a`, with this column.
fn long_line(alloc: Global, len: usize, column: &str) -> Result<String, AllocError> {
    let element = String::from_utf8_lossy(alloc, vec![in alloc; b'a'; len]?.as_slice())?;
    format!(in alloc; "_ZN{len}{element}E\tOK\t=\t{column}\t{column}\n")
}

#[test]
fn agreeing_lines_are_counted(rt: HostRuntime) -> Result<(), Fail> {
    let alloc = rt.alloc();
    let mut input = AGREEING;
    let mut output = Vec::new(alloc);
    let counts = corpus_run(alloc, &mut input, &mut output)
        .ok()
        .ok_or("fault")?;
    assert_eq!(rt; output.as_slice(), b"15 lines, 0 differences\n".as_slice());
    assert_eq!(rt; counts.lines, 15);
    assert_eq!(rt; counts.differences, 0);
    Ok(())
}

#[test]
fn differences_are_written(rt: HostRuntime) -> Result<(), Fail> {
    let alloc = rt.alloc();
    let mut input: &[u8] = b"_ZN3fooE\tOK\t=\tfoo\tfoo
_ZN3fooE\tERR\tfoo\tbar\t
_ZN3fooE\tOK\t=\tfoo
_ZN1\\xE\tOK\t=\tx\tx
\\limits\t_ZN3fooE\t0\tfoo\tfoo
_ZN1aE\tOK\t=\ta\tb";
    let mut output = Vec::new(alloc);
    let counts = corpus_run(alloc, &mut input, &mut output)
        .ok()
        .ok_or("fault")?;
    let expected: &[u8] = b"line 2: status
  wanted ERR
  got    OK
line 2: as_str
  wanted foo
  got    =
line 2: plain
  wanted bar
  got    foo
line 2: alt
  wanted 
  got    foo
line 3 can't be read
line 4 can't be read
line 5 can't be read
line 6: alt
  wanted b
  got    a
6 lines, 8 differences
";
    assert_eq!(rt; output.as_slice(), expected);
    assert_eq!(rt; counts.differences, 8);
    Ok(())
}

#[test]
fn differences_of_limits_and_pieces_are_written(rt: HostRuntime) -> Result<(), Fail> {
    let alloc = rt.alloc();
    let mut input: &[u8] = b"\\limit\t_ZN1aE\t0\ta\t{size limit reached}
\\limit\t_ZN1aE\tx\ta\ta
\\limit\t_ZN1aE\t0\ta
\\pieces\t_ZN1a1bE\ta\\|::b\ta::\\|b
\\pieces\t_ZN1\\xE\tx\tx
\\pieces\t_ZN1aE\ta";
    let mut output = Vec::new(alloc);
    let counts = corpus_run(alloc, &mut input, &mut output)
        .ok()
        .ok_or("fault")?;
    let expected: &[u8] = b"line 1: plain
  wanted a
  got    {size limit reached}
line 2 can't be read
line 3 can't be read
line 4: plain
  wanted a\\|::b
  got    a\\|::\\|b
line 4: alt
  wanted a::\\|b
  got    a\\|::\\|b
line 5 can't be read
line 6 can't be read
6 lines, 7 differences
";
    assert_eq!(rt; output.as_slice(), expected);
    assert_eq!(rt; counts.differences, 7);
    Ok(())
}

#[test]
fn long_texts_are_digests(rt: HostRuntime) -> Result<(), Fail> {
    let alloc = rt.alloc();
    let whole = String::from_utf8_lossy(alloc, vec![in alloc; b'a'; 2000]?.as_slice())?;
    let mut lines = long_line(alloc, 2001, LONG)?;
    lines.push_str(long_line(alloc, 2000, whole.as_str())?.as_str())?;
    lines.push_str(long_line(alloc, 2002, LONG)?.as_str())?;
    let mut input = lines.as_str().as_bytes();
    let mut output = Vec::new(alloc);
    let counts = corpus_run(alloc, &mut input, &mut output)
        .ok()
        .ok_or("fault")?;
    assert_eq!(rt; counts.lines, 3);
    assert_eq!(rt; counts.differences, 2);
    assert!(rt;
        output
            .as_slice()
            .starts_with(b"line 3: plain\n  wanted #len=2001 ")
    );
    Ok(())
}

#[test]
fn streams_that_fail_are_errors(rt: HostRuntime) -> Result<(), Fail> {
    let alloc = rt.alloc();
    let mut input: &[u8] = b"_ZN3fooE\tOK\t=\tfoo\tfoo\n\xFF\n";
    let mut output = Vec::new(alloc);
    let run = corpus_run(alloc, &mut input, &mut output);
    assert!(rt; matches!(run, Err(CorpusError::Read)));
    assert!(rt; output.is_empty());
    let mut room = [0; 10];
    let run = corpus_run(alloc, &mut AGREEING, &mut room.as_mut_slice());
    assert!(rt; matches!(run, Err(CorpusError::Write)));
    Ok(())
}
