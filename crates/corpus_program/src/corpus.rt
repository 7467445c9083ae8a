//! Compares the library's results with those in a corpus.
ghost use Rattle.std.specs.Prelude.{◌≡◌, ◌+◌, ◌*◌, ◌≤◌, IfOk, IfSome, length};
ghost use Rattle.std.specs.Io.Iter.{u64_saturate};
ghost use Rattle.rustc_demangle.specs.Lines.{lines};
ghost use Rattle.corpus_program.specs.Differences.{difference};

use crate::case::{Case, Expected, Forms, Results};
use crate::results::{limited_forms, pieces_forms, results_of};
use std::alloc::{AllocError, Global};
use std::io::{BufRead, ErrorKind, Write};
use std::{fmt, io};

/// The reason for which a corpus could not be compared completely.
#[derive(Debug, Drop)]
pub enum CorpusError {
    Read,
    Write,
    Memory,
}

impl From<AllocError> for CorpusError {
    fn from(_error: AllocError) -> CorpusError {
        CorpusError::Memory
    }
}

impl fmt::Display for CorpusError {
    fn fmt<W: fmt::Write>(&self, f: &mut fmt::Formatter<W>) -> fmt::Result {
        match self {
            CorpusError::Read => write!(f, "read failed"),
            CorpusError::Write => write!(f, "write failed"),
            CorpusError::Memory => write!(f, "out of memory"),
        }
    }
}

/// The number of lines and the number of differences.
#[derive(Drop)]
pub struct Counts {
    pub lines: u64,
    pub differences: u64,
}

impl fmt::Display for Counts {
    fn fmt<W: fmt::Write>(&self, f: &mut fmt::Formatter<W>) -> fmt::Result {
        let lines = self.lines;
        let differences = self.differences;
        write!(f, "{lines} lines, {differences} differences")
    }
}

/// Writes the difference in a column, if there is one. Returns the number of differences, 0 or 1.
///
/// # Errors
///
/// Returns the error of the output if a write fails.
fn compare<W: Write>(
    column: &str,
    line: u64,
    expected: &[u8],
    actual: &[u8],
    output: &mut W,
) -> io::Result<u64>
    ensures count { IfOk result (λ n. n ≡ difference expected.now actual.now) }
    ensures most { IfOk result (λ n. n ≤ 1) }
{
    if expected == actual {
        return Ok(0);
    }
    write!(output, "line {line}: {column}\n  wanted ")?;
    output.write_all(expected)?;
    output.write_all(b"\n  got    ")?;
    output.write_all(actual)?;
    output.write_all(b"\n")?;
    Ok(1)
}

/// Writes the differences in the printed text. Returns their number, at most 2.
fn compare_forms<W: Write>(
    line: u64,
    expected: &Forms<&[u8]>,
    actual: &Forms<Vec<u8>>,
    output: &mut W,
) -> io::Result<u64>
    ensures count { IfOk result (λ n. n ≡ difference expected.now.plain.now actual.now.plain.items
        + difference expected.now.alt.now actual.now.alt.items) }
    ensures most { IfOk result (λ n. n ≤ 2) }
{
    let plain = compare(
        "plain",
        line,
        expected.plain,
        actual.plain.as_slice(),
        output,
    )?;
    let alt = compare("alt", line, expected.alt, actual.alt.as_slice(), output)?;
    Ok(plain + alt)
}

/// Writes the differences in the results of all calls. Returns their number, at most 4.
fn compare_results<W: Write>(
    line: u64,
    expected: &Results<&[u8]>,
    actual: &Results<Vec<u8>>,
    output: &mut W,
) -> io::Result<u64>
    ensures count { IfOk result (λ n. n ≡ difference expected.now.status.now actual.now.status.items
        + difference expected.now.as_str.now actual.now.as_str.items
        + (difference expected.now.printed.plain.now actual.now.printed.plain.items
        + difference expected.now.printed.alt.now actual.now.printed.alt.items)) }
    ensures most { IfOk result (λ n. n ≤ 4) }
{
    let status = compare(
        "status",
        line,
        expected.status,
        actual.status.as_slice(),
        output,
    )?;
    let as_str = compare(
        "as_str",
        line,
        expected.as_str,
        actual.as_str.as_slice(),
        output,
    )?;
    let printed = compare_forms(line, &expected.printed, &actual.printed, output)?;
    Ok(status + as_str + printed)
}

/// Compares the library's results with a line and writes each difference. Returns their number.
///
/// A line that can't be parsed counts as a difference.
fn check_line<W: Write>(
    alloc: Global,
    number: u64,
    line: &str,
    output: &mut W,
) -> Result<u64, CorpusError>
    ensures { IfOk result (λ n. n ≤ 4) }
{
    let Some(case) = Case::parse(alloc, line)? else {
        writeln!(output, "line {number} can't be read").map_err(|_| CorpusError::Write)?;
        return Ok(1);
    };
    let text = case.text.as_str();
    let differences = match &case.expected {
        Expected::Results(expected) => {
            compare_results(number, expected, &results_of(alloc, text)?, output)
        }
        Expected::Limited(limit, expected) => {
            compare_forms(
                number,
                expected,
                &limited_forms(alloc, text, *limit)?,
                output,
            )
        }
        Expected::Pieces(expected) => {
            compare_forms(number, expected, &pieces_forms(alloc, text)?, output)
        }
    };
    differences.map_err(|_| CorpusError::Write)
}

/// Converts an error of the input to the error of the comparison.
fn read_fault(error: &io::Error) -> CorpusError {
    if error.kind() == ErrorKind::OutOfMemory {
        CorpusError::Memory
    } else {
        CorpusError::Read
    }
}

/// Compares the library's results with each line of a corpus. Writes each difference, at most four
/// for a line, and then the counts.
///
/// # Errors
///
/// Returns `CorpusError` if the input can't be read, the output can't be written, or an allocation
/// fails.
pub fn corpus_run<R: BufRead, W: Write>(
    alloc: Global,
    input: &mut R,
    output: &mut W,
) -> Result<Counts, CorpusError>
    ensures most { IfOk result (λ counts. counts.differences ≤ 4 * counts.lines) }
    ensures lines { IfOk result (λ counts. IfSome (R.remaining input.old)
        (λ text. counts.lines ≡ u64_saturate (length (lines text)))) }
{
    let mut counts = Counts {
        lines: 0,
        differences: 0,
    };
    for line in input.lines(alloc) {
        let line = match line {
            Ok(line) => line,
            Err(error) => return Err(read_fault(&error)),
        };
        counts.lines = counts.lines.saturating_add(1);
        let differences = check_line(alloc, counts.lines, line.as_str(), output)?;
        counts.differences = counts.differences.saturating_add(differences);
    }
    writeln!(output, "{counts}").map_err(|_| CorpusError::Write)?;
    output.flush().map_err(|_| CorpusError::Write)?;
    Ok(counts)
}
