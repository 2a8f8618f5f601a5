//! The difference of two lists of lines.

ghost use Rattle.std.specs.Prelude.{◌≡◌, ◌≤◌, ◌⊎◌, ◌++◌, IfOk, MatchOption, OnOk, length, map};
ghost use Rattle.script_expectations.specs.Change.{IsNext, change_of, changes_of};
ghost use Rattle.script_expectations.specs.CommonLengths.{IsTable};
ghost use Rattle.script_expectations.specs.Line.{texts};
ghost use Rattle.script_expectations.specs.Shortest.{all_changed, both, difference, missing, replaced, same_len, shortest, unexpected};

use crate::change::Change;
use crate::common_lengths::CommonLengths;
use std::alloc::{AllocError, Global};

/// The greatest number of lines of a list of which the shortest difference is computed, in time and memory of its square.
const MAX_LINES: usize = 4096;

/// Returns the difference of the lines that are expected and those that were printed: the lines at the start that are the same,
/// and then a shortest difference of the others, with the fewest missing and unexpected lines. If a list has more than 4,096 others,
/// all of them are missing, or unexpected.
pub(crate) fn difference<'a>(
    alloc: Global,
    expected: &[&'a [u8]],
    printed: &[&'a [u8]],
) -> Result<Vec<Change<'a>>, AllocError>
    ensures { IfOk result (λ changes.
        changes_of changes.items ≡ difference (texts expected.now) (texts printed.now)) }
{
    let same = same_len(expected, printed);
    let mut changes = Vec::new(alloc);
    let (first, expected) = expected.split_at(same);
    let (_, printed) = printed.split_at(same);
    push_both(&mut changes, first)?;
    push_replaced(alloc, &mut changes, expected, printed)?;
    Ok(changes)
}

/// Returns how many lines at the start are the same.
fn same_len(expected: &[&[u8]], printed: &[&[u8]]) -> usize
    ensures len { result ≡ same_len (texts expected.now) (texts printed.now) }
    ensures within_expected { result ≤ length expected.now }
    ensures within_printed { result ≤ length printed.now }
{
    for (i, line) in expected.iter().enumerate() {
        if i >= printed.len() || *line != printed[i] {
            return i;
        }
    }
    expected.len()
}

/// Appends the difference of lines of which the first differ.
fn push_replaced<'a>(
    alloc: Global,
    changes: &mut Vec<Change<'a>>,
    expected: &[&'a [u8]],
    printed: &[&'a [u8]],
) -> Result<(), AllocError>
    ensures { OnOk result (changes_of changes.new.items ≡ changes_of changes.old.items
        ++ replaced (texts expected.now) (texts printed.now)) }
{
    if expected.len() <= MAX_LINES && printed.len() <= MAX_LINES {
        push_shortest(alloc, changes, expected, printed)
    } else {
        push_all(changes, expected, printed)
    }
}

/// Appends a shortest difference.
fn push_shortest<'a>(
    alloc: Global,
    changes: &mut Vec<Change<'a>>,
    expected: &[&'a [u8]],
    printed: &[&'a [u8]],
) -> Result<(), AllocError>
    requires { length printed.now ≤ 4096 }
    ensures { OnOk result (changes_of changes.new.items ≡ changes_of changes.old.items
        ++ shortest (texts expected.now) (texts printed.now)) }
{
    let lengths = CommonLengths::new(alloc, expected, printed)?;
    let mut i = 0;
    let mut j = 0;
    while let Some(change) = next_change(&lengths, expected, printed, i, j) {
        changes.push(change)?;
        i += change.expected_count();
        j += change.printed_count();
    }
    let (_, expected) = expected.split_at(i);
    let (_, printed) = printed.split_at(j);
    push_all(changes, expected, printed)
}

/// Returns the next line of a shortest difference, from a line of each list on, unless there is none in one of them.
fn next_change<'a>(
    lengths: &CommonLengths,
    expected: &[&'a [u8]],
    printed: &[&'a [u8]],
    i: usize,
    j: usize,
) -> Option<Change<'a>>
    requires { IsTable (texts expected.now) (texts printed.now) lengths.now.rows.items }
    ensures { MatchOption result ((length expected.now ≤ i) ⊎ (length printed.now ≤ j))
        (λ change. IsNext (texts expected.now) (texts printed.now) i j (change_of change)) }
{
    if i >= expected.len() {
        return None;
    }
    if j >= printed.len() {
        return None;
    }
    let line = expected[i];
    let other = printed[j];
    if line == other {
        return Some(Change::Both(line));
    }
    let left = expected.len() - i;
    let rest = printed.len() - j;
    if lengths.at(left, rest - 1) <= lengths.at(left - 1, rest) {
        Some(Change::Missing(line))
    } else {
        Some(Change::Unexpected(other))
    }
}

/// Appends lines of both lists.
fn push_both<'a>(changes: &mut Vec<Change<'a>>, lines: &[&'a [u8]]) -> Result<(), AllocError>
    ensures { OnOk result (changes_of changes.new.items ≡ changes_of changes.old.items
        ++ map both (texts lines.now)) }
{
    for line in lines {
        changes.push(Change::Both(line))?;
    }
    Ok(())
}

/// Appends all lines that are expected as missing, and then all that were printed as unexpected.
fn push_all<'a>(
    changes: &mut Vec<Change<'a>>,
    expected: &[&'a [u8]],
    printed: &[&'a [u8]],
) -> Result<(), AllocError>
    ensures { OnOk result (changes_of changes.new.items ≡ changes_of changes.old.items
        ++ all_changed (texts expected.now) (texts printed.now)) }
{
    push_missing(changes, expected)?;
    push_unexpected(changes, printed)
}

/// Appends lines that are missing.
fn push_missing<'a>(changes: &mut Vec<Change<'a>>, lines: &[&'a [u8]]) -> Result<(), AllocError>
    ensures { OnOk result (changes_of changes.new.items ≡ changes_of changes.old.items
        ++ map missing (texts lines.now)) }
{
    for line in lines {
        changes.push(Change::Missing(line))?;
    }
    Ok(())
}

/// Appends lines that are not expected.
fn push_unexpected<'a>(changes: &mut Vec<Change<'a>>, lines: &[&'a [u8]]) -> Result<(), AllocError>
    ensures { OnOk result (changes_of changes.new.items ≡ changes_of changes.old.items
        ++ map unexpected (texts lines.now)) }
{
    for line in lines {
        changes.push(Change::Unexpected(line))?;
    }
    Ok(())
}
