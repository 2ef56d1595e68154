//! Tables of cases: each has a label, rows, and the status and report that they must have.
use crate::fault::RowFault;
use std::alloc::Global;

/// A case of a table.
#[derive(Clone, Copy, Debug, PartialEq, Eq)]
pub struct Case<'a> {
    /// What the case shows.
    pub label: &'a str,
    /// The rows of its bundle.
    pub rows: &'a str,
    /// The exit status that it must have.
    pub status: u8,
    /// The report that it must have.
    pub report: &'a str,
}

/// The cases of a table. Each has a line `== LABEL`, its rows, a line `-> STATUS`, and the lines of its report.
pub fn cases_of(alloc: Global, table: &str) -> Result<Vec<Case<'_>>, RowFault<'_>> {
    let mut cases = Vec::new(alloc);
    for block in table.split("== ").skip(1) {
        cases.push(case_of(block).ok_or(RowFault::BadRow(block))?)?;
    }
    Ok(cases)
}

// The case of a block, which begins with its label.
fn case_of(block: &str) -> Option<Case<'_>> {
    let (label, rest) = block.split_once('\n')?;
    let (rows, rest) = rest.split_once("-> ")?;
    let (status, report) = rest.split_once('\n')?;
    Some(Case {
        label,
        rows,
        status: status.parse().ok()?,
        report,
    })
}
