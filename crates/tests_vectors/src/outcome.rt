//! How a row compares with what the library answers.
use crate::cells::text;
use anyhow::Result;
use predicates::reflection::{Case, render};
use std::alloc::Global;

/// A cell of a row that differs from what was found.
#[derive(Drop)]
pub struct Difference {
    pub column: &'static str,
    pub expected: String,
    pub found: String,
}

/// What came of a row: the cells that differ from what was found.
#[derive(Drop)]
pub struct Outcome {
    pub alloc: Global,
    pub wrong: Vec<Difference>,
}

impl Outcome {
    /// Adds a difference where the text that is expected is not the one that was found.
    pub fn compare_text(
        &mut self,
        column: &'static str,
        expected: &str,
        found: &str,
    ) -> Result<()> {
        if expected != found {
            self.wrong.push(Difference {
                column,
                expected: String::from_str(self.alloc, expected)?,
                found: String::from_str(self.alloc, found)?,
            })?;
        }
        Ok(())
    }

    /// Adds a difference where the text that the cell is written for is not the one that was found.
    pub fn compare(&mut self, column: &'static str, cell: &str, found: &str) -> Result<()> {
        let expected = text(self.alloc, cell)?;
        self.compare_text(column, expected.as_str(), found)
    }

    /// The same of a truth.
    pub fn compare_truth(&mut self, column: &'static str, cell: &str, found: bool) -> Result<()> {
        self.compare_text(column, cell, if found { "true" } else { "false" })
    }

    /// The same of a number.
    pub fn compare_number(&mut self, column: &'static str, cell: &str, found: usize) -> Result<()> {
        let found = found.to_string(self.alloc)?;
        self.compare_text(column, cell, found.as_str())
    }

    /// The same of the lines of a case, or `none`.
    pub fn compare_case(
        &mut self,
        column: &'static str,
        cell: &str,
        found: &Option<Case>,
    ) -> Result<()> {
        let Some(case) = found else {
            return self.compare_text(column, cell, "none");
        };
        let found = render(self.alloc, case)?;
        self.compare(column, cell, found.as_str())
    }
}
