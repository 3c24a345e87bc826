//! Columns made of ranges, and read at a number.
ghost use Rattle.std.specs.Prelude.{◌≤◌, IfOk, IfSome, List, length, map};
ghost use Rattle.acl_policy.specs.Rules.{RuleFacts, most_rules, rule_facts};
ghost use Rattle.packet_view.specs.Tuples.{TupleFacts};
ghost use Rattle.rule_index.specs.inner.Columns.{Holds};
ghost use Rattle.rule_index.specs.declared.ranges_of_rules.Dimension.{Dimension};
ghost use Rattle.rule_index.specs.Dimensions.{IsAt};
ghost use Rattle.rule_index.specs.Indexes.{Sieves};
ghost use Rattle.rule_index.specs.inner.NumberedRows.{words_of};
ghost use Rattle.rule_index.specs.inner.Sieves.{Sifts};

use super::Column;
use super::block_rows::lay_blocks;
use super::interval_starts::{place, starts_of};
use crate::bit_rows::words_for;
use crate::numbered_row::Row;
use crate::numbered_words::carry;
use crate::ranges_of_rules::{Dimension, ranges_of};
use acl_policy::Rule;
use std::alloc::{AllocError, Global};

impl Column {
    /// Builds the column of some ranges.
    pub fn new(alloc: Global, ranges: &[(u128, u128)]) -> Result<Column, AllocError>
        requires { length ranges.now ≤ most_rules }
        ensures { IfOk result (Holds ranges.now) }
    {
        let starts = starts_of(alloc, ranges)?;
        let width = words_for(ranges.len());
        let mut numbers = Vec::from_elem(alloc, 0u16, starts.len() * width)?;
        let words = lay_blocks(alloc, &mut numbers, &starts, ranges)?;
        carry(&mut numbers, width);
        Ok(Column {
            width,
            starts,
            numbers,
            words,
        })
    }

    /// Builds the column of a dimension of rules.
    pub fn of_rules(
        alloc: Global,
        rules: &[Rule],
        dimension: Dimension,
    ) -> Result<Column, AllocError>
        requires { length rules.now ≤ most_rules }
        ensures { IfOk result (Sieves dimension (map rule_facts rules.now)) }
    {
        let ranges = ranges_of(alloc, rules, dimension)?;
        Column::new(alloc, &ranges)
    }

    /// The row of a built column for a number.
    pub fn row(&self, x: u128) -> Row<'_>
        ensures { (dimension : Dimension) (rules : List RuleFacts) (tuple : TupleFacts) → Sieves dimension rules self.now → IsAt dimension tuple x
            → Sifts rules tuple (words_of result) }
    {
        let from = place(&self.starts, x) * self.width;
        Row {
            numbers: &self.numbers[from..from + self.width],
            words: &self.words,
        }
    }

    /// The row of a built column for a number that not every packet has, and another row without it.
    pub fn row_or<'a>(&'a self, x: Option<u128>, other: Row<'a>) -> Row<'a>
        ensures { (dimension : Dimension) (rules : List RuleFacts) (tuple : TupleFacts) → Sieves dimension rules self.now
            → IfSome x (IsAt dimension tuple) → Sifts rules tuple (words_of other.entry) → Sifts rules tuple (words_of result) }
    {
        match x {
            Some(x) => self.row(x),
            None => other,
        }
    }
}
