//! Tests of the row store over real files, and of the texts of its rows.
#![tactic(auto)]

#[cfg(test)]
mod files;
#[cfg(test)]
mod texts;

use kept_rows::orch_base;
