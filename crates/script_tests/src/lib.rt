//! Tests of: script_lines, script_declarations, script_machine, script_play.
//!
//! What scripts and schema files print and refuse, by public calls alone: whole runs, forms of lines, texts of answers,
//! and readers and writers that fail.
#![tactic(auto)]

#[cfg(test)]
mod schema_file_tests;
#[cfg(test)]
mod tests;
