//! Tests of the libraries `page`, `json_value`, `texts`, `scenario`, `book` and `book_dump`.
//!
//! They are in a crate of their own, so that the libraries are not proved again when a test changes. The examples of
//! the libraries' pages are among them. What a book answers stands in tables of calls, which `pairs` plays row by row.
#![tactic(auto)]

#[cfg(test)]
mod book_calls;
#[cfg(test)]
mod json_values;
#[cfg(test)]
mod loaded_dumps;
#[cfg(test)]
mod made_calls;
#[cfg(test)]
mod pages;
#[cfg(test)]
mod pairs;
#[cfg(test)]
mod plain;
#[cfg(test)]
mod plain_forms;
#[cfg(test)]
mod readings;
#[cfg(test)]
mod rows;
#[cfg(test)]
mod scenario_texts;
#[cfg(test)]
mod two_books;
