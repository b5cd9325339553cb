//! Tests of the lists, texts, shelves, restarts and plain programs that all else stands on.
#![tactic(auto)]

#[cfg(test)]
mod bits;
#[cfg(test)]
mod byte_forms;
#[cfg(test)]
mod failing_shelves;
#[cfg(test)]
mod file_faults;
#[cfg(test)]
mod lists;
#[cfg(test)]
mod marks;
#[cfg(test)]
mod plain_programs;
#[cfg(test)]
mod restarts;
#[cfg(test)]
mod shelves;
#[cfg(test)]
mod texts;
