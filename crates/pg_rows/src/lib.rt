//! Runs of the program by its words, its input and its output: lines that are too long to be stored, readers and
//! writers that fail, the text of help. Sessions that are only lines and their answers stand as files in
//! `pregeld_examples`, and so do command lines with what they come to.
#![tactic(auto)]

#[cfg(test)]
mod runs;
#[cfg(test)]
mod sessions;
#[cfg(test)]
mod streams;
#[cfg(test)]
mod turns;
