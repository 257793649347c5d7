//! Trials of the crates on examples.
#![tactic(auto)]

#[cfg(test)]
mod of_answers;
#[cfg(test)]
mod of_compile;
#[cfg(test)]
mod of_decode;
#[cfg(test)]
mod of_flat;
#[cfg(test)]
mod of_settle;
#[cfg(test)]
mod of_sink;
#[cfg(test)]
mod of_ties;
#[cfg(test)]
mod of_words;
