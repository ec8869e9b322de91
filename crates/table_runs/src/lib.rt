//! A random run of a table's calls and of collections, against a list that holds the same terms plainly.
//!
//! Nothing here is for callers. The list knows of each term its shape by the places of its arguments, its count, and
//! whether it is live; and of each name its meanings, in order. A call's answer is read off the list by looking through
//! all of it, and what a collection leaves by going from the newest term to the oldest, since arguments are older than
//! what has them.
#![tactic(auto)]

#[cfg(test)]
mod plain;
#[cfg(test)]
mod tests;
