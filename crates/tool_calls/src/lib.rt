// Tests of the calls of the tools' crates that no command shows.
//
// It stands on crates below the commands, and promises nothing: it has tests alone. Each module is about one subject, and its
// tests are tables of worked values. A row is compared by one small function that answers whether all is as the row says, and
// the test, a loop over the table, tells the first row of which it isn't, by its name or its number, counted from 0.
#![tactic(auto)]

#[cfg(test)]
mod objects;
#[cfg(test)]
mod texts;
