// Tests of the calls of the lower crates that no command shows.
//
// It stands on crates below the commands, and promises nothing: it has tests alone. Each module is about one subject, and its
// tests are tables of worked values. A row is compared by one small function that answers whether all is as the row says, and
// the test, a loop over the table, tells the first row of which it isn't by its number, counted from 0.
#![tactic(auto)]

#[cfg(test)]
mod blocks;
#[cfg(test)]
mod cores;
#[cfg(test)]
mod delays;
#[cfg(test)]
mod description_files;
#[cfg(test)]
mod descriptions;
#[cfg(test)]
mod files;
#[cfg(test)]
mod hosts;
#[cfg(test)]
mod images;
#[cfg(test)]
mod links;
#[cfg(test)]
mod loaders;
#[cfg(test)]
mod machines;
#[cfg(test)]
mod meanings;
#[cfg(test)]
mod operations;
#[cfg(test)]
mod page_caches;
#[cfg(test)]
mod places;
#[cfg(test)]
mod schedules;
#[cfg(test)]
mod tables;
#[cfg(test)]
mod texts;
#[cfg(test)]
mod words;
