//! The tests of the layers below the machine, of what no command of the programs shows: how runs of bytes are kept,
//! which layouts a cache holds, how types, verdicts and identities are compared, the programs that are made from a
//! number, what traces are read as; and files, sinks and words of the command line, those of the host among them. It
//! has no code of its own.
#![tactic(auto)]

#[cfg(test)]
mod accesses;
#[cfg(test)]
mod bytes;
#[cfg(test)]
mod caches;
#[cfg(test)]
mod files;
#[cfg(test)]
mod numbers;
#[cfg(test)]
mod sinks;
#[cfg(test)]
mod syntax;
#[cfg(test)]
mod texts;
#[cfg(test)]
mod traces;
#[cfg(test)]
mod verdicts;
#[cfg(test)]
mod words;
