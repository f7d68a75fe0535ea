//! Runs the cases of standard input, each a line with the words of a command over the files of `data/`, `mirace_show`
//! and the words of a form, or `drawer` and a command over files in memory. Of each it writes `$` and the line, what
//! the command or the form writes, and `=` and the status. JSON is read back, and told in lines behind it. The bytes
//! of a trace are written as numbers.
#![tactic(auto)]

mod in_drawer;
mod in_numbers;
mod read_back;

use crate::in_drawer::in_drawer;
use crate::in_numbers::in_numbers;
use crate::read_back::read_back;
use mr_command::mirace;
use mr_io::{HostFiles, HostOut};
use mr_show::mirace_show;
use std::io;

fn main(rt: HostRuntime) -> io::Result<()> {
    for line in rt.lines(rt.alloc()) {
        let line = line?;
        println!(rt; "$ {line}")?;
        let status = case(&rt, line.as_str())?;
        println!(rt; "= {status}")?;
    }
    Ok(())
}

// Writes what a line comes to, and answers the status.
fn case(rt: &HostRuntime, line: &str) -> io::Result<u8> {
    if let Some(form) = line.strip_prefix("mirace_show ") {
        return shown(rt, form);
    }
    match line.strip_prefix("drawer ") {
        Some(command) => in_drawer(rt, command),
        None => answered(rt, line),
    }
}

// The same of a form of the companion.
fn shown(rt: &HostRuntime, line: &str) -> io::Result<u8> {
    let words = words_of(rt, line)?;
    let mut out = HostOut::new(rt.stdout());
    let mut files = HostFiles::new(rt);
    Ok(mirace_show(rt.alloc(), words.as_slice(), &mut files, &mut out))
}

// The same of a command.
fn answered(rt: &HostRuntime, line: &str) -> io::Result<u8> {
    let words = words_of(rt, line)?;
    match words.first() {
        Some(word) if word.as_str() == "json" => read_back(rt, words.as_slice()),
        Some(word) if word.as_str() == "trace" => in_numbers(rt, words.as_slice()),
        _ => Ok(written(rt, words.as_slice())),
    }
}

fn written(rt: &HostRuntime, words: &[String]) -> u8 {
    let mut out = HostOut::new(rt.stdout());
    let mut files = HostFiles::new(rt);
    mirace(rt.alloc(), words, &mut files, &mut out)
}

/// The words of a line.
pub fn words_of(rt: &HostRuntime, line: &str) -> io::Result<Vec<String>> {
    let mut words = Vec::new(rt.alloc());
    for word in line.split_whitespace() {
        words.push(word.to_string(rt.alloc())?)?;
    }
    Ok(words)
}
