//! The JSON of a report, read back and told in lines.
use mr_command::mirace;
use mr_io::{HostFiles, Tray};
use serde_json::Value;
use std::io;

// More than any report here takes.
const ROOM: usize = 1 << 20;

/// Writes what a command comes to whose report is JSON, and behind it what that reads back as. Answers the status.
pub fn read_back(rt: &HostRuntime, words: &[String]) -> io::Result<u8> {
    let mut out = Tray::new(rt.alloc(), ROOM, ROOM)?;
    let mut files = HostFiles::new(rt);
    let status = mirace(rt.alloc(), words, &mut files, &mut out);
    let text = String::from_utf8_lossy(rt.alloc(), out.taken())?;
    print!(rt; "{text}")?;
    if let Ok(report) = Value::from_str(rt.alloc(), text.as_str()) {
        tell(rt, &report)?;
    }
    Ok(status)
}

// The members of a report: the prints, the verdict, the races and the witness, where there is one.
fn tell(rt: &HostRuntime, report: &Value) -> io::Result<()> {
    tell_output(rt, items(report, "output"))?;
    println!(rt; "verdict {}", text(report.get("verdict")))?;
    tell_races(rt, items(report, "races"))?;
    match report.get("witness").and_then(Value::as_str) {
        Some(witness) => print!(rt; "witness\n{witness}"),
        None => Ok(()),
    }
}

fn tell_output(rt: &HostRuntime, prints: &[Value]) -> io::Result<()> {
    for print in prints {
        println!(rt; "> {}", text(Some(print)))?;
    }
    Ok(())
}

fn tell_races(rt: &HostRuntime, races: &[Value]) -> io::Result<()> {
    println!(rt; "races {}", races.len())?;
    for race in races {
        println!(rt; "race {} {}", number(race.get(0)), number(race.get(1)))?;
    }
    Ok(())
}

// The items of a member that is an array.
fn items<'a>(report: &'a Value, name: &str) -> &'a [Value] {
    match report.get(name).and_then(Value::as_array) {
        Some(items) => items.as_slice(),
        None => &[],
    }
}

// A text, and `?` where there is none.
fn text(value: Option<&Value>) -> &str {
    value.and_then(Value::as_str).unwrap_or("?")
}

// A number, and 0, which no step has, where there is none.
fn number(value: Option<&Value>) -> u64 {
    value.and_then(Value::as_u64).unwrap_or(0)
}
