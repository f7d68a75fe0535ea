//! The JSON of a report.
ghost use Rattle.std.specs.Prelude.{◌≡◌, ◌+◌, ◌++◌, IfOk, OnErr, OnOk, map, option_copied, option_map, string_bytes};
ghost use Rattle.std.specs.Str.{IsUtf8};
ghost use Rattle.mr_sched.specs.Versions.{text_in};
ghost use Rattle.mr_report.specs.Json.{ArePrinted, json_text, object_text};
ghost use Rattle.mr_report.specs.Report.{verdict_text};
ghost use Rattle.mr_report.specs.Sent.{races_data, texts_data, told_data, witness_data};
ghost use Rattle.serde_json.specs.Events.{SendsValue};

use crate::OutOfMemory;
use crate::report::{Line, Report};
use crate::writing::push_verdict_text;
use mr_base::Verdict;
use mr_event::Pair;
use mr_sched::{Schedule, Version, print_version};
use serde::{Described, Serialize, Serializer};
use std::alloc::Global;
use std::str;

// What the object of a report holds.
#[derive(Drop)]
struct Told<'a> {
    output: Vec<&'a str>,
    // For each race the places of its two steps, counted from 1. They are wide, since a place may be the largest `usize`.
    races: Vec<(u128, u128)>,
    verdict: String,
    witness: Option<String>,
}

impl Described for Told<'_> {
    ghost writes = { λ t. SendsValue (told_data t) };
}

impl Serialize for Told<'_> {
    fn serialize<S: Serializer>(&self, out: &mut S) -> Result<(), S::Error> {
        out.begin_map(Some(4))?;
        out.key("output")?;
        send_texts(self.output.as_slice(), out)?;
        out.key("races")?;
        send_races(self.races.as_slice(), out)?;
        out.key("verdict")?;
        self.verdict.serialize(out)?;
        out.key("witness")?;
        send_witness(&self.witness, out)?;
        out.end_map()
    }
}

// An array of strings.
fn send_texts<S: Serializer>(texts: &[&str], out: &mut S) -> Result<(), S::Error>
    ensures { OnOk result
        (SendsValue (texts_data (map (λ s. s.now) texts.now)) (S.written out.old) (S.written out.new)) }
{
    texts.serialize(out)
}

// An array of arrays of two numbers.
fn send_races<S: Serializer>(races: &[(u128, u128)], out: &mut S) -> Result<(), S::Error>
    ensures { OnOk result (SendsValue (races_data races.now) (S.written out.old) (S.written out.new)) }
{
    races.serialize(out)
}

// A string, or null.
fn send_witness<S: Serializer>(witness: &Option<String>, out: &mut S) -> Result<(), S::Error>
    ensures { OnOk result
        (SendsValue (witness_data (option_map string_bytes witness.now)) (S.written out.old) (S.written out.new)) }
{
    witness.serialize(out)
}

// The texts of the prints.
fn told_texts<'a>(alloc: Global, lines: &'a [Line]) -> Result<Vec<&'a str>, OutOfMemory>
    requires { ArePrinted lines.now }
    ensures { IfOk result (λ texts. map (λ s. s.now) texts.items ≡ map (λ l. l.text) lines.now) }
{
    let mut texts = Vec::new(alloc);
    for line in lines {
        texts.push(told_text(line.text.as_slice()))?;
    }
    Ok(texts)
}

// Bytes that are known to be UTF-8, as a text.
fn told_text(bytes: &[u8]) -> &str
    requires { IsUtf8 bytes.now }
    ensures { result.now ≡ bytes.now }
{
    match str::from_utf8(bytes) {
        Ok(text) => text,
        Err(_) => unreachable!(),
    }
}

// The same of bytes that are given away.
fn told_string(bytes: Vec<u8>) -> String
    requires { IsUtf8 bytes.items }
    ensures { string_bytes result ≡ bytes.items }
{
    match String::from_utf8(bytes) {
        Ok(text) => text,
        Err(_) => unreachable!(),
    }
}

// The races, whose steps are counted from 1.
fn told_races(alloc: Global, races: &[Pair]) -> Result<Vec<(u128, u128)>, OutOfMemory>
    ensures { IfOk result (λ told. told.items ≡ map (λ p. (p.first + 1, p.second + 1)) races.now) }
{
    let mut told = Vec::new(alloc);
    for pair in races {
        told.push((pair.first as u128 + 1, pair.second as u128 + 1))?;
    }
    Ok(told)
}

// What the verdict is called.
fn told_verdict(alloc: Global, verdict: Verdict) -> Result<String, OutOfMemory>
    ensures { IfOk result (λ text. string_bytes text ≡ verdict_text verdict) }
{
    let mut text = Vec::new(alloc);
    push_verdict_text(&mut text, verdict)?;
    Ok(told_string(text))
}

// The text of the witness in a version, where there is one.
fn told_witness(
    alloc: Global,
    witness: Option<&Schedule>,
    version: Version,
) -> Result<Option<String>, OutOfMemory>
    ensures { IfOk result
        (λ text. option_map string_bytes text ≡ option_map (text_in version) (option_copied witness.entry)) }
{
    let Some(schedule) = witness else {
        return Ok(None);
    };
    let mut text = Vec::new(alloc);
    print_version(alloc, version, schedule, &mut text)?;
    Ok(Some(told_string(text)))
}

// The object with no line feed behind it. The writer fails only for want of memory.
fn object(alloc: Global, r: &Report<'_>) -> Result<Vec<u8>, OutOfMemory>
    requires texts { ArePrinted r.now.output.now }
    ensures { IfOk result (λ bytes. bytes.items
        ≡ object_text r.now.output.now r.now.verdict r.now.races.now (option_copied r.now.witness) r.now.version) }
{
    let told = Told {
        output: told_texts(alloc, r.output)?,
        races: told_races(alloc, r.races)?,
        verdict: told_verdict(alloc, r.verdict)?,
        witness: told_witness(alloc, r.witness, r.version)?,
    };
    match serde_json::to_vec(alloc, &told) {
        Ok(bytes) => Ok(bytes),
        Err(_) => Err(OutOfMemory),
    }
}

/// Appends a report as one JSON object and a line feed: `output`, the printed texts, which have no bytes but digits, small letters, `-` and
/// space; `races`, for each the places of its two steps, counted from 1; `verdict`; and `witness`, the text of the schedule in its version, or null. An
/// `Err` is for want of memory, and leaves `out` as it was.
pub fn json(alloc: Global, r: &Report<'_>, out: &mut Vec<u8>) -> Result<(), OutOfMemory>
    requires texts { ArePrinted r.now.output.now }
    ensures ok { OnOk result (out.new.items ≡ out.old.items
        ++ json_text r.now.output.now r.now.verdict r.now.races.now (option_copied r.now.witness) r.now.version) }
    ensures err { OnErr result (out.new.items ≡ out.old.items) }
{
    let mut bytes = object(alloc, r)?;
    bytes.push(b'\n')?;
    out.extend_from_slice(bytes.as_slice())
}
