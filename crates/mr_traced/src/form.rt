//! The file of places: its lines, and how it is read.
ghost use Rattle.std.specs.Prelude.{◌≡◌, ◌==◌, ◌++◌, IfOk, OnOk, flat_map, length, map, option_copied, position};
ghost use Rattle.std.specs.List.{slice_split};
ghost use Rattle.mr_traced.specs.Answers.{Answers};
ghost use Rattle.mr_traced.specs.Places.{at_place, is_wrong, lines_named, name_in, name_of, named, named_in, named_of};
ghost use Rattle.mr_traced.specs.Places.{number_in, site_in, site_list, site_of, unless_wrong, with_variable};

use crate::OutOfMemory;
use crate::kept::Shown;
use crate::refusal::{PlacesFault, Untold};
use mr_event::{Footprint, Pair};
use mr_trace::MAX_BYTES;
use mr_words::number_of;
use std::alloc::Global;

/// Where a step is, by the numbers of names: its place, and the variable that it uses, where that is told.
#[derive(Clone, Copy, Debug, PartialEq, Eq)]
pub struct Site {
    pub place: u32,
    pub variable: Option<u32>,
}

/// What a file of places says: its names in order, and the site of each step.
#[derive(Drop)]
pub struct Places<'a> {
    pub names: Vec<&'a [u8]>,
    pub sites: Vec<Site>,
}

impl<'a> Places<'a> {
    ghost use Rattle.std.specs.Prelude.{◌≡◌};
    ghost use Rattle.mr_traced.specs.Places.{named, no_names};
    ghost use Rattle.mr_traced.specs.Seen.{seen};

    /// No names, and no sites.
    pub(crate) fn none(alloc: Global) -> Places<'a>
        ensures { named result ≡ no_names }
    {
        Places {
            names: Vec::new(alloc),
            sites: Vec::new(alloc),
        }
    }

    /// A run with its races, at these places.
    pub(crate) fn shown<'b>(&'b self, run: &'b [Footprint], races: &'b [Pair]) -> Shown<'b>
        ensures { seen result ≡ record {
          run = run.now;
          races = races.now;
          names = (named self.now).names;
          sites = (named self.now).sites;
        } }
    {
        Shown {
            run,
            races,
            names: self.names.as_slice(),
            sites: self.sites.as_slice(),
        }
    }
}

// The name that a line declares.
fn name_of(line: &[u8]) -> Option<&[u8]>
    ensures { option_copied result ≡ name_of line.now }
{
    line.strip_prefix(b"name ".as_slice())
}

// A number in decimal below 2^32.
fn number_in(word: &[u8]) -> Option<u32>
    ensures { result ≡ number_in word.now }
{
    match number_of(word) {
        Some(number) => {
            if number < 1 << 32 {
                Some(number as u32)
            } else {
                None
            }
        }
        None => None,
    }
}

// A place alone.
fn at_place(place: Option<u32>) -> Option<Site>
    ensures { result ≡ at_place place }
{
    match place {
        Some(place) => Some(Site {
            place,
            variable: None,
        }),
        None => None,
    }
}

// A place and a variable.
fn with_variable(place: Option<u32>, variable: Option<u32>) -> Option<Site>
    ensures { result ≡ with_variable place variable }
{
    match (place, variable) {
        (Some(place), Some(variable)) => Some(Site {
            place,
            variable: Some(variable),
        }),
        (Some(_), None) => None,
        (None, _) => None,
    }
}

fn blank_in(line: &[u8]) -> Option<usize>
    ensures { result ≡ position (λ b. b == 32) line.now }
{
    line.iter().position(|byte| *byte == b' ')
}

// The site that a line spells.
fn site_of(line: &[u8]) -> Option<Site>
    ensures { result ≡ site_of line.now }
{
    match blank_in(line) {
        None => at_place(number_in(line)),
        Some(at) => with_variable(number_in(&line[..at]), number_in(&line[at + 1..])),
    }
}

// Whether a line is neither a name nor a step, and not empty.
fn is_wrong(line: &[u8]) -> bool
    ensures { result ≡ is_wrong line.now }
{
    match name_of(line) {
        Some(_) => false,
        None => match site_of(line) {
            Some(_) => false,
            None => !line.is_empty(),
        },
    }
}

// The first wrong line, counted from 0.
fn first_wrong(lines: &[&[u8]]) -> Option<usize>
    ensures { result ≡ position (λ l. is_wrong l.now) lines.now }
{
    lines.iter().position(|line| is_wrong(*line))
}

// Appends the name that a line declares, if it does.
fn push_name<'a>(names: &mut Vec<&'a [u8]>, line: &'a [u8]) -> Result<(), OutOfMemory>
    ensures { OnOk result
        (map (λ n. n.now) names.new.items ≡ map (λ n. n.now) names.old.items ++ name_in line.now) }
{
    if let Some(name) = name_of(line) {
        names.push(name)?;
    }
    Ok(())
}

// The names that lines declare.
fn names_in<'a>(alloc: Global, lines: &[&'a [u8]]) -> Result<Vec<&'a [u8]>, OutOfMemory>
    ensures { IfOk result
        (λ names. map (λ n. n.now) names.items ≡ flat_map name_in (map (λ l. l.now) lines.now)) }
{
    let mut names = Vec::new(alloc);
    for line in lines {
        push_name(&mut names, *line)?;
    }
    Ok(names)
}

// Appends the site that a line spells, if it does.
fn push_site(sites: &mut Vec<Site>, line: &[u8]) -> Result<(), OutOfMemory>
    ensures { OnOk result (sites.new.items ≡ sites.old.items ++ site_in line.now) }
{
    match name_of(line) {
        Some(_) => Ok(()),
        None => push_spelled(sites, site_of(line)),
    }
}

fn push_spelled(sites: &mut Vec<Site>, site: Option<Site>) -> Result<(), OutOfMemory>
    ensures { OnOk result (sites.new.items ≡ sites.old.items ++ site_list site) }
{
    if let Some(site) = site {
        sites.push(site)?;
    }
    Ok(())
}

// The sites that lines spell.
fn sites_in(alloc: Global, lines: &[&[u8]]) -> Result<Vec<Site>, OutOfMemory>
    ensures { IfOk result (λ sites. sites.items ≡ flat_map site_in (map (λ l. l.now) lines.now)) }
{
    let mut sites = Vec::new(alloc);
    for line in lines {
        push_site(&mut sites, *line)?;
    }
    Ok(sites)
}

// The names and the sites of lines.
fn places_in<'a>(alloc: Global, lines: &[&'a [u8]]) -> Result<Places<'a>, OutOfMemory>
    ensures { IfOk result (λ places. named places ≡ named_in (map (λ l. l.now) lines.now)) }
{
    let names = names_in(alloc, lines)?;
    let sites = sites_in(alloc, lines)?;
    Ok(Places { names, sites })
}

// The same of the lines behind the first, unless one is wrong.
fn read_body<'a>(alloc: Global, lines: &[&'a [u8]]) -> Result<Places<'a>, Untold>
    ensures { Answers named result
        (unless_wrong (position is_wrong (map (λ l. l.now) lines.now)) (map (λ l. l.now) lines.now)) }
{
    match first_wrong(lines) {
        Some(at) => Err(Untold::Places {
            fault: PlacesFault::Line { line: at + 2 },
        }),
        None => Ok(places_in(alloc, lines)?),
    }
}

// The same of all lines.
fn read_lines<'a>(alloc: Global, lines: &[&'a [u8]]) -> Result<Places<'a>, Untold>
    ensures { Answers named result (lines_named (map (λ l. l.now) lines.now)) }
{
    match lines {
        [first, rest @ ..] => {
            if *first == b"places 2".as_slice() {
                read_body(alloc, rest)
            } else {
                Err(bad_header())
            }
        }
        [] => Err(bad_header()),
    }
}

fn bad_header() -> Untold
    ensures { result ≡ Untold.Places PlacesFault.Header }
{
    Untold::Places {
        fault: PlacesFault::Header,
    }
}

// The lines of a text; what stands behind the last LF is one too.
fn lines_of(alloc: Global, text: &[u8]) -> Result<Vec<&[u8]>, OutOfMemory>
    ensures { IfOk result (λ lines. map (λ l. l.now) lines.items ≡ slice_split (λ b. b == 10) text.now) }
{
    text.split(|byte| *byte == b'\n').collect(alloc)
}

/// The names and the sites that a text says, or its first fault.
#[tactic(auto, unfolding(crate::specs::Places::named_of))]
pub(crate) fn read_places(alloc: Global, text: &[u8]) -> Result<Places<'_>, Untold>
    ensures { Answers named result (named_of text.now) }
{
    if text.len() > MAX_BYTES {
        return Err(Untold::Places {
            fault: PlacesFault::TooLong,
        });
    }
    let lines = lines_of(alloc, text)?;
    read_lines(alloc, lines.as_slice())
}
