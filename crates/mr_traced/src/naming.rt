//! Names of places and variables, as they are written.
ghost use Rattle.std.specs.Prelude.{◌≡◌, ◌++◌, OnOk, map, option_copied, slice_get};
ghost use Rattle.mr_traced.specs.Names.{name_text, place_text, shown_byte, shown_name, site_text, spot_text};
ghost use Rattle.mr_traced.specs.Names.{variable_text};
ghost use Rattle.mr_traced.specs.Seen.{seen};

use crate::OutOfMemory;
use crate::form::Site;
use crate::kept::Shown;
use mr_labels::push_number;

// What is shown for a byte.
fn shown_byte(byte: u8) -> u8
    ensures { result ≡ shown_byte byte }
{
    match byte {
        32..=126 => byte,
        _ => b'?',
    }
}

// Appends what is shown of a name.
fn push_bytes_of(out: &mut Vec<u8>, name: &[u8]) -> Result<(), OutOfMemory>
    ensures { OnOk result (out.new.items ≡ out.old.items ++ map shown_byte name.now) }
{
    for byte in name {
        out.push(shown_byte(*byte))?;
    }
    Ok(())
}

// The name of a number, where it has one.
fn name_at<'a>(names: &[&'a [u8]], number: u32) -> Option<&'a [u8]>
    ensures { option_copied result ≡ slice_get (map (λ n. n.now) names.now) number }
{
    names.get(number as usize).copied()
}

// Appends the name of a number, or the number.
fn push_shown_name(out: &mut Vec<u8>, number: u32, name: Option<&[u8]>) -> Result<(), OutOfMemory>
    ensures { OnOk result (out.new.items ≡ out.old.items ++ shown_name number (option_copied name.entry)) }
{
    match name {
        Some(name) => push_bytes_of(out, name),
        None => {
            out.extend_from_slice(b"name ")?;
            push_number(out, number.into())
        }
    }
}

fn push_name_of(out: &mut Vec<u8>, shown: &Shown<'_>, number: u32) -> Result<(), OutOfMemory>
    ensures { OnOk result (out.new.items ≡ out.old.items ++ name_text (seen shown.now) number) }
{
    push_shown_name(out, number, name_at(shown.names, number))
}

/// The site of a step.
pub(crate) fn site_at(shown: &Shown<'_>, number: usize) -> Option<Site>
    ensures { result ≡ slice_get (seen shown.now).sites number }
{
    shown.sites.get(number).copied()
}

/// Appends the name of the place of a site, where there is one.
pub(crate) fn push_place(
    out: &mut Vec<u8>,
    shown: &Shown<'_>,
    site: Option<Site>,
) -> Result<(), OutOfMemory>
    ensures { OnOk result (out.new.items ≡ out.old.items ++ place_text (seen shown.now) site) }
{
    match site {
        Some(site) => push_name_of(out, shown, site.place),
        None => Ok(()),
    }
}

// Appends the name of a variable behind a place, where one is told.
fn push_variable(
    out: &mut Vec<u8>,
    shown: &Shown<'_>,
    variable: Option<u32>,
) -> Result<(), OutOfMemory>
    ensures { OnOk result (out.new.items ≡ out.old.items ++ variable_text (seen shown.now) variable) }
{
    match variable {
        Some(variable) => {
            out.extend_from_slice(b"  ")?;
            push_name_of(out, shown, variable)
        }
        None => Ok(()),
    }
}

/// Appends a site by itself: its place, and the variable.
pub(crate) fn push_spot_of(
    out: &mut Vec<u8>,
    shown: &Shown<'_>,
    site: Option<Site>,
) -> Result<(), OutOfMemory>
    ensures { OnOk result (out.new.items ≡ out.old.items ++ spot_text (seen shown.now) site) }
{
    match site {
        Some(site) => {
            push_name_of(out, shown, site.place)?;
            push_variable(out, shown, site.variable)
        }
        None => Ok(()),
    }
}

/// Appends a site behind a step: its place, and the variable.
pub(crate) fn push_site_of(
    out: &mut Vec<u8>,
    shown: &Shown<'_>,
    site: Option<Site>,
) -> Result<(), OutOfMemory>
    ensures { OnOk result (out.new.items ≡ out.old.items ++ site_text (seen shown.now) site) }
{
    match site {
        Some(site) => {
            out.extend_from_slice(b"  ")?;
            push_name_of(out, shown, site.place)?;
            push_variable(out, shown, site.variable)
        }
        None => Ok(()),
    }
}
