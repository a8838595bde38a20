//! A command line is split into fields at its spaces; a row of the table reads numbers and names from them.
ghost use Rattle.std.specs.Prelude.{◌≡◌, All, IfErr, IfOk};
ghost use Rattle.record_text.specs.Fields.{SplitsField, OneField, TwoFields, ThreeFields, IsField, IsForm, fields_behind, no_field, one_number, two_numbers, three_numbers, one_name};

use crate::name::MOST_NAME;
use crate::{Name, Why, parse_number};
use memchr::memchr;
use std::alloc::{AllocError, Global};

/// The first field of a line, and what follows its space, if there is one.
pub fn split_field(line: &[u8]) -> (&[u8], Option<&[u8]>)
    ensures { SplitsField line.now result }
{
    match memchr(b' ', line) {
        Some(i) => (&line[..i], Some(&line[i + 1..])),
        None => (line, None),
    }
}

/// The field, if there is exactly one.
fn one_field(rest: Option<&[u8]>) -> Option<&[u8]>
    ensures { OneField (fields_behind rest.entry) result }
{
    let Some(rest) = rest else {
        return None;
    };
    let (field, more) = split_field(rest);
    match more {
        Some(_) => None,
        None => Some(field),
    }
}

/// The fields, if there are exactly two.
fn two_fields(rest: Option<&[u8]>) -> Option<(&[u8], &[u8])>
    ensures { TwoFields (fields_behind rest.entry) result }
{
    let Some(rest) = rest else {
        return None;
    };
    let (first, more) = split_field(rest);
    match one_field(more) {
        Some(second) => Some((first, second)),
        None => None,
    }
}

/// The fields, if there are exactly three.
fn three_fields(rest: Option<&[u8]>) -> Option<(&[u8], &[u8], &[u8])>
    ensures { ThreeFields (fields_behind rest.entry) result }
{
    let Some(rest) = rest else {
        return None;
    };
    let (first, more) = split_field(rest);
    match two_fields(more) {
        Some((second, third)) => Some((first, second, third)),
        None => None,
    }
}

/// Checks a row without fields. With a field, the command is `Unknown`.
pub fn no_field(rest: Option<&[u8]>) -> Result<(), Why>
    ensures fields { result ≡ no_field (fields_behind rest.entry) }
    ensures form { IfErr result IsForm }
{
    match rest {
        Some(_) => Err(Why::Unknown),
        None => Ok(()),
    }
}

/// The field of a row with one number. It fails with `Unknown` for another number of fields, and with `BadNumber`.
pub fn one_number(rest: Option<&[u8]>) -> Result<u32, Why>
    ensures fields { result ≡ one_number (fields_behind rest.entry) }
    ensures form { IfErr result IsForm }
{
    let Some(field) = one_field(rest) else {
        return Err(Why::Unknown);
    };
    match parse_number(field) {
        Some(n) => Ok(n),
        None => Err(Why::BadNumber),
    }
}

/// The fields of a row with two numbers. It fails with `Unknown` for another number of fields, and with `BadNumber`.
pub fn two_numbers(rest: Option<&[u8]>) -> Result<(u32, u32), Why>
    ensures fields { result ≡ two_numbers (fields_behind rest.entry) }
    ensures form { IfErr result IsForm }
{
    let Some((first, second)) = two_fields(rest) else {
        return Err(Why::Unknown);
    };
    match (parse_number(first), parse_number(second)) {
        (Some(m), Some(n)) => Ok((m, n)),
        _ => Err(Why::BadNumber),
    }
}

/// The fields of a row with three numbers. It fails with `Unknown` for another number of fields, and with `BadNumber`.
pub fn three_numbers(rest: Option<&[u8]>) -> Result<(u32, u32, u32), Why>
    ensures fields { result ≡ three_numbers (fields_behind rest.entry) }
    ensures form { IfErr result IsForm }
{
    let Some((first, second, third)) = three_fields(rest) else {
        return Err(Why::Unknown);
    };
    match (
        parse_number(first),
        parse_number(second),
        parse_number(third),
    ) {
        (Some(l), Some(m), Some(n)) => Ok((l, m, n)),
        _ => Err(Why::BadNumber),
    }
}

/// The field of a row with one name, which is copied. It fails with `Unknown` for another number of fields, with
/// `BadName`, and out of memory, which is the outer `Err`.
pub fn one_name(alloc: Global, rest: Option<&[u8]>) -> Result<Result<Name, Why>, AllocError>
    requires { All IsField (fields_behind rest) }
    ensures fields { IfOk result (λ name. name ≡ one_name (fields_behind rest.entry)) }
    ensures form { IfOk result (λ name. IfErr name IsForm) }
{
    let Some(field) = one_field(rest) else {
        return Ok(Err(Why::Unknown));
    };
    if field.len() > MOST_NAME {
        return Ok(Err(Why::BadName));
    }
    let name = Name::of(alloc, field)?;
    Ok(Ok(name))
}
