ghost use Rattle.std.specs.Prelude.{◌≡◌, ℕ, ◌^◌, ◌<◌, ◌≤◌, length, List, ◌∷◌, OnOk, IfOk, Result};
ghost use Rattle.hg_text.specs.Kept.{number_of};
ghost use Rattle.hmetis_read.specs.Graph.{value_in, shape_in, shape_of, header_in, read_on};

use crate::{GraphFault, LineKind, What};
use hg_text::{BadNumber, Kept, Lines};

/// The most nets that a text may have, and the most vertices.
const MOST: u64 = 1 << 22;

// What the header says of the lines behind it.
#[derive(Clone, Copy)]
pub(crate) struct Shape {
    pub(crate) nets: u32,
    pub(crate) vertices: u32,
    pub(crate) net_weights: bool,
    pub(crate) vertex_weights: bool,
}

// The number in a line; one of 2^64 or more becomes 2^64 - 1, which is in no range either.
#[inline]
pub(crate) fn value_at(line: u32, number: Result<u64, BadNumber>) -> Result<u64, GraphFault>
    ensures { result ≡ value_in line number }
{
    match number {
        Ok(value) => Ok(value),
        Err(BadNumber::TooBig) => Ok(u64::MAX),
        Err(BadNumber::NotDigits) => Err(GraphFault::Bad {
            line,
            kind: LineKind::NotNumber,
        }),
    }
}

// The number in the next field of a line that has one left.
#[inline]
pub(crate) fn next_value(line: &mut Kept) -> Result<u64, GraphFault>
    requires { 0 < length line.old.fields }
    ensures value { (field : List ℕ) × (line.old.fields ≡ field ∷ line.new.fields) ×
        (result ≡ value_in line.old.number (number_of field)) }
    ensures line { line.new.number ≡ line.old.number }
{
    match line.next_number() {
        Some(number) => value_at(line.line(), number),
        None => unreachable!(),
    }
}

// The shape by the numbers of a header.
fn shape_at(line: u32, nets: u64, vertices: u64, format: u64) -> Result<Shape, GraphFault>
    ensures value { result ≡ shape_in line nets vertices format }
    ensures bounds { IfOk result (λ shape. (shape.nets ≤ 2 ^ 22) × (shape.vertices ≤ 2 ^ 22)) }
{
    if !matches!(format, 0 | 1 | 10 | 11) {
        return Err(GraphFault::Bad {
            line,
            kind: LineKind::BadFormat,
        });
    }
    if nets > MOST {
        return Err(GraphFault::TooLarge {
            line,
            what: What::Nets,
        });
    }
    if vertices > MOST {
        return Err(GraphFault::TooLarge {
            line,
            what: What::Vertices,
        });
    }
    Ok(Shape {
        nets: nets as u32,
        vertices: vertices as u32,
        net_weights: matches!(format, 1 | 11),
        vertex_weights: matches!(format, 10 | 11),
    })
}

// Reads the header.
pub(crate) fn read_header(lines: &mut Lines) -> Result<Shape, GraphFault>
    ensures value { result ≡ shape_of lines.old }
    ensures bounds { IfOk result (λ shape. (shape.nets ≤ 2 ^ 22) × (shape.vertices ≤ 2 ^ 22)) }
    ensures rest { OnOk result (lines.new ≡ read_on 1 lines.old) }
{
    let Some(mut header) = lines.next_kept() else {
        return Err(GraphFault::Bad {
            line: lines.count() + 1,
            kind: LineKind::NoHeader,
        });
    };
    read_shape(&mut header)
}

// Reads the fields of the header.
fn read_shape(header: &mut Kept) -> Result<Shape, GraphFault>
    ensures value { result ≡ header_in header.old }
    ensures bounds { IfOk result (λ shape. (shape.nets ≤ 2 ^ 22) × (shape.vertices ≤ 2 ^ 22)) }
{
    let line = header.line();
    let count = header.fields();
    if count != 2 && count != 3 {
        return Err(GraphFault::Bad {
            line,
            kind: LineKind::HeaderCount,
        });
    }
    let nets = next_value(header)?;
    let vertices = next_value(header)?;
    let format = if count == 3 { next_value(header)? } else { 0 };
    shape_at(line, nets, vertices, format)
}
