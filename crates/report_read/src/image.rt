//! The image that was loaded, from its rows.
ghost use Rattle.std.specs.Prelude.{◌≡◌, ◌+◌, ◌*◌, ◌<◌, ◌≤◌, length, IfOk};
ghost use Rattle.row_reader.specs.Rows.{rows_of};
ghost use Rattle.row_reader.specs.Fields.{parts_of};
ghost use Rattle.row_reader.specs.Reading.{row_at};
ghost use Rattle.row_reader.specs.Gives.{Gives};
ghost use Rattle.report_row_reader.specs.Reading.{bytes_row_of};
ghost use Rattle.report_read.specs.Reading.{full_rows_at, opening_at, image_row_of};

use crate::header::header;
use crate::rows::{first_row, number_at};
use image_file::{Image, ImageFault, read_image};
use kmp_base::{Fault, Setup};
use report_row_reader::bytes_row;
use report_text::NoMemory;
use row_reader::{Stuck, cut_row};
use std::alloc::Global;
use std::marker::Model;

/// What stands before the last row of an image.
#[derive(Drop)]
pub(crate) struct Opening {
    /// What was asked for.
    pub(crate) setup: Setup,
    /// The number of the image's bytes.
    pub(crate) size: u32,
    /// Those of them before the last row.
    pub(crate) front: Vec<u8>,
}

impl Model for Opening {
    ghost use Rattle.report_read.specs.Reading.{OpeningValue};

    ghost Value = { OpeningValue };

    ghost view = { λ opening. record {
      setup = opening.setup;
      size = opening.size;
      front = opening.front.items;
    } };
}

/// A row of 32 bytes.
fn full_row(row: &[u8]) -> Option<[u8; 32]>
    ensures read { result ≡ bytes_row_of 32 (parts_of row.now) }
{
    let mut bytes = [0; 32];
    bytes_row(row, &mut bytes)?;
    Some(bytes)
}

/// So many rows of 32 bytes. Memory is taken for the rows that are there.
#[tactic(auto, unfolding(report_row_reader::specs::Reading::bytes_row_of))]
fn full_rows<'a>(alloc: Global, text: &'a [u8], rows: u32) -> Result<(Vec<u8>, &'a [u8]), Stuck<'a>>
    ensures found { Gives (λ x. (x.0.items, rows_of x.1.now)) result (full_rows_at rows (rows_of text.now)) }
    ensures len { IfOk result (λ x. length x.0.items ≡ 32 * rows) }
    ensures twice { IfOk result (λ x. 2 * length x.0.items ≤ length text.now) }
    ensures shorter { IfOk result (λ x. length x.1.now ≤ length text.now) }
{
    let mut bytes = Vec::new(alloc);
    let mut rest = text;
    for _ in 0..rows {
        let (row, behind) = first_row(rest, full_row)?;
        bytes.extend_from_slice(&row)?;
        rest = behind;
    }
    Ok((bytes, rest))
}

/// The header, and the image but its last row.
#[tactic(auto, unfolding(crate::specs::Reading::opening_at))]
pub(crate) fn read_opening(alloc: Global, text: &[u8]) -> Result<(Opening, &[u8]), Stuck<'_>>
    ensures found { Gives (λ x. (x.0, rows_of x.1.now)) result (opening_at (rows_of text.now)) }
    ensures some_cores { IfOk result (λ x. 0 < x.0.setup.cores) }
    ensures few_cores { IfOk result (λ x. x.0.setup.cores ≤ 8) }
    ensures more { IfOk result (λ x. length x.0.front < x.0.size) }
    ensures last { IfOk result (λ x. x.0.size ≤ length x.0.front + 32) }
    ensures twice { IfOk result (λ x. 2 * length x.0.front ≤ length text.now) }
    ensures shorter { IfOk result (λ x. length x.1.now ≤ length text.now) }
{
    let (setup, rest) = header(text)?;
    let (size, rest) = number_at(rest, b"image", 1, u32::MAX as u64)?;
    let size = size as u32;
    let (front, rest) = full_rows(alloc, rest, (size - 1) / 32)?;
    Ok((Opening { setup, size, front }, rest))
}

/// The image of so many bytes, by those before its last row and this row; none where the bytes mean no image.
#[tactic(auto, unfolding(crate::specs::Reading::image_row_of))]
fn image(alloc: Global, row: &[u8], size: u32, front: Vec<u8>) -> Result<Option<Image>, NoMemory>
    requires more { length front.items < size }
    requires last { size ≤ length front.items + 32 }
    requires small { length front.items + 32 ≤ 268435456 }
    ensures { IfOk result (λ image. image ≡ image_row_of size front.items (parts_of row.now)) }
{
    let mut bytes = front;
    let mut room = [0; 32];
    let last = &mut room[..size as usize - bytes.len()];
    if bytes_row(row, last).is_none() {
        return Ok(None);
    }
    bytes.extend_from_slice(last)?;
    match read_image(alloc, &bytes) {
        Ok(image) => Ok(Some(image)),
        Err(ImageFault::Memory) => Err(NoMemory),
        Err(ImageFault::At(_, _)) => Ok(None),
    }
}

/// The image, with its last row.
pub(crate) fn last_image_row<'a>(
    alloc: Global,
    text: &'a [u8],
    size: u32,
    front: Vec<u8>,
) -> Result<(Image, &'a [u8]), Stuck<'a>>
    requires more { length front.items < size }
    requires last { size ≤ length front.items + 32 }
    requires small { length front.items + 32 ≤ 268435456 }
    ensures found { Gives (λ x. (x.0, rows_of x.1.now)) result (row_at (image_row_of size front.items) (rows_of text.now)) }
    ensures shorter { IfOk result (λ x. length x.1.now < length text.now) }
{
    let Some((row, rest)) = cut_row(text) else {
        return Err(Fault::Cause(text));
    };
    match image(alloc, row, size, front)? {
        Some(image) => Ok((image, rest)),
        None => Err(Fault::Cause(text)),
    }
}
