// What painting, the rows and storing leave, compared with what is recorded and with the buffers of the run.
use crate::numbers::is_answer;
use image::{Clusters, Size};
use refusal::Refusal;

// How many numbers a slot of the table has.
pub(crate) const SLOT: usize = 21;

// Whether row y of the picture is given, and has these bytes.
fn is_row(picture: &[u8], size: Size, y: u32, row: &[u8]) -> bool {
    is_answer(sheet::row_check(size, picture, y), Ok(())) & (sheet::row(size, picture, y) == row)
}

// Whether every row of the picture is the recorded one, and the row after the last is refused.
fn are_rows(picture: &[u8], size: Size, recorded: &[u8]) -> bool {
    let width = 4 * size.w as usize;
    if width == 0 {
        return false;
    }
    (0..size.h)
        .zip(recorded.chunks_exact(width))
        .all(|(y, row)| is_row(picture, size, y, row))
        & is_answer(sheet::row_check(size, picture, size.h), Err(Refusal::NoRow))
        & sheet::row(size, picture, size.h).is_empty()
}

// Whether a picture is the recorded one, as a whole and row by row.
pub(crate) fn is_picture(picture: &[u8], size: Size, recorded: &[u8]) -> bool {
    (picture == recorded) & are_rows(picture, size, recorded)
}

// Whether a sheet with these labels is stored: the counts; label and link of each pixel; first pixel and count of each
// slot; the outputs.
pub(crate) fn is_sheet(sheet: &[u8], clusters: Clusters<'_>, labels: &[u32]) -> bool {
    let Clusters {
        size,
        counts,
        links,
        table,
        outputs,
    } = clusters;
    let counted = [size.w, size.h, counts.n, counts.m];
    let pixels = labels
        .iter()
        .zip(links)
        .take(size.area() as usize)
        .flat_map(|(label, link)| [*label, *link]);
    let (slots, _) = table.as_chunks::<SLOT>();
    let slots = slots
        .iter()
        .take(counts.n as usize)
        .flat_map(|slot| [slot[0], slot[1]]);
    let expected = counted
        .into_iter()
        .chain(pixels)
        .chain(slots)
        .chain(outputs.iter().copied().take(counts.m as usize));
    let (pairs, rest) = sheet.as_chunks::<2>();
    rest.is_empty()
        & pairs
            .iter()
            .map(|pair| u32::from(u16::from_le_bytes(*pair)))
            .eq(expected)
}
