// Painting, rows and storing at the edges of their refusals, from buffers that no run made: the answer, and that a
// refused call changes nothing.
use crate::buffers::{Lists, are_filled, filled};
use crate::numbers::is_answer;
use crate::sheets::is_sheet;
use crate::tally::Tally;
use image::{Counts, Size};
use refusal::Refusal;
use std::alloc::{AllocError, Global};

// Where slot 1 has its first pixel, its pixel count, and the red, green, blue, alpha and count of its residue.
const FIRST: usize = 21;

const COUNT: usize = 22;

const RED: usize = 32;

const GREEN: usize = 33;

const BLUE: usize = 34;

const ALPHA: usize = 35;

const COLORS: usize = 36;

// Which buffer a change is made in.
#[derive(Clone, Copy)]
enum Buffer {
    Labels,
    Links,
    Table,
    Outputs,
}

// A number that is changed.
#[derive(Clone, Copy)]
struct Change {
    buffer: Buffer,
    at: usize,
    value: u32,
}

// A call: the counts, the lengths that are lent (bytes: of the picture or the destination), the numbers that are
// changed, and how many pixels it paints or stores, or why it is refused.
#[derive(Clone, Copy)]
struct SheetEdge {
    size: Size,
    counts: Counts,
    lengths: Lists<usize>,
    bytes: usize,
    changes: [Option<Change>; 2],
    expected: Result<usize, Refusal>,
}

// Painting 3 × 2 pixels, all in the cluster of slot 1, which is put out twice; lent what they ask for.
const PAINT: SheetEdge = SheetEdge {
    size: Size { w: 3, h: 2 },
    counts: Counts { n: 2, m: 2 },
    lengths: Lists {
        labels: 6,
        links: 6,
        table: 147,
        outputs: 12,
    },
    bytes: 24,
    changes: [None, None],
    expected: Ok(6),
};

// Storing the same.
const STORE: SheetEdge = SheetEdge { bytes: 44, ..PAINT };

impl SheetEdge {
    // The same of w × h pixels.
    fn sized(self, w: u32, h: u32) -> Self {
        let size = Size { w, h };
        SheetEdge { size, ..self }
    }

    // The same with n slots and m outputs.
    fn counted(self, n: u32, m: u32) -> Self {
        let counts = Counts { n, m };
        SheetEdge { counts, ..self }
    }

    // The same with buffers of these lengths.
    fn lent(self, labels: usize, links: usize, table: usize, outputs: usize) -> Self {
        let lengths = Lists {
            labels,
            links,
            table,
            outputs,
        };
        SheetEdge { lengths, ..self }
    }

    // The same with so many bytes of a picture or a destination.
    fn bytes(self, bytes: usize) -> Self {
        SheetEdge { bytes, ..self }
    }

    // The same with one more number changed: two at most.
    fn changed(self, buffer: Buffer, at: usize, value: u32) -> Self {
        let [last, _] = self.changes;
        let changes = [Some(Change { buffer, at, value }), last];
        SheetEdge { changes, ..self }
    }

    // The same with a label changed.
    fn label(self, at: usize, value: u32) -> Self {
        self.changed(Buffer::Labels, at, value)
    }

    // The same with a link changed.
    fn link(self, at: usize, value: u32) -> Self {
        self.changed(Buffer::Links, at, value)
    }

    // The same with a number of the table changed.
    fn slot(self, at: usize, value: u32) -> Self {
        self.changed(Buffer::Table, at, value)
    }

    // The same with an output changed.
    fn output(self, at: usize, value: u32) -> Self {
        self.changed(Buffer::Outputs, at, value)
    }

    // The same, where it paints so many pixels.
    fn painting(self, painted: usize) -> Self {
        let expected = Ok(painted);
        SheetEdge { expected, ..self }
    }

    // The same, where it is refused.
    fn refused(self, refusal: Refusal) -> Self {
        let expected = Err(refusal);
        SheetEdge { expected, ..self }
    }
}

// Painting: each refusal where it first appears, the last call before it that is accepted, and several faults at once.
fn paints() -> [SheetEdge; 17] {
    [
        PAINT,
        PAINT.sized(0, 2).refused(Refusal::NoPixels),
        PAINT.sized(3, 0).refused(Refusal::NoPixels),
        PAINT.sized(65001, 1).refused(Refusal::TooManyPixels),
        PAINT.sized(65000, 1).refused(Refusal::BufferLength),
        PAINT.lent(6, 5, 147, 12).refused(Refusal::BufferLength),
        PAINT.lent(6, 6, 146, 12).refused(Refusal::BufferLength),
        PAINT.lent(6, 6, 147, 11).refused(Refusal::BufferLength),
        PAINT.lent(0, 7, 148, 13),
        PAINT.counted(7, 12),
        PAINT.counted(8, 2).refused(Refusal::BufferLength),
        PAINT.counted(2, 13).refused(Refusal::BufferLength),
        PAINT.counted(0, 0).painting(0),
        PAINT.bytes(23).refused(Refusal::PictureLength),
        PAINT.bytes(25).refused(Refusal::PictureLength),
        PAINT.bytes(25).counted(8, 2).refused(Refusal::BufferLength),
        PAINT
            .bytes(0)
            .lent(0, 0, 0, 0)
            .refused(Refusal::BufferLength),
    ]
}

// Painting, the calls whose entries are looked at: also chains that no run makes.
fn entries() -> [SheetEdge; 20] {
    [
        PAINT.counted(1, 2).refused(Refusal::NoSlot),
        PAINT.output(0, 2).refused(Refusal::NoSlot),
        PAINT.output(2, 2),
        PAINT.output(1, 4294967295).refused(Refusal::NoSlot),
        PAINT.slot(COLORS, 0).refused(Refusal::NoAverage),
        PAINT.slot(GREEN, 1531).refused(Refusal::NoAverage),
        PAINT.slot(ALPHA, 1531).refused(Refusal::NoAverage),
        PAINT.slot(COUNT, 7).refused(Refusal::BadList),
        PAINT.slot(FIRST, 0).refused(Refusal::BadList),
        PAINT.slot(FIRST, 7).refused(Refusal::BadList),
        PAINT.link(4, 0).refused(Refusal::BadList),
        PAINT.link(4, 7).refused(Refusal::BadList),
        PAINT.link(5, 4294967295),
        PAINT.link(1, 1).painting(2),
        PAINT.slot(FIRST, 0).slot(COUNT, 0).painting(0),
        PAINT.output(0, 2).link(0, 0).refused(Refusal::BadList),
        PAINT.output(1, 2).link(0, 0).refused(Refusal::NoSlot),
        PAINT
            .slot(COUNT, 7)
            .slot(COLORS, 0)
            .refused(Refusal::NoAverage),
        PAINT
            .bytes(23)
            .output(1, 2)
            .slot(RED, 1531)
            .refused(Refusal::PictureLength),
        PAINT.slot(COUNT, 4294967295).refused(Refusal::BadList),
    ]
}

// Storing, likewise.
fn stores() -> [SheetEdge; 25] {
    [
        STORE,
        STORE.sized(0, 2).refused(Refusal::NoPixels),
        STORE.sized(65001, 1).refused(Refusal::TooManyPixels),
        STORE.lent(5, 6, 147, 12).refused(Refusal::BufferLength),
        STORE.lent(6, 5, 147, 12).refused(Refusal::BufferLength),
        STORE.lent(6, 6, 146, 12).refused(Refusal::BufferLength),
        STORE.lent(6, 6, 147, 11).refused(Refusal::BufferLength),
        STORE.counted(8, 2).refused(Refusal::BufferLength),
        STORE.counted(2, 13).refused(Refusal::BufferLength),
        STORE.label(5, 65535),
        STORE.label(5, 65536).refused(Refusal::LargeNumber),
        STORE.link(0, 65536).refused(Refusal::LargeNumber),
        STORE.slot(FIRST, 65536).refused(Refusal::LargeNumber),
        STORE.slot(COUNT, 65536).refused(Refusal::LargeNumber),
        STORE.output(1, 65536).refused(Refusal::LargeNumber),
        STORE.slot(RED, 65536),
        STORE.slot(42, 65536),
        STORE.output(2, 65536),
        STORE.lent(7, 7, 148, 13).label(6, 65536),
        STORE.bytes(43).refused(Refusal::DestinationLength),
        STORE.bytes(45).refused(Refusal::DestinationLength),
        STORE
            .bytes(43)
            .label(0, 65536)
            .refused(Refusal::LargeNumber),
        STORE
            .bytes(43)
            .lent(5, 6, 147, 12)
            .label(0, 65536)
            .refused(Refusal::BufferLength),
        STORE.counted(1, 2).refused(Refusal::DestinationLength),
        STORE.bytes(0).refused(Refusal::DestinationLength),
    ]
}

// The link at a place before it is changed: the pixels are listed in their order.
fn link_at(place: usize) -> u32 {
    if place < 5 { place as u32 + 2 } else { 0 }
}

// The number at a place of the table before it is changed: slot 1 has all pixels, with the average (10, 255, 30, 255)
// for its residue.
fn slot_at(place: usize) -> u32 {
    match place {
        FIRST => 1,
        COUNT | COLORS => 6,
        RED => 60,
        GREEN | ALPHA => 1530,
        BLUE => 180,
        _ => 0,
    }
}

// Puts a value at a place of a buffer that has the place.
fn put(numbers: &mut [u32], at: usize, value: u32) {
    if let Some(number) = numbers.get_mut(at) {
        *number = value;
    }
}

// Makes a change.
fn set(buffers: &mut Lists<Vec<u32>>, change: Change) {
    let Change { buffer, at, value } = change;
    match buffer {
        Buffer::Labels => put(&mut buffers.labels, at, value),
        Buffer::Links => put(&mut buffers.links, at, value),
        Buffer::Table => put(&mut buffers.table, at, value),
        Buffer::Outputs => put(&mut buffers.outputs, at, value),
    }
}

// Whether the first pixels have the sheet's colour, and the others are zero.
fn shows(picture: &[u8], painted: usize) -> bool {
    let (pixels, rest) = picture.as_chunks::<4>();
    rest.is_empty()
        & pixels.iter().enumerate().all(|(i, pixel)| {
            let color = if i < painted {
                [10, 255, 30, 255]
            } else {
                [0; 4]
            };
            *pixel == color
        })
}

impl SheetEdge {
    // The sheet that the call is lent.
    fn buffers(self, alloc: Global) -> Result<Lists<Vec<u32>>, AllocError> {
        let mut buffers = Lists {
            labels: vec![in alloc; 1; self.lengths.labels]?,
            links: (0..self.lengths.links).map(link_at).collect(alloc)?,
            table: (0..self.lengths.table).map(slot_at).collect(alloc)?,
            outputs: vec![in alloc; 1; self.lengths.outputs]?,
        };
        for change in self.changes.into_iter().flatten() {
            set(&mut buffers, change);
        }
        Ok(buffers)
    }

    // Paints, and tells whether that went right.
    fn is_painted_right(self, alloc: Global) -> Result<bool, AllocError> {
        let buffers = self.buffers(alloc)?;
        let mut picture = filled(alloc, self.bytes)?;
        let answer = container::to_color_image(
            buffers.clusters(self.size, self.counts),
            &mut picture,
        );
        Ok(match self.expected {
            Ok(painted) => is_answer(answer, Ok(())) & shows(&picture, painted),
            Err(refusal) => is_answer(answer, Err(refusal)) & are_filled(&picture, 0),
        })
    }

    // Stores, and tells whether that went right.
    fn is_stored_right(self, alloc: Global) -> Result<bool, AllocError> {
        let buffers = self.buffers(alloc)?;
        let mut sheet = filled(alloc, self.bytes)?;
        let clusters = buffers.clusters(self.size, self.counts);
        let answer = sheet::store(clusters, &buffers.labels, &mut sheet);
        Ok(match self.expected {
            Ok(_) => is_answer(answer, Ok(())) & is_sheet(&sheet, clusters, &buffers.labels),
            Err(refusal) => is_answer(answer, Err(refusal)) & are_filled(&sheet, 0),
        })
    }
}

// A row that is asked for, and where in the picture it begins, or why it is refused.
#[derive(Clone, Copy)]
struct RowEdge {
    size: Size,
    bytes: usize,
    y: u32,
    expected: Result<usize, Refusal>,
}

// Row y of a picture of w × h pixels that has so many bytes.
fn row(w: u32, h: u32, bytes: usize, y: u32, expected: Result<usize, Refusal>) -> RowEdge {
    let size = Size { w, h };
    RowEdge {
        size,
        bytes,
        y,
        expected,
    }
}

// Rows, likewise.
fn rows() -> [RowEdge; 16] {
    [
        row(3, 2, 24, 0, Ok(0)),
        row(3, 2, 24, 1, Ok(12)),
        row(3, 2, 24, 2, Err(Refusal::NoRow)),
        row(3, 2, 24, 4294967295, Err(Refusal::NoRow)),
        row(3, 2, 23, 0, Err(Refusal::PictureLength)),
        row(3, 2, 25, 1, Err(Refusal::PictureLength)),
        row(3, 2, 23, 2, Err(Refusal::PictureLength)),
        row(0, 2, 24, 0, Err(Refusal::NoPixels)),
        row(3, 0, 24, 0, Err(Refusal::NoPixels)),
        row(0, 65001, 24, 65001, Err(Refusal::NoPixels)),
        row(65001, 1, 24, 0, Err(Refusal::TooManyPixels)),
        row(65536, 65536, 0, 0, Err(Refusal::TooManyPixels)),
        row(65000, 1, 24, 0, Err(Refusal::PictureLength)),
        row(6, 1, 24, 0, Ok(0)),
        row(6, 1, 24, 1, Err(Refusal::NoRow)),
        row(1, 6, 24, 5, Ok(20)),
    ]
}

impl RowEdge {
    // Asks for the row, and tells whether it went right: its bytes are filled ones, from the right place on.
    fn is_right(self, alloc: Global) -> Result<bool, AllocError> {
        let picture: Vec<u8> = filled(alloc, self.bytes)?;
        let row = sheet::row(self.size, &picture, self.y);
        let answer = sheet::row_check(self.size, &picture, self.y);
        Ok(match self.expected {
            Ok(from) => is_answer(answer, Ok(()))
                & (row.len() == 4 * self.size.w as usize)
                & are_filled(row, from),
            Err(refusal) => is_answer(answer, Err(refusal)) & row.is_empty(),
        })
    }
}

// Makes every call.
pub(crate) fn all(alloc: Global) -> Result<Tally, AllocError> {
    let mut tally = Tally::default();
    for edge in paints().into_iter().chain(entries()) {
        tally.count(edge.is_painted_right(alloc)?);
    }
    for edge in stores() {
        tally.count(edge.is_stored_right(alloc)?);
    }
    for edge in rows() {
        tally.count(edge.is_right(alloc)?);
    }
    Ok(tally)
}
