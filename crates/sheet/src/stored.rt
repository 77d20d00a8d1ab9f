// The stored sheet: its checks, and its bytes.
ghost use Rattle.std.specs.Prelude.{◌≡◌, false, ℕ, ◌+◌, ◌*◌, ◌≤◌, ◌<◌, length, IfOk};
ghost use Rattle.std.proofs.lemmas.List.Edits.{sets};
ghost use Rattle.rules.specs.Refusals.{store_answer};
ghost use Rattle.rules.specs.Stored.{stored_bytes, is_large, two_bytes};
ghost use Rattle.refusal.specs.Refusal.{answer_of};
ghost use Rattle.sheet.specs.Code.Stored.{numbers_of, pixel_pairs, slot_pairs, early_answer};
ghost use Rattle.sheet.specs.Code.Pairs.{pairs};

use image::{Clusters, layout};
use refusal::Refusal;

// The largest number of two bytes.
const LARGEST: u32 = 65535;

// Whether one of the numbers takes more than two bytes. Here and in the next two functions all are looked at: the
// compiler then compares several at a time.
fn has_large(numbers: &[u32]) -> bool
    ensures { result ≡ is_large numbers.now }
{
    numbers
        .iter()
        .fold(false, |large, number| large | (LARGEST < *number))
}

// Whether a label or a link of a pixel takes more than two bytes, in one pass over both.
fn has_large_pixel(labels: &[u32], links: &[u32]) -> bool
    requires { length links.now ≡ length labels.now }
    ensures { result ≡ is_large (pixel_pairs labels.now links.now) }
{
    labels
        .iter()
        .zip(links)
        .fold(false, |large, (label, link)| {
            large | (LARGEST < *label) | (LARGEST < *link)
        })
}

// Whether a first pixel or a count of a slot takes more than two bytes.
fn has_large_slot(slots: &[[u32; layout::SLOT_WIDTH]]) -> bool
    ensures { result ≡ is_large (slot_pairs slots.now) }
{
    slots.iter().fold(false, |large, slot| {
        large | (LARGEST < slot[layout::FIRST_PIXEL]) | (LARGEST < slot[layout::PIXEL_COUNT])
    })
}

// Writes x as number i, in two bytes, low byte first.
fn put(destination: &mut [u8], i: usize, x: u32)
    requires room { 2 * i + 2 ≤ length destination.old }
    requires small { x ≤ 65535 }
    ensures { destination.new ≡ sets destination.old (2 * i) (two_bytes x) }
{
    destination[2 * i..2 * i + 2].copy_from_slice(&(x as u16).to_le_bytes());
}

// Writes the numbers, which fill the destination.
#[tactic(auto, unfolding(rules::specs::Stored::stored_bytes), using(crate::proofs::Bytes::put_laws))]
fn put_all(destination: &mut [u8], numbers: &[u32])
    requires exact { length destination.old ≡ 2 * length numbers.now }
    requires small { is_large numbers.now ≡ false }
    ensures { destination.new ≡ stored_bytes numbers.now }
{
    for (i, number) in numbers.iter().enumerate() {
        put(destination, i, *number);
    }
}

// Writes a pair of numbers for each of 0 .. count - 1, which fill the destination.
#[tactic(auto, unfolding(rules::specs::Stored::stored_bytes), using(crate::proofs::Bytes::put_laws))]
fn put_pairs<F: Fn(usize) -> (u32, u32)>(destination: &mut [u8], count: usize, pair: F)
    requires exact { length destination.old ≡ 4 * count }
    requires small { (i : ℕ) → i < count → F.pre pair i
        × ((x : ℕ × ℕ) → F.post pair i x → (x.0 ≤ 65535) × (x.1 ≤ 65535)) }
    ensures { (f g : ℕ → ℕ) → ((i : ℕ) (x : ℕ × ℕ) → i < count → F.post pair i x → x ≡ (f i, g i))
        → destination.new ≡ stored_bytes (pairs f g count) }
{
    for i in 0..count {
        let (first, second) = pair(i);
        put(destination, 2 * i, first);
        put(destination, 2 * i + 1, second);
    }
}

// The sheet that is stored, where checks 2, 3 and 5 pass: of each part what is stored, and no more.
#[derive(Clone, Copy)]
pub(crate) struct Stored<'a> {
    sizes: [u32; 4],
    labels: &'a [u32],
    links: &'a [u32],
    slots: &'a [[u32; layout::SLOT_WIDTH]],
    outputs: &'a [u32],
    ghost linked: { length links.now ≡ length labels.now },
}

impl<'a> Stored<'a> {
    ghost use Rattle.sheet.specs.Code.Numbers.{numbers};

    // The sheet, where checks 2, 3 and 5 pass.
    #[tactic(auto, using(crate::proofs::Accepted::fits))]
    fn fitting(clusters: Clusters<'a>, labels: &'a [u32]) -> Result<Stored<'a>, Refusal>
        ensures answer { answer_of result ≡ early_answer clusters.entry (length labels.now) }
        ensures sheet { IfOk result (λ s. numbers s ≡ numbers_of clusters.entry labels.now) }
    {
        let pixels = clusters.pixels()? as usize;
        if labels.len() < pixels {
            return Err(Refusal::BufferLength);
        }
        let Clusters {
            size,
            counts,
            links,
            table,
            outputs,
        } = clusters;
        let (slots, _) = table.as_chunks::<{ layout::SLOT_WIDTH }>();
        Ok(Stored {
            sizes: [size.w, size.h, counts.n, counts.m],
            labels: &labels[..pixels],
            links: &links[..pixels],
            slots: &slots[..counts.n as usize],
            outputs: &outputs[..counts.m as usize],
        })
    }

    // The sheet, where all checks of storing pass.
    #[tactic(auto, unfolding(rules::specs::Refusals::store_answer), using(crate::proofs::Bytes::check_laws))]
    pub(crate) fn checked(
        clusters: Clusters<'a>,
        labels: &'a [u32],
        destination: &[u8],
    ) -> Result<Stored<'a>, Refusal>
        ensures answer { let s = clusters.entry in let numbers = numbers_of s labels.now in
            answer_of result
            ≡ store_answer s.size.w s.size.h (length labels.now) (length s.links.now) (length s.table.now)
            (length s.outputs.now) (length destination.now) s.counts.n s.counts.m (is_large numbers)
            (2 * length numbers) }
        ensures sheet { IfOk result (λ s. (numbers s ≡ numbers_of clusters.entry labels.now)
            × (is_large (numbers s) ≡ false) × (length destination.now ≡ 2 * length (numbers s))) }
    {
        let sheet = Stored::fitting(clusters, labels)?;
        if sheet.is_too_large() {
            return Err(Refusal::LargeNumber);
        }
        if destination.len() != sheet.length() {
            return Err(Refusal::DestinationLength);
        }
        Ok(sheet)
    }

    // How many bytes are stored.
    #[tactic(auto, using(crate::proofs::Bytes::check_laws))]
    fn length(self) -> usize
        ensures { result ≡ 2 * length (numbers self.entry) }
    {
        8 + 4 * self.labels.len() + 4 * self.slots.len() + 2 * self.outputs.len()
    }

    // Whether a number to be stored takes more than two bytes.
    #[tactic(auto, using(crate::proofs::Bytes::large_laws))]
    fn is_too_large(self) -> bool
        ensures { result ≡ is_large (numbers self.entry) }
    {
        has_large(&self.sizes)
            | has_large_pixel(self.labels, self.links)
            | has_large_slot(self.slots)
            | has_large(self.outputs)
    }

    // Writes the sheet.
    #[tactic(auto, using(crate::proofs::Slots::write_laws))]
    pub(crate) fn write(self, destination: &mut [u8])
        requires small { is_large (numbers self) ≡ false }
        requires exact { length destination.old ≡ 2 * length (numbers self) }
        ensures { destination.new ≡ stored_bytes (numbers self.entry) }
    {
        let Stored {
            sizes,
            labels,
            links,
            slots,
            outputs,
        } = self;
        let (of_sheet, rest) = destination.split_at_mut(8);
        let (of_pixels, rest) = rest.split_at_mut(4 * labels.len());
        let (of_slots, of_outputs) = rest.split_at_mut(4 * slots.len());
        put_all(of_sheet, &sizes);
        put_pairs(of_pixels, labels.len(), |p| (labels[p], links[p]));
        put_pairs(of_slots, slots.len(), |k| {
            (slots[k][layout::FIRST_PIXEL], slots[k][layout::PIXEL_COUNT])
        });
        put_all(of_outputs, outputs);
    }
}
