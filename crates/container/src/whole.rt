// Whether the last entry's list is all pixels of the sheet: three stretches of it are walked at once, so that no link
// waits for another's.
ghost use Rattle.std.specs.Prelude.{◌≡◌, true, false, ℕ, ◌-◌, ◌*◌, ◌≤◌, ◌<◌, length, get_or, IfSome};
ghost use Rattle.container.specs.Code.Leads.{Leads};

use crate::checked::Sheet;
use crate::numbered::Numbered;

// Where walks stand, and how many links each has gone.
#[derive(Clone, Copy)]
pub(crate) struct Walk<const N: usize> {
    pub(crate) at: [u32; N],
    pub(crate) moved: u32,
}

impl Sheet<'_> {
    // Whether a walk stops at v: at q and r, and where there is no pixel.
    fn walk_ends(self, v: u32, q: u32, r: u32) -> bool
        ensures { result ≡ false → (0 < v) × (v ≤ self.entry.size) }
    {
        (v == 0) | (self.size < v) | (v == q) | (v == r)
    }

    // Each of several places goes one link on.
    pub(crate) fn follow<const N: usize>(self, at: &mut [u32; N])
        requires { (i : ℕ) → i < N → (0 < get_or at.old i 0) × (get_or at.old i 0 ≤ self.size) }
        ensures length { length at.new ≡ N }
        ensures on { (i : ℕ) → i < N → get_or at.new i 0 ≡ get_or self.entry.links.now (get_or at.old i 0 - 1) 0 }
    {
        for v in at.iter_mut() {
            *v = self.links[(*v - 1) as usize];
        }
    }

    // Walks from several pixels, most links at most, until one of the walks stops.
    pub(crate) fn walk<const N: usize>(self, q: u32, r: u32, from: [u32; N], most: u32) -> Walk<N>
        ensures moved { result.moved ≤ most }
        ensures leads { let s = self.entry in (i : ℕ) → i < N
            → Leads s.size s.links.now (get_or from.entry i 0) result.moved (get_or result.at i 0) }
    {
        let mut at = from;
        for moved in 0..most {
            if at.iter().any(|v| self.walk_ends(*v, q, r)) {
                return Walk { at, moved };
            }
            self.follow(&mut at);
        }
        Walk { at, moved: most }
    }
}

// Two pixels of a sheet, plus one, where walks along its links stop.
#[derive(Clone, Copy)]
struct Stops<'a> {
    sheet: Sheet<'a>,
    q: u32,
    r: u32,
    ghost q_some: { 0 < q },
    ghost q_within: { q ≤ sheet.size },
    ghost r_some: { 0 < r },
    ghost r_within: { r ≤ sheet.size },
}

impl Stops<'_> {
    // Walks from first, q and r: all three, then any two of which neither has stopped, then each alone.
    fn walks(self, first: u32) -> (Walk<1>, Walk<1>, Walk<1>)
        ensures moved { let most = 5 * self.entry.sheet.size in
            (result.0.moved ≤ most) × (result.1.moved ≤ most) × (result.2.moved ≤ most) }
        ensures first { let s = self.entry.sheet in
            Leads s.size s.links.now first result.0.moved (get_or result.0.at 0 0) }
        ensures q { let s = self.entry.sheet in
            Leads s.size s.links.now self.entry.q result.1.moved (get_or result.1.at 0 0) }
        ensures r { let s = self.entry.sheet in
            Leads s.size s.links.now self.entry.r result.2.moved (get_or result.2.at 0 0) }
    {
        let Stops { sheet, q, r, .. } = self;
        let mut on = [q, r];
        sheet.follow(&mut on);
        let [b, c] = on;
        let size = sheet.size;
        let t = sheet.walk(q, r, [first, b, c], size);
        let u = sheet.walk(q, r, [t.at[0], t.at[1]], size);
        let v = sheet.walk(q, r, [u.at[1], t.at[2]], size);
        let w = sheet.walk(q, r, [u.at[0], v.at[1]], size);
        let x = sheet.walk(q, r, [w.at[0]], size);
        let y = sheet.walk(q, r, [v.at[0]], size);
        let z = sheet.walk(q, r, [w.at[1]], size);
        (
            Walk {
                moved: t.moved + u.moved + w.moved + x.moved,
                ..x
            },
            Walk {
                moved: 1 + t.moved + u.moved + v.moved + y.moved,
                ..y
            },
            Walk {
                moved: 1 + t.moved + v.moved + w.moved + z.moved,
                ..z
            },
        )
    }

    // True only if size links from first lead to 0: from first to q, to r and to 0, or to r, to q and to 0.
    fn is_whole(self, first: u32) -> bool
        ensures { let s = self.entry.sheet in result ≡ true → Leads s.size s.links.now first s.size 0 }
    {
        let Stops { sheet, q, r, .. } = self;
        let (x, y, z) = self.walks(first);
        if x.moved + y.moved + z.moved != sheet.size {
            return false;
        }
        let ends = [x.at[0], y.at[0], z.at[0]];
        if ends == [q, r, 0] {
            return true;
        }
        ends == [r, 0, q]
    }
}

impl Numbered<'_> {
    // The first pixel of the list of the entry back from the end, plus one; nothing where there is no such entry, or no
    // such pixel.
    fn stretch_start(self, back: usize) -> Option<u32>
        ensures { IfSome result (λ v. (0 < v) × (v ≤ self.entry.sheet.size)) }
    {
        let sheet = self.sheet;
        let k = sheet.outputs.get(sheet.outputs.len().checked_sub(back)?)?;
        let v = sheet.list(*k).first;
        if (v == 0) | (sheet.size < v) {
            return None;
        }
        Some(v)
    }

    // True only if size links from first lead to 0.
    pub(crate) fn is_all(self, first: u32) -> bool
        ensures { let s = self.entry.sheet in result ≡ true → Leads s.size s.links.now first s.size 0 }
    {
        let sheet = self.sheet;
        Stops {
            sheet,
            q: self.stretch_start(2).unwrap_or(sheet.size / 8 + 1),
            r: self.stretch_start(3).unwrap_or(sheet.size / 2 + 1),
        }
        .is_whole(first)
    }
}
