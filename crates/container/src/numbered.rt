// A sheet whose entries have numbers that pass.
ghost use Rattle.std.specs.Prelude.{◌≡◌, All, IfSome};
ghost use Rattle.container.specs.Code.Quick.{NumbersPass};

use crate::checked::Sheet;

// Each entry names a slot, whose residue has an average, and which counts at most size pixels.
#[derive(Clone, Copy)]
pub(crate) struct Numbered<'a> {
    pub(crate) sheet: Sheet<'a>,
    ghost numbers: { All (NumbersPass sheet.size sheet.n sheet.table.now) sheet.outputs.now },
}

impl<'a> Numbered<'a> {
    // The sheet, where that is so.
    pub(crate) fn checked(sheet: Sheet<'a>) -> Option<Numbered<'a>>
        ensures { IfSome result (λ numbered. numbered.sheet ≡ sheet.entry) }
    {
        if !sheet.outputs.iter().all(|k| sheet.slot_passes(*k)) {
            return None;
        }
        Some(Numbered { sheet })
    }
}
