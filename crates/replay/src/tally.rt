// Counting the calls that are tried.

// How many calls were made, and how many of them went wrong.
#[derive(Clone, Copy, Default)]
pub(crate) struct Tally {
    pub calls: u64,
    pub wrong: u64,
}

impl Tally {
    // One more call.
    pub fn count(&mut self, is_right: bool) {
        self.calls = self.calls.saturating_add(1);
        self.wrong = self.wrong.saturating_add(u64::from(!is_right));
    }
}
