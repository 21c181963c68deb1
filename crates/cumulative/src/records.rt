// The record that a keyholder has of the maximal forbidden sets.
ghost use Rattle.std.specs.Prelude.{◌≡◌, ℕ, ◌<◌, ◌≤◌, ◌||◌, length, ◌==◌};
ghost use Rattle.schemes.specs.Keyholders.{most_keyholders};
ghost use Rattle.cumulative.specs.Access.{numbers};
ghost use Rattle.cumulative.specs.Records.{noted, lacks};

use schemes::{KeyholderSet, MOST_KEYHOLDERS};

// The numbers of the maximal forbidden sets that a keyholder is not in. He holds the rows of these numbers in the table of
// all of t, where row q is that of keyholder q + 1.
#[derive(Clone, Copy, Default)]
pub struct KeyholderRecord {
    rows: KeyholderSet,
}

impl KeyholderRecord {
    // The record of a keyholder, by the maximal forbidden sets in their order.
    pub(crate) fn of(keyholder: u8, forbidden: &[KeyholderSet]) -> KeyholderRecord
        requires { length forbidden.now ≤ most_keyholders }
        ensures { (q : ℕ) → noted result.rows.bits q ≡ lacks (numbers forbidden.now) keyholder q }
    {
        let mut record = KeyholderRecord::default();
        for (q, set) in forbidden.iter().enumerate() {
            if !set.has(keyholder) {
                record.note(q as u8);
            }
        }
        record
    }

    // Whether there is a forbidden set q that he is not in.
    pub fn has(self, q: u8) -> bool
        ensures { result ≡ noted self.rows.bits q }
    {
        q < MOST_KEYHOLDERS && self.rows.has(q + 1)
    }

    // Notes the number q.
    fn note(&mut self, q: u8)
        requires { q < most_keyholders }
        ensures { (p : ℕ) → noted self.new.rows.bits p ≡ (p == q || noted self.old.rows.bits p) }
    {
        if let Some(rows) = self.rows.with(q + 1) {
            self.rows = rows;
        }
    }
}
