// One site: its row of slots.
ghost use Rattle.std.specs.Prelude.{◌≡◌, map, replicate};
ghost use Rattle.law.specs.Slots.{horizon, restarted, open_count};
ghost use Rattle.law.specs.Slots.SlotModel.{idle};
ghost use Rattle.slots.specs.Tables.{row_model};

use crate::slots::Slot;

// The slots of one site, always eight: no heap. Like a slot, it has no derived equality.
#[derive(Clone, Copy)]
pub struct Site {
    pub(crate) slots: [Slot; 8],
}

impl Site {
    // A site with no transaction.
    pub(crate) fn idle() -> Site
        ensures { row_model result ≡ replicate 8 idle }
    {
        Site {
            slots: [Slot::idle(); 8],
        }
    }

    // The smallest open snapshot, or the version where no slot is open.
    pub(crate) fn horizon(&self, version: u32) -> u32
        ensures { result ≡ horizon (row_model self.now) version }
    {
        // the project asks for a loop that works out the minimum
        let mut smallest = None;
        for slot in &self.slots {
            if let Some(snapshot) = slot.snapshot() {
                smallest = Some(smallest.unwrap_or(snapshot).min(snapshot));
            }
        }
        smallest.unwrap_or(version)
    }

    // Every open transaction is lost; how many there were.
    pub(crate) fn restart(&mut self) -> u32
        ensures answer { result ≡ open_count (row_model self.old) }
        ensures after { row_model self.new ≡ map restarted (row_model self.old) }
    {
        // a loop: after `iter_mut().map(..).sum()` nothing is known of the slots
        let mut lost = 0;
        for slot in &mut self.slots {
            lost += slot.restart();
        }
        lost
    }
}
