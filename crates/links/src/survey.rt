// A sound table, and each page's highest record in it.

ghost use Rattle.std.specs.Prelude.{◌≡◌, ◌<◌};
ghost use Rattle.bounded.specs.Below.{all_below};
ghost use Rattle.record.specs.Slot.{slot_in};
ghost use Rattle.table.specs.Table.{highest, has_record};
ghost use Rattle.table.specs.HighestSlot.{HighestBelow};

use record::Slot;
use table::SoundTable;

// A sound table, with each page's slot of its highest record.
#[derive(Clone, Copy)]
pub struct Survey<'a> {
    pub table: SoundTable<'a>,
    pub top: &'a [Option<u16>; 256],
    pub ghost tops: { HighestBelow table.sizes.slots table.sizes.slots (slot_in table.layout table.words.now) top.now },
}

impl Survey<'_> {
    ghost use Rattle.links.specs.Shown.{slots_shown};

    // Each page has a record.
    pub fn records_present(&self) -> bool
        ensures { result ≡ all_below self.now.table.sizes.pages (has_record self.now.table.sizes.slots (slots_shown self.now.table)) }
    {
        for page in 0..self.table.sizes.pages {
            if self.top[page as usize].is_none() {
                return false;
            }
        }
        true
    }

    // A page's highest record.
    pub fn highest_of(&self, page: u32) -> Slot
        requires { page < 256 }
        ensures { result ≡ highest self.now.table.sizes.slots (slots_shown self.now.table) page }
    {
        self.table.named_slot(self.top[page as usize])
    }
}
