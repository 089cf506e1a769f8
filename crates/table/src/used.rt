// The used versions of all pages, in one pass over the slots.

ghost use Rattle.std.specs.Prelude.{◌≡◌, ◌+◌, ◌<◌, max, get_or, set};
ghost use Rattle.bounded.specs.Tabulate.{tabulate};
ghost use Rattle.record.specs.Slot.{slot_in};
ghost use Rattle.table.specs.Table.{used_of};

use super::SoundTable;

// The page's entry becomes at least the version.
fn raise_entry(used: &mut [u32; 256], page: u32, version: u32)
    requires { page < 256 }
    ensures { used.new ≡ set used.old page (max (get_or used.old page 0) version) }
{
    let p = page as usize;
    used[p] = used[p].max(version);
}

impl SoundTable<'_> {
    // What slot k mentions: v for its page, nv for its next page.
    fn raise_mentioned(&self, k: u32, used: &mut [u32; 256])
        requires k_lt_slots { k < self.now.sizes.slots }
        requires used_value { used.old ≡ tabulate 256 (used_of k (slot_in self.now.layout self.now.words.now)) }
        ensures { used.new ≡ tabulate 256 (used_of (k + 1) (slot_in self.now.layout self.now.words.now)) }
    {
        let Some(record) = self.held_slot(k) else {
            return;
        };
        raise_entry(used, record.p, record.v);
        raise_entry(used, record.np, record.nv);
    }

    // "Used = the highest of all v with that p and all nv with that np": of all pages, in one pass over the slots.
    pub fn used_versions(&self, used: &mut [u32; 256])
        ensures { used.new ≡ tabulate 256 (used_of self.now.sizes.slots (slot_in self.now.layout self.now.words.now)) }
    {
        *used = [0; 256];
        for k in 0..self.sizes.slots {
            self.raise_mentioned(k, used);
        }
    }
}
