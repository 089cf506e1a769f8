// One filling: the slot table with some of the doubtful slots blank.

ghost use Rattle.std.specs.Prelude.{◌≡◌, ℕ, ◌+◌, ◌*◌, ◌≤◌, ◌<◌, length, get_or};
ghost use Rattle.bounded.specs.Parts.{put_part};
ghost use Rattle.sizes.specs.declared.Layout.TheVariants.{FiveWords};
ghost use Rattle.record.specs.Slot.{encoded, blank_record};
ghost use Rattle.upkeep.specs.Doubtful.{absent_in, fillings};
ghost use Rattle.doubtful.specs.Filled.{blanked_words};

use record::Record;

// How many fillings there are.
pub fn count_fillings(list: &[u32]) -> u32
    requires { length list.now ≤ 8 }
    ensures { result ≡ fillings list.now }
{
    1u32 << list.len()
}

// One slot blank.
fn blank_slot(filled: &mut [u32], slot: u32)
    requires { 5 * slot + 5 ≤ length filled.old }
    ensures { filled.new ≡ put_part 5 slot (encoded FiveWords blank_record) filled.old }
{
    let a = 5 * (slot as usize);
    record::flash::store_five(&mut filled[a..a + 5], Record::BLANK);
}

// Filling m: the words with the slots blank whose digits in m, in base 2, are 1.
pub fn fill(words: &[u32], list: &[u32], m: u32, filled: &mut [u32])
    requires filled_len { length filled.old ≡ length words.now }
    requires by_index { (i : ℕ) → i < length list.now → 5 * get_or list.now i 0 + 5 ≤ length words.now }
    ensures { filled.new ≡ blanked_words words.now (absent_in list.now m) }
{
    record::flash::copy_contents(&mut *filled, words);
    let mut digits = m;
    for &slot in list {
        if digits % 2 != 0 {
            blank_slot(filled, slot);
        }
        digits /= 2;
    }
}
