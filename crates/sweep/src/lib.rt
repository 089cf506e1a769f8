// A full sweep, document 02, wish 7: three erasures in a row, each finished before the next begins. The definitions are in crate upkeep; what may be erased is
// judged in crates permit and judge.

#![tactic(auto)]

mod choice; // choice.rt: the slots that each of the three erases

ghost use Rattle.std.specs.Prelude.{◌≡◌, ◌*◌, ◌≤◌, length};
ghost use Rattle.bounded.specs.Limits.{two_widths};
ghost use Rattle.bounded.specs.Below.{list_below};
ghost use Rattle.outcome.specs.Result.{ends};
ghost use Rattle.record.specs.Slot.{slot_at};
ghost use Rattle.record.specs.Flash.{flash, apply_all};
ghost use Rattle.state.specs.State.{state_at};
ghost use Rattle.twins.specs.Twins.{twins};
ghost use Rattle.rules.specs.Permission.{scene_of};
ghost use Rattle.rules.specs.Volume.{volume};
ghost use Rattle.rules.specs.Erase.{erase_steps};
ghost use Rattle.upkeep.specs.Sweep.{is_spare_exposed, is_erasable_obsolete, is_higher_twin, without_obsolete, swept_twins, sweep_outcome};
ghost use Rattle.judge.specs.Judgeable.{SoundFlash};

use noted::Slots;
use outcome::Refusal;
use sizes::{Layout, Sizes};
use volume::Volume;

// Kept: three functions, since each finds its list by another call with other buffers.

// "first erases each exposed record other than one whose page is in flight with v = used"
fn erase_exposed(sizes: Sizes, words: &mut [u32], contents: &mut [u8], state: &[u32])
    requires sound_flash { SoundFlash sizes words.old contents.old }
    requires pages_in_bounds { 4 * sizes.pages ≤ length state.now }
    ensures { flash words.new contents.new
        ≡ apply_all sizes.width (flash words.old contents.old)
        (erase_steps (list_below sizes.slots (is_spare_exposed (slot_at words.old) (state_at state.now)))) }
{
    let mut list = Slots::new();
    choice::find_spare_exposed(sizes.slots, words, state, &mut list);
    collect::blank_listed(
        Layout::FiveWords,
        sizes.width,
        words,
        contents,
        list.as_slice(),
    );
}

// "then each obsolete one that may then be erased, all judged as one list"
fn erase_obsolete(sizes: Sizes, words: &mut [u32], contents: &mut [u8], state: &[u32])
    requires sound_flash { SoundFlash sizes words.old contents.old }
    requires pages_in_bounds { 4 * sizes.pages ≤ length state.now }
    ensures { flash words.new contents.new
        ≡ apply_all sizes.width (flash words.old contents.old)
        (erase_steps (list_below sizes.slots (is_erasable_obsolete (scene_of sizes (volume words.old contents.old state.now))))) }
{
    let mut list = Slots::new();
    choice::find_obsolete(sizes, words, state, &mut list);
    collect::blank_listed(
        Layout::FiveWords,
        sizes.width,
        words,
        contents,
        list.as_slice(),
    );
}

// "and of other twins keeps the lowest"
fn erase_twins(sizes: Sizes, words: &mut [u32], contents: &mut [u8])
    requires { SoundFlash sizes words.old contents.old }
    ensures { flash words.new contents.new
        ≡ apply_all sizes.width (flash words.old contents.old)
        (erase_steps (list_below sizes.slots (is_higher_twin (twins sizes.width (flash words.old contents.old))))) }
{
    let mut list = Slots::new();
    choice::find_twins(sizes, words, contents, &mut list);
    collect::blank_listed(
        Layout::FiveWords,
        sizes.width,
        words,
        contents,
        list.as_slice(),
    );
}

// The three erasures: each list is found on what the erasures before it left.
fn sweep_flash(sizes: Sizes, words: &mut [u32], contents: &mut [u8], state: &[u32])
    requires sound_flash { SoundFlash sizes words.old contents.old }
    requires pages_in_bounds { 4 * sizes.pages ≤ length state.now }
    ensures { flash words.new contents.new
        ≡ apply_all sizes.width (without_obsolete sizes (volume words.old contents.old state.now))
        (erase_steps (swept_twins sizes (volume words.old contents.old state.now))) }
{
    erase_exposed(sizes, words, contents, state);
    erase_obsolete(sizes, words, contents, state);
    erase_twins(sizes, words, contents);
}

// A full sweep.
pub fn sweep(
    sizes: Sizes,
    words: &mut [u32],
    contents: &mut [u8],
    state: &[u32],
) -> Result<(), Refusal>
    ensures { ends result (flash words.new contents.new)
        ≡ sweep_outcome two_widths sizes (volume words.old contents.old state.now) }
{
    let volume = Volume::new(Layout::FiveWords, sizes, words, contents, state);
    volume.judged()?;
    sweep_flash(sizes, words, contents, state);
    Ok(())
}
