// The C interface: every call, exported. The functions `star_cases`, `refusals`, `meanings`, `exposed_found`, `promise_3`, `cleaning`, `sweeping`, `picking`, `doubting`, `two_widths` and `slowest_start` pin theorems in their contracts.
// Kept: three numbers for the sizes, a slice for each buffer, and a function for each name of both families, as the C interface has them.

#![tactic(auto, using(outcome::specs::Result::ended, outcome::specs::Result::gives))]

pub mod scc; // scc.rt: the second family

ghost use Rattle.std.specs.Prelude.{◌≡◌};
ghost use Rattle.bounded.specs.Limits.{two_widths};
ghost use Rattle.outcome.specs.Outcome.{returned};
ghost use Rattle.outcome.specs.Row.{RowsHold};
ghost use Rattle.sizes.specs.declared.Layout.{Layout};
ghost use Rattle.sizes.specs.Sizes.{sizes_of};
ghost use Rattle.sizes.specs.Blocks.{named};
ghost use Rattle.record.specs.Flash.{flash};
ghost use Rattle.bits.specs.Bits.{count_outcome};
ghost use Rattle.bits.specs.Cases.{count_rows};
ghost use Rattle.rules.specs.Volume.{volume};
ghost use Rattle.rules.specs.Format.{format_outcome};
ghost use Rattle.rules.specs.Read.{read_outcome};
ghost use Rattle.rules.specs.cases.Bounds.{bound_rows};
ghost use Rattle.rules.specs.cases.Write.{write_rows};
ghost use Rattle.rules.specs.cases.Erase.{outdone_rows};
ghost use Rattle.rules.specs.cases.Suggest.{suggest_rows};
ghost use Rattle.rules.specs.Launch.{launch_outcome};
ghost use Rattle.rules.specs.Write.{write_outcome};
ghost use Rattle.rules.specs.Withdraw.{withdraw_outcome};
ghost use Rattle.rules.specs.Erase.{erase_outcome};
ghost use Rattle.rules.specs.Suggest.{suggest_outcome};
ghost use Rattle.rules.specs.CheckBlocks.{check_blocks_outcome};
ghost use Rattle.upkeep.specs.Clean.{clean_outcome};
ghost use Rattle.upkeep.specs.Sweep.{sweep_outcome};
ghost use Rattle.upkeep.specs.Pick.{pick_outcome};
ghost use Rattle.rules.specs.Recover.{recover_outcome};
ghost use Rattle.upkeep.specs.Doubtful.{doubtful_outcome};
ghost use Rattle.rules.specs.Links.{back_pointing, LinksAtMost, OneRingReaches, LinksAreSteps, LinksApart};
ghost use Rattle.rules.specs.cases.Star.{star_table};
ghost use Rattle.rules.specs.cases.Found.{found_rows};
ghost use Rattle.rules.specs.cases.Links.{link_rows};
ghost use Rattle.rules.specs.cases.Twins.{twin_rows};
ghost use Rattle.rules.specs.cases.Width.{width_rows};
ghost use Rattle.upkeep.specs.cases.Clean.{clean_rows, clean_width_rows};
ghost use Rattle.upkeep.specs.cases.Blocks.{block_rows};
ghost use Rattle.upkeep.specs.cases.Sweep.{sweep_rows};
ghost use Rattle.upkeep.specs.cases.Pick.{pick_rows};
ghost use Rattle.upkeep.specs.Cleaned.{Cleaned, CleanFills, CleanedAgain, CleanAccepted};
ghost use Rattle.upkeep.specs.Swept.{SweepErases, SweptBare};
ghost use Rattle.upkeep.specs.Picked.{GoingRound, Picked, LargerFindsNoLess};
ghost use Rattle.upkeep.specs.Doubted.{Fillings, Doubted, NoneRecovers, EmptyListRecovers};
ghost use Rattle.cases.specs.Doubtful.{doubtful_rows};
ghost use Rattle.cases.specs.Order.{order_rows};
ghost use Rattle.rules.specs.laws.Found.{FoundExactly, JudgedByFound};
ghost use Rattle.rules.specs.Meanings.{SlotMeans, ArgumentsMean, SoundMeans, TableMeans, TwinsMean, VerdictMeans, PermissionMeans, SecondMeans, SimplyMeans};
ghost use Rattle.rules.specs.Answers.{SettledMeans, EraseMeans, SuggestMeans, ReadMeans, RecoverMeans, TwinsAlone, SimpleRecoverMeans, SimpleEraseMeans, BuryMeans};
ghost use Rattle.atomicity.specs.Family.{back_pointer};
ghost use Rattle.atomicity.specs.Promise.{PromiseAt, Promise3, OwnState};
ghost use Rattle.atomicity.specs.Companions.{StatesAgree, PremisesMet, StagesInOrder, CleaningUnseen, CleanedAfterCut, Sweeping};
ghost use Rattle.atomicity.specs.Runs.{RunsComputed};

use sizes::{Layout, Sizes};

// The sizes that a call is given.
fn sizes_of(pages: u32, slots: u32, width: u32) -> Sizes
    ensures { result ≡ sizes_of pages slots width }
{
    Sizes {
        pages,
        slots,
        width,
    }
}

// Format a volume.
#[unsafe(no_mangle)]
pub extern "C" fn bpcc_format(
    pages: u32,
    slots: u32,
    width: u32,
    words: &mut [u32],
    contents: &mut [u8],
    state: &mut [u32],
) -> u64
    ensures { returned result (volume words.new contents.new state.new)
        ≡ format_outcome two_widths (sizes_of pages slots width) (volume words.old contents.old state.old) }
{
    outcome::reply_done(volume::format(
        Layout::FiveWords,
        sizes_of(pages, slots, width),
        words,
        contents,
        state,
    ))
}

// Launch a list of pages as one transaction.
#[unsafe(no_mangle)]
pub extern "C" fn bpcc_launch(
    pages: u32,
    slots: u32,
    width: u32,
    state: &mut [u32],
    list: &[u32],
) -> u64
    ensures { returned result state.new ≡ launch_outcome two_widths (sizes_of pages slots width) state.old list.now }
{
    outcome::reply_done(flight::launch(sizes_of(pages, slots, width), state, list))
}

// Write a page of a launched transaction into a blank slot.
#[unsafe(no_mangle)]
pub extern "C" fn bpcc_write(
    pages: u32,
    slots: u32,
    width: u32,
    words: &mut [u32],
    contents: &mut [u8],
    state: &mut [u32],
    page: u32,
    slot: u32,
    bytes: &[u8],
) -> u64
    ensures { returned result (volume words.new contents.new state.new)
        ≡ write_outcome two_widths (sizes_of pages slots width) (volume words.old contents.old state.old) page slot bytes.now }
{
    outcome::reply_of(
        transact::write(
            Layout::FiveWords,
            sizes_of(pages, slots, width),
            words,
            contents,
            state,
            page,
            slot,
            bytes,
        ),
        0,
    )
}

// Withdraw the transaction that a page is in.
#[unsafe(no_mangle)]
pub extern "C" fn bpcc_withdraw(
    pages: u32,
    slots: u32,
    width: u32,
    state: &mut [u32],
    page: u32,
) -> u64
    ensures { returned result state.new ≡ withdraw_outcome two_widths (sizes_of pages slots width) state.old page }
{
    outcome::reply_done(flight::withdraw(sizes_of(pages, slots, width), state, page))
}

// Erase a list of slots.
#[unsafe(no_mangle)]
pub extern "C" fn bpcc_erase(
    pages: u32,
    slots: u32,
    width: u32,
    words: &mut [u32],
    contents: &mut [u8],
    state: &[u32],
    list: &[u32],
) -> u64
    ensures { returned result (flash words.new contents.new)
        ≡ erase_outcome two_widths (sizes_of pages slots width) (volume words.old contents.old state.now) list.now }
{
    outcome::reply_done(collect::erase(
        Layout::FiveWords,
        sizes_of(pages, slots, width),
        words,
        contents,
        state,
        list,
    ))
}

// Suggest the lowest slot that may be erased.
#[unsafe(no_mangle)]
pub extern "C" fn bpcc_suggest(
    pages: u32,
    slots: u32,
    width: u32,
    words: &[u32],
    contents: &[u8],
    state: &[u32],
) -> u64
    ensures { returned result tt
        ≡ suggest_outcome two_widths (sizes_of pages slots width) (volume words.now contents.now state.now) }
{
    outcome::reply_of(
        collect::suggest(sizes_of(pages, slots, width), words, contents, state),
        sizes::NO_NUMBER,
    )
}

// Check a table of blocks, for loading.
#[unsafe(no_mangle)]
pub extern "C" fn bpcc_check_blocks(pages: u32, slots: u32, width: u32, starts: &[u32]) -> u64
    ensures { returned result tt ≡ check_blocks_outcome two_widths (sizes_of pages slots width) starts.now }
{
    outcome::reply_done(volume::blocks::check(sizes_of(pages, slots, width), starts))
}

// Clean one flash block, by a table of blocks.
#[unsafe(no_mangle)]
pub extern "C" fn bpcc_clean(
    pages: u32,
    slots: u32,
    width: u32,
    words: &mut [u32],
    contents: &mut [u8],
    state: &[u32],
    starts: &[u32],
    block: u32,
) -> u64
    ensures { returned result (flash words.new contents.new)
        ≡ clean_outcome two_widths (sizes_of pages slots width) (volume words.old contents.old state.now) (named starts.now block) }
{
    outcome::reply_done(clean::clean(
        sizes_of(pages, slots, width),
        words,
        contents,
        state,
        starts,
        block,
    ))
}

// Pick a block to clean, by a table of blocks.
#[unsafe(no_mangle)]
pub extern "C" fn bpcc_pick(
    pages: u32,
    slots: u32,
    width: u32,
    words: &[u32],
    contents: &[u8],
    state: &[u32],
    starts: &[u32],
    block: u32,
    n: u32,
    out: &mut [u32],
) -> u64
    ensures { returned result out.new
        ≡ pick_outcome two_widths (sizes_of pages slots width) (volume words.now contents.now state.now) (named starts.now block) n out.old }
{
    outcome::reply_done(pick::pick(
        sizes_of(pages, slots, width),
        words,
        contents,
        state,
        starts,
        block,
        n,
        out,
    ))
}

// A full sweep.
#[unsafe(no_mangle)]
pub extern "C" fn bpcc_sweep(
    pages: u32,
    slots: u32,
    width: u32,
    words: &mut [u32],
    contents: &mut [u8],
    state: &[u32],
) -> u64
    ensures { returned result (flash words.new contents.new)
        ≡ sweep_outcome two_widths (sizes_of pages slots width) (volume words.old contents.old state.now) }
{
    outcome::reply_done(sweep::sweep(sizes_of(pages, slots, width), words, contents, state))
}

// Recover the state from the slot table, with the contents to tell twins, and count the links followed.
#[unsafe(no_mangle)]
pub extern "C" fn bpcc_recover(
    pages: u32,
    slots: u32,
    width: u32,
    words: &[u32],
    contents: &[u8],
    state: &mut [u32],
) -> u64
    ensures { returned result state.new
        ≡ recover_outcome two_widths (sizes_of pages slots width) (volume words.now contents.now state.old) }
{
    outcome::reply_of(
        recovery::recover(sizes_of(pages, slots, width), words, contents, state),
        0,
    )
}

// The versions that each page may have, some slots being in doubt.
#[unsafe(no_mangle)]
pub extern "C" fn bpcc_doubtful(
    pages: u32,
    slots: u32,
    width: u32,
    words: &[u32],
    contents: &[u8],
    list: &[u32],
    out: &mut [u32],
) -> u64
    ensures { returned result out.new
        ≡ doubtful_outcome two_widths (sizes_of pages slots width) (flash words.now contents.now) list.now out.old }
{
    outcome::reply_of(
        doubtful::doubtful(sizes_of(pages, slots, width), words, contents, list, out),
        0,
    )
}

// Count the set bits of a slot's contents.
#[unsafe(no_mangle)]
pub extern "C" fn bpcc_count(bytes: &[u8]) -> u64
    ensures { returned result tt ≡ count_outcome two_widths bytes.now }
{
    outcome::reply_of(bits::count(bytes), 0)
}

// Read a page's committed contents.
#[unsafe(no_mangle)]
pub extern "C" fn bpcc_read(
    pages: u32,
    slots: u32,
    width: u32,
    words: &[u32],
    contents: &[u8],
    state: &[u32],
    page: u32,
    out: &mut [u8],
) -> u64
    ensures { returned result out.new
        ≡ read_outcome two_widths (sizes_of pages slots width) (volume words.now contents.now state.now) page out.old }
{
    outcome::reply_done(reader::read(pages, slots, width, words, contents, state, page, out))
}

// Document 01's ★ cases hold of the definitions that the calls' contracts cite, and so do the bounds of P and S, the records that a ring of two
// stores, the slots that suggest names, and which of two straddlers may be erased.
pub fn star_cases()
    ensures cases { RowsHold star_table }
    ensures bounds { RowsHold bound_rows }
    ensures records { RowsHold write_rows }
    ensures suggested { RowsHold suggest_rows }
    ensures outdone { RowsHold outdone_rows }
{}

// Each call tries its conditions in the documents' order: where all are met the first is told, without that the next, and so on to 0; computed, of every call of both families.
pub fn refusals()
    ensures order { RowsHold order_rows }
{}

// What the tests mean, each exactly its sentence in document 01 or 02: slots and their words; sizes, lengths and lists; what is sound; the highest and the used version; twins; recovery's three cases, of both families; what may be erased; and of
// records without a back pointer the second highest version, what may be erased and what a write would bury. And what the answers mean, by these: a refusal leaves all as it was; erase, suggest, read and recover; the second family's recover, erase and
// write; and that recovery and suggest see of the contents only which slots are twins.
pub fn meanings()
    ensures slots { SlotMeans }
    ensures arguments { ArgumentsMean }
    ensures sound { SoundMeans }
    ensures table { TableMeans }
    ensures twins { TwinsMean }
    ensures verdicts { VerdictMeans }
    ensures permission { PermissionMeans }
    ensures second { SecondMeans }
    ensures simple { SimplyMeans }
    ensures settled { SettledMeans }
    ensures erases { EraseMeans }
    ensures suggests { SuggestMeans }
    ensures reads { (layout : Layout) → ReadMeans layout }
    ensures recovers { RecoverMeans }
    ensures contents { TwinsAlone }
    ensures sccrecovers { SimpleRecoverMeans }
    ensures sccerases { SimpleEraseMeans }
    ensures sccburies { BuryMeans }
{}

// Document 02, wish 2: "what is found is every exposed record and no other, and … judging by it is the rule's permission for any list"; and what is
// found on one volume.
pub fn exposed_found()
    ensures exactly { FoundExactly }
    ensures judged { JudgedByFound }
    ensures found { RowsHold found_rows }
{}

// Promise 3, whole: one theorem over all lists of calls and crashes, for any widths; that it holds of the volume's own state; the paper's two invariants; that its
// premises are met by every volume that formats, and what may follow a list; what ties a call's stages to what it leaves and to a crash in it; and six
// runs, computed.
pub fn promise_3()
    ensures whole { Promise3 }
    ensures own { OwnState back_pointer }
    ensures invariants { StatesAgree back_pointer }
    ensures premises { PremisesMet back_pointer }
    ensures stages { StagesInOrder back_pointer }
    ensures runs { RunsComputed }
{}

// Document 02, wishes 1 and 8: what an accepted cleaning leaves, by any table of blocks, and which slots its copies fill; that done again, by this table or another, it alters nothing; that as many blank slots as the block has are enough for it; that recovery straight
// before and after one finds the same committed versions and contents; that after a cut in one, recovered, the same block can be cleaned; and twins, cleanings and tables of blocks, computed.
pub fn cleaning()
    ensures leaves { Cleaned }
    ensures fills { CleanFills }
    ensures again { CleanedAgain }
    ensures room { CleanAccepted }
    ensures unseen { CleaningUnseen back_pointer }
    ensures cut { CleanedAfterCut }
    ensures twins { RowsHold twin_rows }
    ensures cleaned { RowsHold clean_rows }
    ensures blocks { RowsHold block_rows }
{}

// Document 02, wish 7: each erasure of a sweep is empty or one that erase accepts; straight after a sweep no slot may be erased; on volumes that runs reach, how many records it leaves, that what it blanked, sorted by the old records, is its three erasures, and that
// recovery finds the same committed versions and contents before it, after it and after a crash in it; and sweeps, computed.
pub fn sweeping()
    ensures erases { SweepErases }
    ensures bare { SweptBare }
    ensures left { Sweeping }
    ensures swept { RowsHold sweep_rows }
{}

// Document 02, wish 9: going round shows each block once, from the named one on; the block that a pick names is the earliest seen of those that free most, and "no unseen block beats the number by more than that", which is the largest one's size less the number, or 0; "a larger n
// never finds less"; and picks, computed.
pub fn picking()
    ensures round { GoingRound }
    ensures picked { Picked }
    ensures larger { LargerFindsNoLess }
    ensures words { RowsHold pick_rows }
{}

// Document 02, wish 11: the fillings are all ways to leave listed slots blank, each once; "Each end is reached by some filling", every filling whose recovery succeeds lies between, and so many they are as the number says; 20 exactly where there is none; "An empty
// list gives recovery's own versions"; and doubtful slots, computed.
pub fn doubting()
    ensures fillings { Fillings }
    ensures ends { Doubted }
    ensures none { NoneRecovers }
    ensures empty { EmptyListRecovers }
    ensures doubted { RowsHold doubtful_rows }
{}

// Document 02, wish 10: promise 3, shown once for any width, used at the two that the calls take; and what the calls answer at these and at others, and
// count of 32 and of 64 bytes, computed.
pub fn two_widths()
    ensures promise { PromiseAt back_pointer two_widths }
    ensures widths { RowsHold width_rows }
    ensures cleans { RowsHold clean_width_rows }
    ensures counts { RowsHold count_rows }
{}

// Document 02, wish 6: "no sound table with P pages exceeds P×P"; "the one-ring table that reaches it", for each P; that the number of links "must equal the
// definition's steps"; that nothing else that recover gives or leaves depends on it; and the links of some tables, computed.
pub fn slowest_start()
    ensures most { LinksAtMost back_pointing }
    ensures reached { OneRingReaches back_pointing }
    ensures steps { LinksAreSteps back_pointing }
    ensures apart { LinksApart back_pointing }
    ensures links { RowsHold link_rows }
{}
