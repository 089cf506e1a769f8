// The volatile state ("the sheet"): per page four words, lost in a crash. Mentions no record. The definitions are in specs/.

#![tactic(auto)]

pub mod cycle; // cycle.rt: the cycle through a page, and what ends it
pub mod launch; // launch.rt: what launches one

ghost use Rattle.std.specs.Prelude.{◌≡◌, not, ◌+◌, ◌*◌, ◌≤◌, ◌<◌, length};
ghost use Rattle.bounded.specs.Below.{all_below};
ghost use Rattle.bounded.specs.Parts.{put_part};
ghost use Rattle.state.specs.State.{page_words, state_at, in_flight, is_written, is_set, versions_sound, flight_sound, written_sound, page_sound, share_next, nexts_apart, state_sound};
ghost use Rattle.state.specs.Change.{at_rest, launched_page, written_page};
ghost use Rattle.state.specs.Walk.{ended_page};

// One page's words: "the last committed version, the last used version, the next page in its current ring
// (4,294,967,295: not in flight), and written (0 or 1)".
// Kept: `next` a number, for `page_words`, `in_flight` and C's words name a number for none: an Option would be turned back at each end.
// Kept: `written` a word, for C lends any 32 bits, and a state is unsound where they are neither 0 nor 1.
#[derive(Clone, Copy)]
pub struct PageState {
    pub committed: u32,
    pub used: u32,
    pub next: u32,
    pub written: u32,
}

// The state of a page.
// Kept: by places, for a slice's pattern needs an arm for other lengths, which never runs.
pub fn page_at(state: &[u32], page: u32) -> PageState
    requires { 4 * page + 4 ≤ length state.now }
    ensures { result ≡ state_at state.now page }
{
    let at = 4 * page as usize;
    PageState {
        committed: state[at],
        used: state[at + 1],
        next: state[at + 2],
        written: state[at + 3],
    }
}

// Stores the state of a page.
pub fn put_page(state: &mut [u32], page: u32, s: PageState)
    requires { 4 * page + 4 ≤ length state.old }
    ensures { state.new ≡ put_part 4 page (page_words s) state.old }
{
    let at = 4 * page as usize;
    state[at..at + 4].copy_from_slice(&[s.committed, s.used, s.next, s.written]);
}

impl PageState {
    // At rest: not in flight, written 0.
    pub fn at_rest(committed: u32, used: u32) -> PageState
        ensures { result ≡ at_rest committed used }
    {
        PageState {
            committed,
            used,
            next: sizes::NO_NUMBER,
            written: 0,
        }
    }

    pub fn in_flight(self) -> bool
        ensures { result ≡ in_flight self }
    {
        self.next != sizes::NO_NUMBER
    }

    pub fn is_written(self) -> bool
        ensures { result ≡ is_written self }
    {
        self.written == 1
    }

    // "A page is empty exactly when its committed version is 0"; any other is set.
    pub fn is_set(self) -> bool
        ensures { result ≡ is_set self }
    {
        self.committed != 0
    }

    // Launched with this next page: "used rises by 1 …, written is 0".
    pub fn launched(self, next: u32) -> PageState
        requires { self.used < 4294967295 }
        ensures { result ≡ launched_page self next }
    {
        PageState {
            used: self.used + 1,
            next,
            written: 0,
            ..self
        }
    }

    // "The page becomes written."
    pub fn written_page(self) -> PageState
        ensures { result ≡ written_page self }
    {
        PageState { written: 1, ..self }
    }

    // Out of flight, written 0; with committed = used where the cycle commits.
    // Kept: `commits` a bool, as the definition `ended_page` has it: an enum of two would be turned back there.
    pub fn ended(self, commits: bool) -> PageState
        ensures { result ≡ ended_page commits self }
    {
        let committed = if commits { self.used } else { self.committed };
        PageState::at_rest(committed, self.used)
    }

    // "committed is at most used, used is at most 4,294,967,294"
    fn versions_sound(self) -> bool
        ensures { result ≡ versions_sound self }
    {
        self.committed <= self.used && self.used <= sizes::HIGHEST_VERSION
    }

    // "a page in flight has committed below used, its next page is below P and also in flight"
    fn flight_sound(self, pages: u32, state: &[u32]) -> bool
        requires { 4 * pages ≤ length state.now }
        ensures { result ≡ flight_sound pages (state_at state.now) self }
    {
        !self.in_flight()
            || (self.committed < self.used
                && self.next < pages
                && page_at(state, self.next).in_flight())
    }

    // "written is 0 or 1, and 0 for a page not in flight"
    fn written_sound(self) -> bool
        ensures { result ≡ written_sound self }
    {
        self.written == 0 || (self.written == 1 && self.in_flight())
    }

    // Both are in flight, with the same next page.
    fn shares_next(self, other: PageState) -> bool
        ensures { result ≡ share_next self other }
    {
        self.in_flight() && other.in_flight() && self.next == other.next
    }
}

fn page_sound(pages: u32, state: &[u32], page: u32) -> bool
    requires { (4 * pages ≤ length state.now) × (page < pages) }
    ensures { result ≡ page_sound pages (state_at state.now) page }
{
    let s = page_at(state, page);
    s.versions_sound() && s.flight_sound(pages, state) && s.written_sound()
}

fn pages_sound(pages: u32, state: &[u32]) -> bool
    requires { 4 * pages ≤ length state.now }
    ensures { result ≡ all_below pages (page_sound pages (state_at state.now)) }
{
    for page in 0..pages {
        if !page_sound(pages, state, page) {
            return false;
        }
    }
    true
}

// No page below this one shares its next page.
fn next_apart(state: &[u32], page: u32) -> bool
    requires { 4 * page + 4 ≤ length state.now }
    ensures { result ≡ all_below page (λ q. not (share_next (state_at state.now q) (state_at state.now page))) }
{
    let s = page_at(state, page);
    for lower in 0..page {
        if page_at(state, lower).shares_next(s) {
            return false;
        }
    }
    true
}

fn nexts_apart(pages: u32, state: &[u32]) -> bool
    requires { 4 * pages ≤ length state.now }
    ensures { result ≡ nexts_apart pages (state_at state.now) }
{
    for page in 0..pages {
        if !next_apart(state, page) {
            return false;
        }
    }
    true
}

// The state is sound.
pub fn state_sound(pages: u32, state: &[u32]) -> bool
    requires { 4 * pages ≤ length state.now }
    ensures { result ≡ state_sound pages (state_at state.now) }
{
    pages_sound(pages, state) && nexts_apart(pages, state)
}
