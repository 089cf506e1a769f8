// Volumes on one page: what is counted of each, the page that is printed of them, and what is shown of it (specs/, proofs/). No code but the type.

#![tactic(auto)]

// What is counted of a volume.
#[derive(Clone, Copy, Default)]
pub struct Figures {
    // Pages that are set.
    pub pages: u32,
    // Records that are obsolete.
    pub obsolete: u32,
    // Records that are exposed.
    pub exposed: u32,
    // Obsolete records that are needed straddlers.
    pub needed: u32,
}
