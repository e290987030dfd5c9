//! What a core's caller counts of its own calls. Definitions name it, so it stands here also where no test is built.

/// How a caller's calls were answered: its steps that moved something, its takes without an answer, its
/// steps that found nothing to be moved, and its withdrawals of what had no answer.
#[derive(Clone, Copy)]
pub struct Answers {
    pub moved: u32,
    pub nones: u32,
    pub idles: u32,
    pub withdrawns: u32,
}
