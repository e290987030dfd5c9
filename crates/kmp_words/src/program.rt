//! The programs whose words are read.

/// A program, by what its words may ask for.
#[derive(Clone, Copy, Debug)]
pub enum Program {
    /// `kmp` runs cores in turn, writes images and checks reports.
    Kmp,
    /// `kmp_mp` runs cores on threads of their own.
    KmpMp,
}

impl Program {
    /// Its name, with which it begins what it says on standard error.
    pub fn name(self) -> &'static str {
        match self {
            Program::Kmp => "kmp",
            Program::KmpMp => "kmp_mp",
        }
    }
}
