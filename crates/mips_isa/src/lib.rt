//! The instruction set: the words of the instructions, what each of them does, and where a core stops.
//!
//! Encodings and effects are those of the MIPS32 architecture, Release 1, with delay slots. Nothing traps: what MIPS32
//! answers by an exception is a [`Stop`], or for an overflow the sum modulo 2^32. The instructions `cas` and `halt` are
//! this machine's own.
//!
//! Laws that crates above cite:
//!
//! - `proofs/FieldLaws`: a word spells one instruction at most.
//! - `proofs/NextLaws`: what a core asks for may be asked of memory.
//! - `proofs/StepsLaws`: code has an instruction at each of its addresses, and no step writes register 0.
#![tactic(auto)]

pub mod effects;
mod names;
pub mod steps;
pub mod words;

/// How a shift moves the bits of its register: to the left, to the right with zeros, to the right with the sign.
#[derive(Clone, Copy)]
pub enum ShiftOp {
    Sll,
    Srl,
    Sra,
}

/// What an instruction over three registers computes.
#[derive(Clone, Copy)]
pub enum AluOp {
    Add,
    Addu,
    Sub,
    Subu,
    And,
    Or,
    Xor,
    Nor,
    Slt,
    Sltu,
}

/// What an instruction over a register and an immediate computes.
#[derive(Clone, Copy)]
pub enum ImmOp {
    Addi,
    Addiu,
    Slti,
    Sltiu,
    Andi,
    Ori,
    Xori,
}

/// How a branch compares its register with zero.
#[derive(Clone, Copy)]
pub enum ZeroOp {
    Bltz,
    Bgez,
    Blez,
    Bgtz,
}

/// An instruction. It is proper where `rd`, `rs`, `rt` and `sa` are below 32 and `index` is below 2^26.
///
/// An immediate is kept as its 16 bits. That of a branch, and the index of a jump, count instructions, not bytes.
#[derive(Clone, Copy)]
pub enum Instr {
    /// `sll`, `srl`, `sra`: shifts `rt` by `sa` bits into `rd`. The word 0, `nop`, is a shift of register 0.
    Shift {
        op: ShiftOp,
        rd: u8,
        rt: u8,
        sa: u8,
    },
    /// `sllv`, `srlv`, `srav`: shifts `rt` by the low five bits of `rs` into `rd`.
    ShiftBy {
        op: ShiftOp,
        rd: u8,
        rt: u8,
        rs: u8,
    },
    /// `add` to `sltu`: computes `rd` from `rs` and `rt`.
    Alu {
        op: AluOp,
        rd: u8,
        rs: u8,
        rt: u8,
    },
    /// `addi` to `xori`: computes `rt` from `rs` and the immediate.
    AluImm {
        op: ImmOp,
        rt: u8,
        rs: u8,
        imm: u16,
    },
    /// `lui`: writes the immediate into the upper half of `rt`, and zeros into the lower.
    Lui {
        rt: u8,
        imm: u16,
    },
    /// `bne` where `differ`, else `beq`: compares `rs` and `rt`.
    BranchTwo {
        differ: bool,
        rs: u8,
        rt: u8,
        imm: u16,
    },
    /// `bltz`, `bgez`, `blez`, `bgtz`: compares `rs`, signed, with zero.
    BranchZero {
        op: ZeroOp,
        rs: u8,
        imm: u16,
    },
    /// `jal` where `link`, which writes register 31, else `j`.
    Jump {
        link: bool,
        index: u32,
    },
    /// `jr`: jumps to the address in `rs`.
    JumpReg {
        rs: u8,
    },
    /// `jalr`: jumps to the address that `rs` has before the link is written into `rd`.
    JumpLink {
        rd: u8,
        rs: u8,
    },
    /// `lw`: loads the word at `rs` plus the immediate into `rt`.
    Lw {
        rt: u8,
        rs: u8,
        imm: u16,
    },
    /// `sw`: stores `rt` at `rs` plus the immediate.
    Sw {
        rt: u8,
        rs: u8,
        imm: u16,
    },
    /// `cas`: stores `rt` at `rs` where the word there is the one in `rd`; `rd` receives the word that was there.
    Cas {
        rd: u8,
        rs: u8,
        rt: u8,
    },
    /// `halt`: stops the core.
    Halt,
}

/// What is asked of memory: an instruction's word, or the access of an instruction.
#[derive(Clone, Copy, Debug, PartialEq, Eq)]
pub enum Kind {
    Fetch,
    Lw,
    Sw,
    Cas,
}

/// Why a core goes no further. A core at a stop hasn't executed the instruction there.
#[derive(Clone, Copy, Debug, PartialEq, Eq)]
pub enum Stop {
    /// The address of the instruction is no multiple of 4, or isn't below the end of the code.
    OffCode,
    /// The instruction is `halt`.
    Halt,
    /// The address of an access is no multiple of 4.
    Misaligned,
    /// The address of an access isn't below the memory's bytes.
    Outside,
    /// The address of a store or a compare and swap is in the code.
    CodeWrite,
}

/// A core's program counters, as byte addresses, and its registers.
///
/// The instruction at `dpc` is executed next. `pc` is the address of the one behind it, which a branch at `dpc` leaves
/// in its delay slot. Register 0 holds 0 from the start, and no step writes it.
#[derive(Clone, Copy, Debug, PartialEq, Eq)]
pub struct CoreState {
    pub pc: u32,
    pub dpc: u32,
    pub regs: [u32; 32],
}

/// What an instruction asks of memory, at a byte address.
///
/// `expected` is the word that a compare and swap expects, and `value` what it or a store stores. Where the kind has no
/// use for one of them, it is what register 0 holds.
#[derive(Clone, Copy)]
pub struct Access {
    pub kind: Kind,
    pub addr: u32,
    pub expected: u32,
    pub value: u32,
}

/// What a core does at the instruction at `dpc`.
#[derive(Clone, Copy)]
pub enum Next {
    /// It goes no further.
    Stops(Stop),
    /// It makes an access, and goes on with what memory answers.
    Asks(Access),
    /// It executes an instruction without an access, and is then in this state.
    Goes(CoreState),
}
