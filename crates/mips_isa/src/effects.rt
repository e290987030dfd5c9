//! What each instruction reads, computes and writes, where it leads, and where a core stops.
//!
//! In all of these calls `a` and `b` are the values of the instruction's registers rs and rt, `pc` is the address of its
//! delay slot, and addresses and sizes are in bytes. The effects are those of MIPS32 Release 1, without traps.
ghost use Rattle.std.specs.Prelude.{◌≡◌, ◌%◌, ◌^◌, ◌<◌, ◌==◌, if◌then◌else◌, IfSome, IfNone, IsSome, int_lt};
ghost use Rattle.mips_isa.specs.Words.{IsProper};
ghost use Rattle.mips_isa.specs.Kinds.{width, loads, stores, part, with_part, loaded};
ghost use Rattle.mips_isa.specs.Effects.{signed, sign_extended, sign_filled, shifted, computed, computed_with, rs_of, rt_of, expected_by, written_by, is_read_by, kind_of, address_of, result_of, passes, branch_target, jump_target, next_pc_of, access_stop, IsProperAddress, first_stop};

use crate::{AluOp, ImmOp, Instr, Kind, ShiftOp, Stop, ZeroOp};

/// How many bytes an access touches. Its address is a multiple of it.
pub fn width(kind: Kind) -> u32
    ensures value { result ≡ width kind }
{
    match kind {
        Kind::Fetch | Kind::Lw | Kind::Sw | Kind::Cas => 4,
    }
}

/// Whether an access writes into a register what memory held.
pub fn loads(kind: Kind) -> bool
    ensures value { result ≡ loads kind }
{
    matches!(kind, Kind::Lw | Kind::Cas)
}

/// Whether an access may write memory. A compare and swap may, whether or not it stores.
pub fn stores(kind: Kind) -> bool
    ensures value { result ≡ stores kind }
{
    matches!(kind, Kind::Sw | Kind::Cas)
}

/// The register in the field rs, which is read; 0 where the instruction has none.
#[tactic(auto, unfolding(crate::specs::Effects::rs_of))]
pub fn rs(instr: Instr) -> u8
    requires proper { IsProper instr }
    ensures value { result ≡ rs_of instr }
    ensures bound { result < 32 }
{
    match instr {
        Instr::ShiftBy { rs, .. }
        | Instr::Alu { rs, .. }
        | Instr::AluImm { rs, .. }
        | Instr::BranchTwo { rs, .. }
        | Instr::BranchZero { rs, .. }
        | Instr::JumpReg { rs }
        | Instr::JumpLink { rs, .. }
        | Instr::Lw { rs, .. }
        | Instr::Sw { rs, .. }
        | Instr::Cas { rs, .. } => rs,
        Instr::Shift { .. } | Instr::Lui { .. } | Instr::Jump { .. } | Instr::Halt => 0,
    }
}

/// The register in the field rt where it is read; 0 where it is written or the instruction has none.
#[tactic(auto, unfolding(crate::specs::Effects::rt_of))]
pub fn rt(instr: Instr) -> u8
    requires proper { IsProper instr }
    ensures value { result ≡ rt_of instr }
    ensures bound { result < 32 }
{
    match instr {
        Instr::Shift { rt, .. }
        | Instr::ShiftBy { rt, .. }
        | Instr::Alu { rt, .. }
        | Instr::BranchTwo { rt, .. }
        | Instr::Sw { rt, .. }
        | Instr::Cas { rt, .. } => rt,
        _ => 0,
    }
}

/// The register that has the word which a compare and swap expects; 0 for another instruction.
#[tactic(auto, unfolding(crate::specs::Effects::expected_by))]
pub fn expected(instr: Instr) -> u8
    requires proper { IsProper instr }
    ensures value { result ≡ expected_by instr }
    ensures bound { result < 32 }
{
    match instr {
        Instr::Cas { rd, .. } => rd,
        _ => 0,
    }
}

/// The register that is written; 0 where none is, and where it is register 0.
#[tactic(auto, unfolding(crate::specs::Effects::written_by))]
fn written(instr: Instr) -> u8
    requires proper { IsProper instr }
    ensures value { result ≡ written_by instr }
    ensures bound { result < 32 }
{
    match instr {
        Instr::Shift { rd, .. }
        | Instr::ShiftBy { rd, .. }
        | Instr::Alu { rd, .. }
        | Instr::JumpLink { rd, .. }
        | Instr::Cas { rd, .. } => rd,
        Instr::AluImm { rt, .. } | Instr::Lui { rt, .. } | Instr::Lw { rt, .. } => rt,
        Instr::Jump { link: true, .. } => 31,
        _ => 0,
    }
}

/// Whether an instruction reads the register `r`; false for register 0.
pub fn reads(instr: Instr, r: u8) -> bool
    requires proper { IsProper instr }
    ensures value { result ≡ is_read_by instr r }
{
    r > 0 && (r == rs(instr) || r == rt(instr) || r == expected(instr))
}

/// The register that an instruction writes, from 1 to 31; `None` where it writes none or register 0.
pub fn writes(instr: Instr) -> Option<u8>
    requires proper { IsProper instr }
    ensures value { result ≡ (if written_by instr == 0 then None else Some (written_by instr)) }
    ensures bound { IfSome result (λ r. r < 32) }
{
    let register = written(instr);
    if register == 0 { None } else { Some(register) }
}

/// The access that an instruction makes, never a fetch; `None` where it makes none.
#[tactic(auto, unfolding(crate::specs::Effects::kind_of))]
pub fn kind(instr: Instr) -> Option<Kind>
    requires proper { IsProper instr }
    ensures value { result ≡ kind_of instr }
{
    match instr {
        Instr::Lw { .. } => Some(Kind::Lw),
        Instr::Sw { .. } => Some(Kind::Sw),
        Instr::Cas { .. } => Some(Kind::Cas),
        _ => None,
    }
}

fn sign_extended(imm: u16) -> u32
    ensures value { result ≡ sign_extended imm }
{
    if imm & 0x8000 == 0 {
        u32::from(imm)
    } else {
        u32::from(imm) | 0xffff_0000
    }
}

/// The address of the access that an instruction makes.
#[tactic(auto, unfolding(crate::specs::Effects::address_of, crate::specs::Effects::kind_of))]
pub fn address(instr: Instr, a: u32) -> u32
    requires proper { IsProper instr }
    requires access { IsSome (kind_of instr) }
    ensures value { result ≡ address_of instr a }
{
    match instr {
        Instr::Lw { imm, .. } | Instr::Sw { imm, .. } => a.wrapping_add(sign_extended(imm)),
        Instr::Cas { .. } => a,
        _ => 0,
    }
}

fn sign_filled(word: u32, amount: u32) -> u32
    requires in_word { amount < 32 }
    ensures value { result ≡ sign_filled word amount }
{
    if word & 0x8000_0000 == 0 {
        word >> amount
    } else {
        (word >> amount) | !(u32::MAX >> amount)
    }
}

fn shifted(op: ShiftOp, word: u32, amount: u32) -> u32
    requires in_word { amount < 32 }
    ensures value { result ≡ shifted op word amount }
{
    match op {
        ShiftOp::Sll => word << amount,
        ShiftOp::Srl => word >> amount,
        ShiftOp::Sra => sign_filled(word, amount),
    }
}

fn is_less(a: u32, b: u32) -> bool
    ensures value { result ≡ int_lt (signed a) (signed b) }
{
    a.cast_signed() < b.cast_signed()
}

fn computed(op: AluOp, a: u32, b: u32) -> u32
    ensures value { result ≡ computed op a b }
{
    match op {
        AluOp::Add | AluOp::Addu => a.wrapping_add(b),
        AluOp::Sub | AluOp::Subu => a.wrapping_sub(b),
        AluOp::And => a & b,
        AluOp::Or => a | b,
        AluOp::Xor => a ^ b,
        AluOp::Nor => !(a | b),
        AluOp::Slt => u32::from(is_less(a, b)),
        AluOp::Sltu => u32::from(a < b),
    }
}

fn computed_with(op: ImmOp, a: u32, imm: u16) -> u32
    ensures value { result ≡ computed_with op a imm }
{
    match op {
        ImmOp::Addi | ImmOp::Addiu => a.wrapping_add(sign_extended(imm)),
        ImmOp::Slti => u32::from(is_less(a, sign_extended(imm))),
        ImmOp::Sltiu => u32::from(a < sign_extended(imm)),
        ImmOp::Andi => a & u32::from(imm),
        ImmOp::Ori => a | u32::from(imm),
        ImmOp::Xori => a ^ u32::from(imm),
    }
}

/// What an instruction without an access writes into its register; 0 where it writes none.
///
/// The link of `jal` and `jalr` is `pc` + 4, the address behind the delay slot.
#[tactic(auto, unfolding(crate::specs::Effects::result_of))]
pub fn alu(instr: Instr, a: u32, b: u32, pc: u32) -> u32
    requires proper { IsProper instr }
    ensures value { result ≡ result_of instr a b pc }
{
    match instr {
        Instr::Shift { op, sa, .. } => shifted(op, b, u32::from(sa)),
        Instr::ShiftBy { op, .. } => shifted(op, b, a & 31),
        Instr::Alu { op, .. } => computed(op, a, b),
        Instr::AluImm { op, imm, .. } => computed_with(op, a, imm),
        Instr::Lui { imm, .. } => u32::from(imm) << 16,
        Instr::Jump { link: true, .. } | Instr::JumpLink { .. } => pc.wrapping_add(4),
        _ => 0,
    }
}

fn passes(op: ZeroOp, a: u32) -> bool
    ensures value { result ≡ passes op a }
{
    match op {
        ZeroOp::Bltz => is_less(a, 0),
        ZeroOp::Bgez => !is_less(a, 0),
        ZeroOp::Blez => !is_less(0, a),
        ZeroOp::Bgtz => is_less(0, a),
    }
}

fn branch_target(imm: u16, pc: u32) -> u32
    ensures value { result ≡ branch_target imm pc }
{
    pc.wrapping_add(sign_extended(imm) << 2)
}

fn jump_target(index: u32, pc: u32) -> u32
    requires fits { index < 2 ^ 26 }
    ensures value { result ≡ jump_target index pc }
{
    (pc & 0xf000_0000) | (index << 2)
}

/// The pc after an instruction: its target where it branches or jumps, else `pc` + 4.
///
/// The instruction in the delay slot, at the old `pc`, is executed before the one there.
#[tactic(auto, unfolding(crate::specs::Effects::next_pc_of))]
pub fn next_pc(instr: Instr, a: u32, b: u32, pc: u32) -> u32
    requires proper { IsProper instr }
    ensures value { result ≡ next_pc_of instr a b pc }
{
    match instr {
        Instr::BranchTwo { differ, imm, .. } if (a != b) == differ => branch_target(imm, pc),
        Instr::BranchZero { op, imm, .. } if passes(op, a) => branch_target(imm, pc),
        Instr::Jump { index, .. } => jump_target(index, pc),
        Instr::JumpReg { .. } | Instr::JumpLink { .. } => a,
        _ => pc.wrapping_add(4),
    }
}

fn access_stop(code_bytes: u32, memory_bytes: u32, kind: Kind, addr: u32) -> Option<Stop>
    ensures value { result ≡ access_stop code_bytes memory_bytes kind addr }
    ensures allowed { IfNone result (IsProperAddress code_bytes memory_bytes (Some kind) addr) }
{
    if addr % width(kind) != 0 {
        Some(Stop::Misaligned)
    } else if addr >= memory_bytes {
        Some(Stop::Outside)
    } else if stores(kind) && addr < code_bytes {
        Some(Stop::CodeWrite)
    } else {
        None
    }
}

/// The first stop that holds at the address `dpc`, where `instr` is the instruction there; `None` where none holds.
///
/// The code stands in memory from address 0, so an address below `code_bytes` is in it. The order is that of [`Stop`].
#[tactic(auto, unfolding(crate::specs::Effects::first_stop, crate::specs::Effects::instr_stop, crate::specs::Effects::kind_of, crate::specs::Effects::address_of))]
pub fn stop(
    code_bytes: u32,
    memory_bytes: u32,
    dpc: u32,
    instr: Option<Instr>,
    a: u32,
) -> Option<Stop>
    requires proper { IfSome instr (λ i. IsProper i) }
    requires known { dpc % 4 ≡ 0 → dpc < code_bytes → IsSome instr }
    ensures value { result ≡ first_stop code_bytes memory_bytes dpc instr a }
    ensures allowed { IfNone result (IfSome instr (λ i. IsProperAddress code_bytes memory_bytes (kind_of i) (address_of i a))) }
{
    if dpc % 4 != 0 || dpc >= code_bytes {
        return Some(Stop::OffCode);
    }
    match instr {
        None => None,
        Some(Instr::Halt) => Some(Stop::Halt),
        Some(instr) => match kind(instr) {
            None => None,
            Some(kind) => access_stop(code_bytes, memory_bytes, kind, address(instr, a)),
        },
    }
}

/// The part of the word at an address that an access touches: the whole word.
#[tactic(auto, unfolding(crate::specs::Kinds::part))]
pub fn part(kind: Kind, addr: u32, word: u32) -> u32
    requires aligned { addr % width kind ≡ 0 }
    ensures value { result ≡ part kind addr word }
{
    word
}

/// The word at an address where an access has stored a value in its part.
#[tactic(auto, unfolding(crate::specs::Kinds::with_part))]
pub fn with_part(kind: Kind, addr: u32, word: u32, value: u32) -> u32
    requires aligned { addr % width kind ≡ 0 }
    ensures value { result ≡ with_part kind addr word value }
{
    value
}

/// What a register receives where an access found `old` in its part of memory.
#[tactic(auto, unfolding(crate::specs::Kinds::loaded))]
pub fn loaded(kind: Kind, old: u32) -> u32
    ensures value { result ≡ loaded kind old }
{
    old
}
