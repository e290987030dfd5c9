//! Instructions and their words, as MIPS32 Release 1 encodes them.
ghost use Rattle.std.specs.Prelude.{◌≡◌, ◌<◌, IfSome};
ghost use Rattle.mips_isa.specs.declared.Instr.{Instr};
ghost use Rattle.mips_isa.specs.Words.{IsProper, Spells, register_form, immediate_form, shift_function, alu_function, immediate_opcode, zero_opcode, zero_field};
ghost use Rattle.mips_isa.specs.Fields.{five_bits, where_zero, special_of, cas_of, immediate_of, instr_of};

use crate::{AluOp, ImmOp, Instr, ShiftOp, ZeroOp};

fn five_bits(word: u32, place: u32) -> u8
    requires in_word { place < 32 }
    ensures value { result ≡ five_bits place word }
{
    ((word >> place) & 31) as u8
}

fn shift(op: ShiftOp, rs: u8, rt: u8, rd: u8, sa: u8) -> Option<Instr>
    ensures value { result ≡ where_zero rs (Instr.Shift op rd rt sa) }
{
    if rs == 0 {
        Some(Instr::Shift { op, rd, rt, sa })
    } else {
        None
    }
}

fn shift_by(op: ShiftOp, rs: u8, rt: u8, rd: u8, sa: u8) -> Option<Instr>
    ensures value { result ≡ where_zero sa (Instr.ShiftBy op rd rt rs) }
{
    if sa == 0 {
        Some(Instr::ShiftBy { op, rd, rt, rs })
    } else {
        None
    }
}

fn alu(op: AluOp, rs: u8, rt: u8, rd: u8, sa: u8) -> Option<Instr>
    ensures value { result ≡ where_zero sa (Instr.Alu op rd rs rt) }
{
    if sa == 0 {
        Some(Instr::Alu { op, rd, rs, rt })
    } else {
        None
    }
}

/// An instruction with opcode 0, which MIPS32 calls SPECIAL.
#[tactic(auto, unfolding(crate::specs::Fields::special_of))]
fn special(rs: u8, rt: u8, rd: u8, sa: u8, function: u8) -> Option<Instr>
    requires rs_fits { rs < 32 }
    requires rt_fits { rt < 32 }
    requires rd_fits { rd < 32 }
    requires sa_fits { sa < 32 }
    ensures found { IfSome result (λ instr. Spells instr (register_form 0 rs rt rd sa function)) }
    ensures exact { result ≡ special_of rs rt rd sa function }
{
    match function {
        0 => shift(ShiftOp::Sll, rs, rt, rd, sa),
        2 => shift(ShiftOp::Srl, rs, rt, rd, sa),
        3 => shift(ShiftOp::Sra, rs, rt, rd, sa),
        4 => shift_by(ShiftOp::Sll, rs, rt, rd, sa),
        6 => shift_by(ShiftOp::Srl, rs, rt, rd, sa),
        7 => shift_by(ShiftOp::Sra, rs, rt, rd, sa),
        8 if rt == 0 && rd == 0 && sa == 0 => Some(Instr::JumpReg { rs }),
        9 if rt == 0 && sa == 0 => Some(Instr::JumpLink { rd, rs }),
        13 if rs == 0 && rt == 0 && rd == 0 && sa == 0 => Some(Instr::Halt),
        32 => alu(AluOp::Add, rs, rt, rd, sa),
        33 => alu(AluOp::Addu, rs, rt, rd, sa),
        34 => alu(AluOp::Sub, rs, rt, rd, sa),
        35 => alu(AluOp::Subu, rs, rt, rd, sa),
        36 => alu(AluOp::And, rs, rt, rd, sa),
        37 => alu(AluOp::Or, rs, rt, rd, sa),
        38 => alu(AluOp::Xor, rs, rt, rd, sa),
        39 => alu(AluOp::Nor, rs, rt, rd, sa),
        42 => alu(AluOp::Slt, rs, rt, rd, sa),
        43 => alu(AluOp::Sltu, rs, rt, rd, sa),
        _ => None,
    }
}

/// An instruction with opcode 63, which MIPS32 leaves free.
fn swap(rs: u8, rt: u8, rd: u8, sa: u8, function: u8) -> Option<Instr>
    requires rs_fits { rs < 32 }
    requires rt_fits { rt < 32 }
    requires rd_fits { rd < 32 }
    ensures found { IfSome result (λ instr. Spells instr (register_form 63 rs rt rd sa function)) }
    ensures exact { result ≡ cas_of rs rt rd sa function }
{
    if function == 63 && sa == 0 {
        Some(Instr::Cas { rd, rs, rt })
    } else {
        None
    }
}

fn branch_two(differ: bool, rs: u8, rt: u8, imm: u16) -> Option<Instr>
    ensures value { result ≡ Some (Instr.BranchTwo differ rs rt imm) }
{
    Some(Instr::BranchTwo {
        differ,
        rs,
        rt,
        imm,
    })
}

fn branch_zero(op: ZeroOp, rs: u8, imm: u16) -> Option<Instr>
    ensures value { result ≡ Some (Instr.BranchZero op rs imm) }
{
    Some(Instr::BranchZero { op, rs, imm })
}

fn alu_imm(op: ImmOp, rs: u8, rt: u8, imm: u16) -> Option<Instr>
    ensures value { result ≡ Some (Instr.AluImm op rt rs imm) }
{
    Some(Instr::AluImm { op, rt, rs, imm })
}

/// An instruction with an immediate.
#[tactic(auto, unfolding(crate::specs::Fields::immediate_of))]
fn with_immediate(opcode: u8, rs: u8, rt: u8, imm: u16) -> Option<Instr>
    requires rs_fits { rs < 32 }
    requires rt_fits { rt < 32 }
    ensures found { IfSome result (λ instr. Spells instr (immediate_form opcode rs rt imm)) }
    ensures exact { result ≡ immediate_of opcode rs rt imm }
{
    match opcode {
        1 if rt == 0 => branch_zero(ZeroOp::Bltz, rs, imm),
        1 if rt == 1 => branch_zero(ZeroOp::Bgez, rs, imm),
        4 => branch_two(false, rs, rt, imm),
        5 => branch_two(true, rs, rt, imm),
        6 if rt == 0 => branch_zero(ZeroOp::Blez, rs, imm),
        7 if rt == 0 => branch_zero(ZeroOp::Bgtz, rs, imm),
        8 => alu_imm(ImmOp::Addi, rs, rt, imm),
        9 => alu_imm(ImmOp::Addiu, rs, rt, imm),
        10 => alu_imm(ImmOp::Slti, rs, rt, imm),
        11 => alu_imm(ImmOp::Sltiu, rs, rt, imm),
        12 => alu_imm(ImmOp::Andi, rs, rt, imm),
        13 => alu_imm(ImmOp::Ori, rs, rt, imm),
        14 => alu_imm(ImmOp::Xori, rs, rt, imm),
        15 if rs == 0 => Some(Instr::Lui { rt, imm }),
        35 => Some(Instr::Lw { rt, rs, imm }),
        43 => Some(Instr::Sw { rt, rs, imm }),
        _ => None,
    }
}

/// The proper instruction that a word spells; `None` where it spells none.
///
/// The rows are those of MIPS32 Release 1 for the instructions of [`Instr`], with `halt` as the word 0x0000000d alone and
/// `cas` under opcode 63 and function 63. A word with another value than 0 in a field that its instruction does not use
/// spells nothing.
#[tactic(auto, unfolding(crate::specs::Fields::instr_of))]
pub fn decode(word: u32) -> Option<Instr>
    ensures found { IfSome result (λ instr. Spells instr word) }
    ensures only { (instr : Instr) → Spells instr word → result ≡ Some instr }
    ensures exact { result ≡ instr_of word }
{
    let rs = five_bits(word, 21);
    let rt = five_bits(word, 16);
    let rd = five_bits(word, 11);
    let sa = five_bits(word, 6);
    let function = (word & 0x3f) as u8;
    match word >> 26 {
        0 => special(rs, rt, rd, sa, function),
        2 => Some(Instr::Jump {
            link: false,
            index: word & 0x3ff_ffff,
        }),
        3 => Some(Instr::Jump {
            link: true,
            index: word & 0x3ff_ffff,
        }),
        63 => swap(rs, rt, rd, sa, function),
        opcode => with_immediate(opcode as u8, rs, rt, (word & 0xffff) as u16),
    }
}

fn register_word(opcode: u32, rs: u8, rt: u8, rd: u8, sa: u8, function: u32) -> u32
    requires opcode_fits { opcode < 64 }
    requires rs_fits { rs < 32 }
    requires rt_fits { rt < 32 }
    requires rd_fits { rd < 32 }
    requires sa_fits { sa < 32 }
    requires function_fits { function < 64 }
    ensures value { result ≡ register_form opcode rs rt rd sa function }
{
    (opcode << 26)
        | (u32::from(rs) << 21)
        | (u32::from(rt) << 16)
        | (u32::from(rd) << 11)
        | (u32::from(sa) << 6)
        | function
}

fn immediate_word(opcode: u32, rs: u8, rt: u8, imm: u16) -> u32
    requires opcode_fits { opcode < 64 }
    requires rs_fits { rs < 32 }
    requires rt_fits { rt < 32 }
    ensures value { result ≡ immediate_form opcode rs rt imm }
{
    (opcode << 26) | (u32::from(rs) << 21) | (u32::from(rt) << 16) | u32::from(imm)
}

/// The word that spells an instruction, as MIPS32 Release 1 encodes it. [`decode`] gives the instruction back.
pub fn encode(instr: Instr) -> u32
    requires proper { IsProper instr }
    ensures spelled { Spells instr result }
{
    match instr {
        Instr::Shift { op, rd, rt, sa } => register_word(0, 0, rt, rd, sa, shift_function(op)),
        Instr::ShiftBy { op, rd, rt, rs } => register_word(
            0,
            rs,
            rt,
            rd,
            0,
            shift_function(op) + 4,
        ),
        Instr::Alu { op, rd, rs, rt } => register_word(0, rs, rt, rd, 0, alu_function(op)),
        Instr::AluImm { op, rt, rs, imm } => immediate_word(immediate_opcode(op), rs, rt, imm),
        Instr::Lui { rt, imm } => immediate_word(15, 0, rt, imm),
        Instr::BranchTwo {
            differ,
            rs,
            rt,
            imm,
        } => { immediate_word(if differ { 5 } else { 4 }, rs, rt, imm) }
        Instr::BranchZero { op, rs, imm } => {
            immediate_word(zero_opcode(op), rs, zero_field(op), imm)
        }
        Instr::Jump { link, index } => (if link { 3 << 26 } else { 2 << 26 }) | index,
        Instr::JumpReg { rs } => register_word(0, rs, 0, 0, 0, 8),
        Instr::JumpLink { rd, rs } => register_word(0, rs, 0, rd, 0, 9),
        Instr::Lw { rt, rs, imm } => immediate_word(35, rs, rt, imm),
        Instr::Sw { rt, rs, imm } => immediate_word(43, rs, rt, imm),
        Instr::Cas { rd, rs, rt } => register_word(63, rs, rt, rd, 0, 63),
        Instr::Halt => 13,
    }
}

fn shift_function(op: ShiftOp) -> u32
    ensures value { result ≡ shift_function op }
    ensures bound { result < 4 }
{
    match op {
        ShiftOp::Sll => 0,
        ShiftOp::Srl => 2,
        ShiftOp::Sra => 3,
    }
}

fn alu_function(op: AluOp) -> u32
    ensures value { result ≡ alu_function op }
    ensures bound { result < 64 }
{
    match op {
        AluOp::Add => 32,
        AluOp::Addu => 33,
        AluOp::Sub => 34,
        AluOp::Subu => 35,
        AluOp::And => 36,
        AluOp::Or => 37,
        AluOp::Xor => 38,
        AluOp::Nor => 39,
        AluOp::Slt => 42,
        AluOp::Sltu => 43,
    }
}

fn immediate_opcode(op: ImmOp) -> u32
    ensures value { result ≡ immediate_opcode op }
    ensures bound { result < 64 }
{
    match op {
        ImmOp::Addi => 8,
        ImmOp::Addiu => 9,
        ImmOp::Slti => 10,
        ImmOp::Sltiu => 11,
        ImmOp::Andi => 12,
        ImmOp::Ori => 13,
        ImmOp::Xori => 14,
    }
}

fn zero_opcode(op: ZeroOp) -> u32
    ensures value { result ≡ zero_opcode op }
    ensures bound { result < 64 }
{
    match op {
        ZeroOp::Bltz | ZeroOp::Bgez => 1,
        ZeroOp::Blez => 6,
        ZeroOp::Bgtz => 7,
    }
}

fn zero_field(op: ZeroOp) -> u8
    ensures value { result ≡ zero_field op }
    ensures bound { result < 32 }
{
    match op {
        ZeroOp::Bgez => 1,
        _ => 0,
    }
}
