//! Words from the assembler `riscv64-unknown-elf-as -march=rv32ima` of GNU binutils 2.40, each with
//! what its disassembler reads in it.
use crate::asserts::{same, same_at};
use rv_word::{
    Alu, AmoOp, Insn, LoadWidth, Reg, StoreWidth, Test, decode, decode_encoded, encode,
    encode_decoded,
};
use std::process::Abort;

fn x(number: u8) -> Reg {
    Reg {
        number: number % 32,
    }
}

/// The word means the instruction, and is the one that is written for it.
fn agree(rt: &impl Abort, word: u32, insn: Insn) {
    let valid = insn.is_valid();
    assert!(rt; valid, "at {word:#010x}");
    same_at(rt, word, (decode(word), encode(insn)), (Some(insn), word));
}

#[test]
fn lui(rt: HostRuntime) {
    for (word, rd, imm) in [
        (0x0000_00b7, 1, 0x00000_000),
        (0xffff_ffb7, 31, 0xfffff_000),
        (0x1234_5537, 10, 0x12345_000),
        (0x8000_02b7, 5, 0x80000_000),
        (0x0000_1037, 0, 0x00001_000),
    ] {
        agree(&rt, word, Insn::Lui { rd: x(rd), imm });
    }
}

#[test]
fn auipc(rt: HostRuntime) {
    for (word, rd, imm) in [
        (0x0000_0097, 1, 0x00000_000),
        (0xffff_ff97, 31, 0xfffff_000),
        (0x7fff_f597, 11, 0x7ffff_000),
        (0x8000_0317, 6, 0x80000_000),
        (0x0000_1117, 2, 0x00001_000),
    ] {
        agree(&rt, word, Insn::Auipc { rd: x(rd), imm });
    }
}

const JAL: &[(u32, u8, i32)] = &[
    (0x0000_00ef, 1, 0),
    (0x0020_00ef, 1, 2),
    (0x0040_00ef, 1, 4),
    (0x0010_00ef, 1, 2048),
    (0x7fe0_00ef, 1, 2046),
    (0x0000_10ef, 1, 4096),
    (0x7fff_f0ef, 1, 1048574),
    (0x8000_00ef, 1, -1048576),
    (0xffff_f0ef, 1, -2),
    (0x801f_f0ef, 1, -2048),
    (0x0008_00ef, 1, 524288),
    (0x5545_50ef, 1, 349524),
    (0xffdf_f06f, 0, -4),
    (0x7fbf_ffef, 31, 1048570),
];

#[test]
fn jal(rt: HostRuntime) {
    for &(word, rd, offset) in JAL {
        agree(&rt, word, Insn::Jal { rd: x(rd), offset });
    }
}

const JALR: &[(u32, u8, u8, i32)] = &[
    (0x0002_80e7, 1, 5, 0),
    (0x0012_80e7, 1, 5, 1),
    (0xfff2_80e7, 1, 5, -1),
    (0x7ff2_80e7, 1, 5, 2047),
    (0x8002_80e7, 1, 5, -2048),
    (0x5552_80e7, 1, 5, 1365),
    (0x0000_8067, 0, 1, 0),
    (0x004f_8fe7, 31, 31, 4),
];

#[test]
fn jalr(rt: HostRuntime) {
    for &(word, rd, rs1, offset) in JALR {
        agree(
            &rt,
            word,
            Insn::Jalr {
                rd: x(rd),
                rs1: x(rs1),
                offset,
            },
        );
    }
}

const BRANCHES: &[(u32, Test, u8, u8, i32)] = &[
    (0x01f0_8463, Test::Eq, 1, 31, 8),
    (0xfc0f_80e3, Test::Eq, 31, 0, -64),
    (0x01e1_1863, Test::Ne, 2, 30, 16),
    (0xf81f_10e3, Test::Ne, 30, 1, -128),
    (0x01d1_cc63, Test::Lt, 3, 29, 24),
    (0xf42e_c0e3, Test::Lt, 29, 2, -192),
    (0x03c2_5063, Test::Ge, 4, 28, 32),
    (0xf03e_50e3, Test::Ge, 28, 3, -256),
    (0x03b2_e463, Test::Ltu, 5, 27, 40),
    (0xec4d_e0e3, Test::Ltu, 27, 4, -320),
    (0x03a3_7863, Test::Geu, 6, 26, 48),
    (0xe85d_70e3, Test::Geu, 26, 5, -384),
    (0x7eb5_0fe3, Test::Eq, 10, 11, 4094),
    (0x80b5_0063, Test::Eq, 10, 11, -4096),
    (0x00b5_00e3, Test::Eq, 10, 11, 2048),
    (0x80b5_00e3, Test::Eq, 10, 11, -2048),
    (0x7eb5_0f63, Test::Eq, 10, 11, 2046),
    (0x00b5_0f63, Test::Eq, 10, 11, 30),
    (0x02b5_0063, Test::Eq, 10, 11, 32),
    (0xfeb5_0fe3, Test::Eq, 10, 11, -2),
    (0x54b5_0a63, Test::Eq, 10, 11, 1364),
    (0x00b5_0063, Test::Eq, 10, 11, 0),
];

#[test]
fn branches(rt: HostRuntime) {
    for &(word, test, rs1, rs2, offset) in BRANCHES {
        agree(
            &rt,
            word,
            Insn::Branch {
                test,
                rs1: x(rs1),
                rs2: x(rs2),
                offset,
            },
        );
    }
}

const LOADS: &[(u32, LoadWidth, u8, u8, i32)] = &[
    (0x000a_0283, LoadWidth::Byte, 5, 20, 0),
    (0xfff1_0f83, LoadWidth::Byte, 31, 2, -1),
    (0x003a_9303, LoadWidth::Half, 6, 21, 3),
    (0xffe1_1f03, LoadWidth::Half, 30, 2, -2),
    (0x006b_2383, LoadWidth::Word, 7, 22, 6),
    (0xffd1_2e83, LoadWidth::Word, 29, 2, -3),
    (0x009b_c403, LoadWidth::ByteU, 8, 23, 9),
    (0xffc1_4e03, LoadWidth::ByteU, 28, 2, -4),
    (0x00cc_5483, LoadWidth::HalfU, 9, 24, 12),
    (0xffb1_5d83, LoadWidth::HalfU, 27, 2, -5),
    (0x7ff1_2783, LoadWidth::Word, 15, 2, 2047),
    (0x8001_2783, LoadWidth::Word, 15, 2, -2048),
    (0x5551_2783, LoadWidth::Word, 15, 2, 1365),
    (0xaaa1_2783, LoadWidth::Word, 15, 2, -1366),
];

#[test]
fn loads(rt: HostRuntime) {
    for &(word, width, rd, rs1, offset) in LOADS {
        agree(
            &rt,
            word,
            Insn::Load {
                width,
                rd: x(rd),
                rs1: x(rs1),
                offset,
            },
        );
    }
}

const STORES: &[(u32, StoreWidth, u8, u8, i32)] = &[
    (0x005a_0023, StoreWidth::Byte, 20, 5, 0),
    (0xfff1_0fa3, StoreWidth::Byte, 2, 31, -1),
    (0x006a_91a3, StoreWidth::Half, 21, 6, 3),
    (0xffe1_1f23, StoreWidth::Half, 2, 30, -2),
    (0x007b_2323, StoreWidth::Word, 22, 7, 6),
    (0xffd1_2ea3, StoreWidth::Word, 2, 29, -3),
    (0x7ef1_2fa3, StoreWidth::Word, 2, 15, 2047),
    (0x80f1_2023, StoreWidth::Word, 2, 15, -2048),
    (0x00f1_2fa3, StoreWidth::Word, 2, 15, 31),
    (0x02f1_2023, StoreWidth::Word, 2, 15, 32),
    (0xfef1_2023, StoreWidth::Word, 2, 15, -32),
    (0xfef1_2fa3, StoreWidth::Word, 2, 15, -1),
    (0x54f1_2aa3, StoreWidth::Word, 2, 15, 1365),
];

#[test]
fn stores(rt: HostRuntime) {
    for &(word, width, rs1, rs2, offset) in STORES {
        agree(
            &rt,
            word,
            Insn::Store {
                width,
                rs1: x(rs1),
                rs2: x(rs2),
                offset,
            },
        );
    }
}

const OPERATIONS_WITH_AN_IMMEDIATE: &[(u32, Alu, u8, u8, i32)] = &[
    (0x000a_0293, Alu::Add, 5, 20, 0),
    (0xfff0_0f93, Alu::Add, 31, 0, -1),
    (0x007a_a313, Alu::Slt, 6, 21, 7),
    (0xffe0_af13, Alu::Slt, 30, 1, -2),
    (0x00eb_3393, Alu::Sltu, 7, 22, 14),
    (0xffd1_3e93, Alu::Sltu, 29, 2, -3),
    (0x015b_c413, Alu::Xor, 8, 23, 21),
    (0xffc1_ce13, Alu::Xor, 28, 3, -4),
    (0x01cc_6493, Alu::Or, 9, 24, 28),
    (0xffb2_6d93, Alu::Or, 27, 4, -5),
    (0x023c_f513, Alu::And, 10, 25, 35),
    (0xffa2_fd13, Alu::And, 26, 5, -6),
    (0x7ff1_0793, Alu::Add, 15, 2, 2047),
    (0x8001_0793, Alu::Add, 15, 2, -2048),
    (0x5551_0793, Alu::Add, 15, 2, 1365),
    (0x0000_0013, Alu::Add, 0, 0, 0),
    (0x000e_1393, Alu::Sll, 7, 28, 0),
    (0x001e_1393, Alu::Sll, 7, 28, 1),
    (0x01fe_1393, Alu::Sll, 7, 28, 31),
    (0x010e_1393, Alu::Sll, 7, 28, 16),
    (0x000e_5393, Alu::Srl, 7, 28, 0),
    (0x001e_5393, Alu::Srl, 7, 28, 1),
    (0x01fe_5393, Alu::Srl, 7, 28, 31),
    (0x010e_5393, Alu::Srl, 7, 28, 16),
    (0x400e_5393, Alu::Sra, 7, 28, 0),
    (0x401e_5393, Alu::Sra, 7, 28, 1),
    (0x41fe_5393, Alu::Sra, 7, 28, 31),
    (0x410e_5393, Alu::Sra, 7, 28, 16),
];

#[test]
fn operations_with_an_immediate(rt: HostRuntime) {
    for &(word, op, rd, rs1, imm) in OPERATIONS_WITH_AN_IMMEDIATE {
        agree(
            &rt,
            word,
            Insn::OpImm {
                op,
                rd: x(rd),
                rs1: x(rs1),
                imm,
            },
        );
    }
}

const OPERATIONS_BETWEEN_REGISTERS: &[(u32, Alu, u8, u8, u8)] = &[
    (0x01ea_02b3, Alu::Add, 5, 20, 30),
    (0x0000_0fb3, Alu::Add, 31, 0, 0),
    (0x41da_8333, Alu::Sub, 6, 21, 29),
    (0x4020_8f33, Alu::Sub, 30, 1, 2),
    (0x01cb_13b3, Alu::Sll, 7, 22, 28),
    (0x0041_1eb3, Alu::Sll, 29, 2, 4),
    (0x01bb_a433, Alu::Slt, 8, 23, 27),
    (0x0061_ae33, Alu::Slt, 28, 3, 6),
    (0x01ac_34b3, Alu::Sltu, 9, 24, 26),
    (0x0082_3db3, Alu::Sltu, 27, 4, 8),
    (0x019c_c533, Alu::Xor, 10, 25, 25),
    (0x00a2_cd33, Alu::Xor, 26, 5, 10),
    (0x018d_55b3, Alu::Srl, 11, 26, 24),
    (0x00c3_5cb3, Alu::Srl, 25, 6, 12),
    (0x417d_d633, Alu::Sra, 12, 27, 23),
    (0x40e3_dc33, Alu::Sra, 24, 7, 14),
    (0x016e_66b3, Alu::Or, 13, 28, 22),
    (0x0104_6bb3, Alu::Or, 23, 8, 16),
    (0x015e_f733, Alu::And, 14, 29, 21),
    (0x0124_fb33, Alu::And, 22, 9, 18),
    (0x03ea_02b3, Alu::Mul, 5, 20, 30),
    (0x0200_0fb3, Alu::Mul, 31, 0, 0),
    (0x03da_9333, Alu::Mulh, 6, 21, 29),
    (0x0220_9f33, Alu::Mulh, 30, 1, 2),
    (0x03cb_23b3, Alu::Mulhsu, 7, 22, 28),
    (0x0241_2eb3, Alu::Mulhsu, 29, 2, 4),
    (0x03bb_b433, Alu::Mulhu, 8, 23, 27),
    (0x0261_be33, Alu::Mulhu, 28, 3, 6),
    (0x03ac_44b3, Alu::Div, 9, 24, 26),
    (0x0282_4db3, Alu::Div, 27, 4, 8),
    (0x039c_d533, Alu::Divu, 10, 25, 25),
    (0x02a2_dd33, Alu::Divu, 26, 5, 10),
    (0x038d_65b3, Alu::Rem, 11, 26, 24),
    (0x02c3_6cb3, Alu::Rem, 25, 6, 12),
    (0x037d_f633, Alu::Remu, 12, 27, 23),
    (0x02e3_fc33, Alu::Remu, 24, 7, 14),
    (0x02c5_8533, Alu::Mul, 10, 11, 12),
];

#[test]
fn operations_between_registers(rt: HostRuntime) {
    for &(word, op, rd, rs1, rs2) in OPERATIONS_BETWEEN_REGISTERS {
        agree(
            &rt,
            word,
            Insn::Op {
                op,
                rd: x(rd),
                rs1: x(rs1),
                rs2: x(rs2),
            },
        );
    }
}

const LOAD_RESERVED: &[(u32, u8, u8, bool, bool)] = &[
    (0x1005_22af, 5, 10, false, false),
    (0x1405_22af, 5, 10, true, false),
    (0x1205_22af, 5, 10, false, true),
    (0x1605_22af, 5, 10, true, true),
    (0x1000_2faf, 31, 0, false, false),
];

#[test]
fn load_reserved(rt: HostRuntime) {
    for &(word, rd, rs1, aq, rl) in LOAD_RESERVED {
        agree(
            &rt,
            word,
            Insn::Lr {
                rd: x(rd),
                rs1: x(rs1),
                aq,
                rl,
            },
        );
    }
}

const STORE_CONDITIONAL: &[(u32, u8, u8, u8, bool, bool)] = &[
    (0x1875_a32f, 6, 11, 7, false, false),
    (0x1c75_a32f, 6, 11, 7, true, false),
    (0x1a75_a32f, 6, 11, 7, false, true),
    (0x1e75_a32f, 6, 11, 7, true, true),
    (0x19f0_a02f, 0, 1, 31, false, false),
];

#[test]
fn store_conditional(rt: HostRuntime) {
    for &(word, rd, rs1, rs2, aq, rl) in STORE_CONDITIONAL {
        agree(
            &rt,
            word,
            Insn::Sc {
                rd: x(rd),
                rs1: x(rs1),
                rs2: x(rs2),
                aq,
                rl,
            },
        );
    }
}

const ATOMIC_OPERATIONS: &[(u32, AmoOp, u8, u8, u8, bool, bool)] = &[
    (0x094f_22af, AmoOp::Swap, 5, 30, 20, false, false),
    (0x0c00_afaf, AmoOp::Swap, 31, 1, 0, true, false),
    (0x015e_a32f, AmoOp::Add, 6, 29, 21, false, false),
    (0x0211_af2f, AmoOp::Add, 30, 3, 1, false, true),
    (0x216e_23af, AmoOp::Xor, 7, 28, 22, false, false),
    (0x2622_aeaf, AmoOp::Xor, 29, 5, 2, true, true),
    (0x617d_a42f, AmoOp::And, 8, 27, 23, false, false),
    (0x6433_ae2f, AmoOp::And, 28, 7, 3, true, false),
    (0x418d_24af, AmoOp::Or, 9, 26, 24, false, false),
    (0x4244_adaf, AmoOp::Or, 27, 9, 4, false, true),
    (0x819c_a52f, AmoOp::Min, 10, 25, 25, false, false),
    (0x8655_ad2f, AmoOp::Min, 26, 11, 5, true, true),
    (0xa1ac_25af, AmoOp::Max, 11, 24, 26, false, false),
    (0xa466_acaf, AmoOp::Max, 25, 13, 6, true, false),
    (0xc1bb_a62f, AmoOp::Minu, 12, 23, 27, false, false),
    (0xc277_ac2f, AmoOp::Minu, 24, 15, 7, false, true),
    (0xe1cb_26af, AmoOp::Maxu, 13, 22, 28, false, false),
    (0xe688_abaf, AmoOp::Maxu, 23, 17, 8, true, true),
    (0x00a5_a5af, AmoOp::Add, 11, 11, 10, false, false),
];

#[test]
fn atomic_operations(rt: HostRuntime) {
    for &(word, op, rd, rs1, rs2, aq, rl) in ATOMIC_OPERATIONS {
        agree(
            &rt,
            word,
            Insn::Amo {
                op,
                rd: x(rd),
                rs1: x(rs1),
                rs2: x(rs2),
                aq,
                rl,
            },
        );
    }
}

#[test]
fn environment_calls(rt: HostRuntime) {
    agree(&rt, 0x0000_0073, Insn::Ecall);
    agree(&rt, 0x0010_0073, Insn::Ebreak);
}

/// One fence is written; all of them are read, with reserved fields too.
#[test]
fn fences(rt: HostRuntime) {
    agree(&rt, 0x0ff0_000f, Insn::Fence);
    for word in [
        0x8330_000f,
        0x0210_000f,
        0x0330_000f,
        0x0100_000f,
        0xffff_8f8f,
    ] {
        same_at(
            &rt,
            word,
            (decode(word), encode_decoded(word)),
            (Some(Insn::Fence), Some(0x0ff0_000f)),
        );
    }
}

/// Instructions of other extensions and of the privileged manual, and rows with a wrong field.
const NO_INSTRUCTION: &[(u32, &str)] = &[
    (0x0000_100f, "fence.i"),
    (0x3001_10f3, "csrrw x1,mstatus,x2"),
    (0xc000_22f3, "csrrs x5,cycle,x0"),
    (0x3041_f073, "csrrci x0,mie,3"),
    (0x1050_0073, "wfi"),
    (0x3020_0073, "mret"),
    (0x1020_0073, "sret"),
    (0x1220_8073, "sfence.vma x1,x2"),
    (0x0041_2087, "flw f1,4(x2)"),
    (0x0011_2227, "fsw f1,4(x2)"),
    (0x0031_70d3, "fadd.s f1,f2,f3"),
    (0x2031_70c3, "fmadd.s f1,f2,f3,f4"),
    (0xc001_70d3, "fcvt.w.s x1,f2"),
    (0x0081_3087, "fld f1,8(x2)"),
    (0x0043_6283, "lwu x5,4(x6)"),
    (0x0083_3283, "ld x5,8(x6)"),
    (0x0053_3423, "sd x5,8(x6)"),
    (0x0013_029b, "addiw x5,x6,1"),
    (0x0013_129b, "slliw x5,x6,0x1"),
    (0x0073_02bb, "addw x5,x6,x7"),
    (0x4073_02bb, "subw x5,x6,x7"),
    (0x0273_02bb, "mulw x5,x6,x7"),
    (0x0273_72bb, "remuw x5,x6,x7"),
    (0x0203_1293, "slli x5,x6,0x20"),
    (0x4213_5293, "srai x5,x6,0x21"),
    (0x0063_b2af, "amoadd.d x5,x6,(x7)"),
    (0x1003_b2af, "lr.d x5,(x7)"),
    (0x1863_b2af, "sc.d x5,x6,(x7)"),
    (0x0020_0073, "uret"),
    (0x0001_0001, "c.nop twice"),
    (0x9002_4080, "c.lw, c.ebreak"),
    (0x0000_0000, "all zeros"),
    (0xffff_ffff, "all ones"),
    (0x1015_22af, "lr.w with rs2 1"),
    (0x11f5_22af, "lr.w with rs2 31"),
    (0x401e_1393, "slli with the funct7 of srai"),
    (0x021e_1393, "slli by 33"),
    (0x021e_5393, "srli by 33"),
    (0xc01e_5393, "srai with bit 31"),
    (0x401b_13b3, "sll with the funct7 of sub"),
    (0x41ac_14b3, "sll with the funct7 of sra"),
    (0x04c5_8533, "add or mul with funct7 0000010"),
    (0x42c5_c533, "div with the bit of sub"),
    (0x0002_90e7, "jalr with funct3 001"),
    (0x00b5_2063, "branch with funct3 010"),
    (0x00b5_3063, "branch with funct3 011"),
    (0x005a_3023, "store with funct3 011"),
    (0x005a_7023, "store with funct3 111"),
    (0x0001_7783, "load with funct3 111"),
    (0x0000_00f3, "ecall with rd 1"),
    (0x0000_8073, "ecall with rs1 1"),
    (0x0030_0073, "ecall with imm 3"),
    (0x0000_700f, "fence with funct3 111"),
    (0x2875_a32f, "funct5 00101"),
];

#[test]
fn no_instruction(rt: HostRuntime) {
    for &(word, what) in NO_INSTRUCTION {
        same_at(
            &rt,
            what,
            (decode(word), encode_decoded(word)),
            (None, None),
        );
    }
}

/// The number of a register, if it is one.
fn number_of(reg: Option<Reg>) -> Option<u8> {
    Some(reg?.number())
}

#[test]
fn registers(rt: HostRuntime) {
    for (number, found) in [(0, true), (1, true), (31, true), (32, false), (255, false)] {
        let wanted = if found { Some(number) } else { None };
        same_at(&rt, number, number_of(Reg::new(number)), wanted);
    }
}

#[test]
fn round_trip(rt: HostRuntime) {
    let insn = Insn::Amo {
        op: AmoOp::Maxu,
        rd: x(1),
        rs1: x(2),
        rs2: x(3),
        aq: true,
        rl: false,
    };
    assert!(rt; insn.is_valid());
    same(
        &rt,
        (decode_encoded(insn), encode_decoded(0x00a5_a5af)),
        (Some(insn), Some(0x00a5_a5af)),
    );
}

/// Immediates just inside and just outside their forms.
/// Whether the instruction is valid is as said.
fn judge(rt: &impl Abort, insn: Insn, valid: bool) {
    same_at(rt, insn, insn.is_valid(), valid);
}

#[test]
fn upper_immediates_are_valid_where_their_low_bits_are_0(rt: HostRuntime) {
    let rd = x(1);
    for (imm, valid) in [(0, true), (0xffff_f000, true), (1, false), (0x1800, false)] {
        judge(&rt, Insn::Lui { rd, imm }, valid);
        judge(&rt, Insn::Auipc { rd, imm }, valid);
    }
}

#[test]
fn jumps_are_valid_where_they_reach(rt: HostRuntime) {
    let rd = x(1);
    for (offset, valid) in [
        (-1048576, true),
        (1048574, true),
        (1048576, false),
        (-1048578, false),
        (1, false),
        (-3, false),
    ] {
        judge(&rt, Insn::Jal { rd, offset }, valid);
    }
}

#[test]
fn branches_are_valid_where_they_reach(rt: HostRuntime) {
    let (rs1, rs2) = (x(2), x(3));
    for (offset, valid) in [
        (-4096, true),
        (4094, true),
        (4096, false),
        (-4098, false),
        (1, false),
        (-3, false),
    ] {
        let test = Test::Geu;
        let branch = Insn::Branch {
            test,
            rs1,
            rs2,
            offset,
        };
        judge(&rt, branch, valid);
    }
}

/// A load, a store, a jump to a register and an operation with this number.
fn with_number(offset: i32) -> [Insn; 4] {
    let (rd, rs1, rs2) = (x(1), x(2), x(3));
    [
        Insn::Jalr { rd, rs1, offset },
        Insn::Load {
            width: LoadWidth::HalfU,
            rd,
            rs1,
            offset,
        },
        Insn::Store {
            width: StoreWidth::Half,
            rs1,
            rs2,
            offset,
        },
        Insn::OpImm {
            op: Alu::Or,
            rd,
            rs1,
            imm: offset,
        },
    ]
}

#[test]
fn numbers_of_twelve_bits_are_valid(rt: HostRuntime) {
    for (offset, valid) in [(-2048, true), (2047, true), (2048, false), (-2049, false)] {
        for insn in with_number(offset) {
            judge(&rt, insn, valid);
        }
    }
}

#[test]
fn shifts_are_valid_below_32(rt: HostRuntime) {
    let (rd, rs1) = (x(1), x(2));
    for (op, imm, valid) in [
        (Alu::Sll, 31, true),
        (Alu::Srl, 0, true),
        (Alu::Sra, 31, true),
        (Alu::Sll, 32, false),
        (Alu::Srl, -1, false),
        (Alu::Sra, 32, false),
        (Alu::Sub, 0, false),
        (Alu::Mul, 0, false),
        (Alu::Remu, 1, false),
    ] {
        judge(&rt, Insn::OpImm { op, rd, rs1, imm }, valid);
    }
}
