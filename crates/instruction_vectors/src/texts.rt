//! Words at addresses, each with what GNU objdump 2.40 writes (`-b binary -m riscv:rv32 -D`), a space in place of its tab
//! and without its comments.
use crate::asserts::same;
use rv_text::Text;
use std::alloc::Global;
use std::process::Abort;
use std::test::Fail;

/// An address, the word there and its text.
type Row = (u32, u32, &'static str);

fn agree(rt: &impl Abort, alloc: Global, rows: &[Row]) -> Result<(), Fail> {
    for (address, word, text) in rows {
        let written = Text {
            word: *word,
            address: *address,
        }
        .to_string(alloc)?;
        same(rt, written.as_str(), *text);
    }
    Ok(())
}

const JUMPS: [Row; 40] = [
    (0x1_0010, 0x0000_006f, "j 0x10010"),
    (0x1_0014, 0x0080_006f, "j 0x1001c"),
    (0x1_0018, 0xffdf_f06f, "j 0x10014"),
    (0x1_001c, 0x0000_00ef, "jal 0x1001c"),
    (0x1_0020, 0x0080_00ef, "jal 0x10028"),
    (0x1_0024, 0xffdf_f0ef, "jal 0x10020"),
    (0x1_0028, 0x0000_02ef, "jal t0,0x10028"),
    (0x1_0034, 0x0000_0067, "jr zero"),
    (0x1_0038, 0x0040_0067, "jr 4(zero)"),
    (0x1_003c, 0xffc0_0067, "jr -4(zero)"),
    (0x1_0040, 0x0000_8067, "ret"),
    (0x1_0044, 0x0040_8067, "jr 4(ra)"),
    (0x1_0058, 0x0000_00e7, "jalr zero"),
    (0x1_005c, 0x0040_00e7, "jalr 4(zero)"),
    (0x1_0060, 0xffc0_00e7, "jalr -4(zero)"),
    (0x1_0064, 0x0000_80e7, "jalr ra"),
    (0x1_00a0, 0x0000_0863, "beqz zero,0x100b0"),
    (0x1_00a4, 0x00a0_0863, "beq zero,a0,0x100b4"),
    (0x1_00a8, 0x0005_0863, "beqz a0,0x100b8"),
    (0x1_00ac, 0x00b5_0863, "beq a0,a1,0x100bc"),
    (0x1_00b0, 0x0000_1863, "bnez zero,0x100c0"),
    (0x1_00b4, 0x00a0_1863, "bne zero,a0,0x100c4"),
    (0x1_00b8, 0x0005_1863, "bnez a0,0x100c8"),
    (0x1_00bc, 0x00b5_1863, "bne a0,a1,0x100cc"),
    (0x1_00c0, 0x0000_4863, "bltz zero,0x100d0"),
    (0x1_00c4, 0x00a0_4863, "bgtz a0,0x100d4"),
    (0x1_00c8, 0x0005_4863, "bltz a0,0x100d8"),
    (0x1_00cc, 0x00b5_4863, "blt a0,a1,0x100dc"),
    (0x1_00d0, 0x0000_5863, "blez zero,0x100e0"),
    (0x1_00d4, 0x00a0_5863, "blez a0,0x100e4"),
    (0x1_00d8, 0x0005_5863, "bgez a0,0x100e8"),
    (0x1_00dc, 0x00b5_5863, "bge a0,a1,0x100ec"),
    (0x1_00e0, 0x0000_6863, "bltu zero,zero,0x100f0"),
    (0x1_00e4, 0x00a0_6863, "bltu zero,a0,0x100f4"),
    (0x1_00e8, 0x0005_6863, "bltu a0,zero,0x100f8"),
    (0x1_00ec, 0x00b5_6863, "bltu a0,a1,0x100fc"),
    (0x1_00f0, 0x0000_7863, "bgeu zero,zero,0x10100"),
    (0x1_00f4, 0x00a0_7863, "bgeu zero,a0,0x10104"),
    (0x1_00f8, 0x0005_7863, "bgeu a0,zero,0x10108"),
    (0x1_00fc, 0x00b5_7863, "bgeu a0,a1,0x1010c"),
];

const ACCESSES: [Row; 20] = [
    (0x1_0000, 0x1234_5537, "lui a0,0x12345"),
    (0x1_0004, 0x0000_0037, "lui zero,0x0"),
    (0x1_0008, 0x0000_0597, "auipc a1,0x0"),
    (0x1_000c, 0xffff_f097, "auipc ra,0xfffff"),
    (0x1_0100, 0xff81_0503, "lb a0,-8(sp)"),
    (0x1_0104, 0x0000_0003, "lb zero,0(zero)"),
    (0x1_0108, 0xff81_1503, "lh a0,-8(sp)"),
    (0x1_010c, 0x0000_1003, "lh zero,0(zero)"),
    (0x1_0110, 0xff81_2503, "lw a0,-8(sp)"),
    (0x1_0114, 0x0000_2003, "lw zero,0(zero)"),
    (0x1_0118, 0xff81_4503, "lbu a0,-8(sp)"),
    (0x1_011c, 0x0000_4003, "lbu zero,0(zero)"),
    (0x1_0120, 0xff81_5503, "lhu a0,-8(sp)"),
    (0x1_0124, 0x0000_5003, "lhu zero,0(zero)"),
    (0x1_0128, 0xfea1_0c23, "sb a0,-8(sp)"),
    (0x1_012c, 0x0000_0223, "sb zero,4(zero)"),
    (0x1_0130, 0xfea1_1c23, "sh a0,-8(sp)"),
    (0x1_0134, 0x0000_1223, "sh zero,4(zero)"),
    (0x1_0138, 0xfea1_2c23, "sw a0,-8(sp)"),
    (0x1_013c, 0x0000_2223, "sw zero,4(zero)"),
];

const OPERATIONS: [Row; 67] = [
    (0x1_0140, 0x0000_0013, "nop"),
    (0x1_0144, 0x0000_0513, "li a0,0"),
    (0x1_0148, 0x0005_8513, "mv a0,a1"),
    (0x1_014c, 0x0005_8013, "mv zero,a1"),
    (0x1_0150, 0x0050_0513, "li a0,5"),
    (0x1_0154, 0xfff5_8513, "add a0,a1,-1"),
    (0x1_0158, 0x0015_8513, "add a0,a1,1"),
    (0x1_015c, 0x0ff5_8513, "add a0,a1,255"),
    (0x1_0160, 0x0050_0013, "li zero,5"),
    (0x1_0174, 0x0000_2013, "slti zero,zero,0"),
    (0x1_0178, 0x0000_2513, "slti a0,zero,0"),
    (0x1_017c, 0x0005_a513, "slti a0,a1,0"),
    (0x1_01a8, 0x0000_3013, "sltiu zero,zero,0"),
    (0x1_01ac, 0x0000_3513, "sltiu a0,zero,0"),
    (0x1_01b0, 0x0005_b513, "sltiu a0,a1,0"),
    (0x1_01c0, 0x0015_b513, "seqz a0,a1"),
    (0x1_01d4, 0x0010_3513, "seqz a0,zero"),
    (0x1_01dc, 0x0000_4013, "xor zero,zero,0"),
    (0x1_01e0, 0x0000_4513, "xor a0,zero,0"),
    (0x1_01e4, 0x0005_c513, "xor a0,a1,0"),
    (0x1_01f0, 0xfff5_c513, "not a0,a1"),
    (0x1_0200, 0xfff0_4013, "not zero,zero"),
    (0x1_0204, 0xfff0_4513, "not a0,zero"),
    (0x1_0210, 0x0000_6013, "or zero,zero,0"),
    (0x1_0214, 0x0000_6513, "or a0,zero,0"),
    (0x1_0218, 0x0005_e513, "or a0,a1,0"),
    (0x1_0244, 0x0000_7013, "and zero,zero,0"),
    (0x1_0248, 0x0000_7513, "and a0,zero,0"),
    (0x1_024c, 0x0005_f513, "and a0,a1,0"),
    (0x1_0260, 0x0ff5_f513, "zext.b a0,a1"),
    (0x1_0274, 0x0ff0_7513, "zext.b a0,zero"),
    (0x1_0278, 0x0005_9513, "sll a0,a1,0x0"),
    (0x1_027c, 0x0000_1013, "sll zero,zero,0x0"),
    (0x1_0280, 0x0015_9513, "sll a0,a1,0x1"),
    (0x1_02a0, 0x0005_d513, "srl a0,a1,0x0"),
    (0x1_02a4, 0x0000_5013, "srl zero,zero,0x0"),
    (0x1_02a8, 0x0015_d513, "srl a0,a1,0x1"),
    (0x1_02c8, 0x4005_d513, "sra a0,a1,0x0"),
    (0x1_02cc, 0x4000_5013, "sra zero,zero,0x0"),
    (0x1_02d0, 0x4015_d513, "sra a0,a1,0x1"),
    (0x1_0308, 0x40c5_8533, "sub a0,a1,a2"),
    (0x1_030c, 0x40c0_0533, "neg a0,a2"),
    (0x1_0310, 0x4005_8533, "sub a0,a1,zero"),
    (0x1_0314, 0x4000_0033, "neg zero,zero"),
    (0x1_0318, 0x4000_0533, "neg a0,zero"),
    (0x1_031c, 0x40c5_8033, "sub zero,a1,a2"),
    (0x1_0338, 0x00c5_a533, "slt a0,a1,a2"),
    (0x1_033c, 0x00c0_2533, "sgtz a0,a2"),
    (0x1_0340, 0x0005_a533, "sltz a0,a1"),
    (0x1_0344, 0x0000_2033, "sltz zero,zero"),
    (0x1_0348, 0x0000_2533, "sltz a0,zero"),
    (0x1_034c, 0x00c5_a033, "slt zero,a1,a2"),
    (0x1_0350, 0x00c5_b533, "sltu a0,a1,a2"),
    (0x1_0354, 0x00c0_3533, "snez a0,a2"),
    (0x1_0358, 0x0005_b533, "sltu a0,a1,zero"),
    (0x1_035c, 0x0000_3033, "snez zero,zero"),
    (0x1_0360, 0x0000_3533, "snez a0,zero"),
    (0x1_0364, 0x00c5_b033, "sltu zero,a1,a2"),
    (0x1_0368, 0x02c5_8533, "mul a0,a1,a2"),
    (0x1_036c, 0x02c5_9533, "mulh a0,a1,a2"),
    (0x1_0370, 0x02c5_a533, "mulhsu a0,a1,a2"),
    (0x1_0374, 0x02c5_b533, "mulhu a0,a1,a2"),
    (0x1_0378, 0x02c5_c533, "div a0,a1,a2"),
    (0x1_037c, 0x02c5_d533, "divu a0,a1,a2"),
    (0x1_0380, 0x02c5_e533, "rem a0,a1,a2"),
    (0x1_0384, 0x02c5_f533, "remu a0,a1,a2"),
    (0x1_0388, 0x03f0_0033, "mul zero,zero,t6"),
];

const ATOMICS: [Row; 34] = [
    (0x1_03e0, 0x0ff0_000f, "fence"),
    (0x1_03e4, 0x0330_000f, "fence rw,rw"),
    (0x1_03e8, 0x8330_000f, "fence.tso"),
    (0x1_03ec, 0x0100_000f, "fence w,unknown"),
    (0x1_03f0, 0x0000_000f, "fence unknown,unknown"),
    (0x1_0410, 0x0000_0073, "ecall"),
    (0x1_0414, 0x0010_0073, "ebreak"),
    (0x1_042c, 0x1005_a52f, "lr.w a0,(a1)"),
    (0x1_0430, 0x1205_a52f, "lr.w.rl a0,(a1)"),
    (0x1_0434, 0x1405_a52f, "lr.w.aq a0,(a1)"),
    (0x1_0438, 0x1605_a52f, "lr.w.aqrl a0,(a1)"),
    (0x1_043c, 0x18c5_a52f, "sc.w a0,a2,(a1)"),
    (0x1_0440, 0x1ac5_a52f, "sc.w.rl a0,a2,(a1)"),
    (0x1_0444, 0x1cc5_a52f, "sc.w.aq a0,a2,(a1)"),
    (0x1_0448, 0x1ec5_a52f, "sc.w.aqrl a0,a2,(a1)"),
    (0x1_044c, 0x08c5_a52f, "amoswap.w a0,a2,(a1)"),
    (0x1_0450, 0x0ac5_a52f, "amoswap.w.rl a0,a2,(a1)"),
    (0x1_0454, 0x0cc5_a52f, "amoswap.w.aq a0,a2,(a1)"),
    (0x1_0458, 0x0ec5_a52f, "amoswap.w.aqrl a0,a2,(a1)"),
    (0x1_045c, 0x00c5_a52f, "amoadd.w a0,a2,(a1)"),
    (0x1_0460, 0x02c5_a52f, "amoadd.w.rl a0,a2,(a1)"),
    (0x1_046c, 0x20c5_a52f, "amoxor.w a0,a2,(a1)"),
    (0x1_047c, 0x60c5_a52f, "amoand.w a0,a2,(a1)"),
    (0x1_0484, 0x64c5_a52f, "amoand.w.aq a0,a2,(a1)"),
    (0x1_0488, 0x66c5_a52f, "amoand.w.aqrl a0,a2,(a1)"),
    (0x1_048c, 0x40c5_a52f, "amoor.w a0,a2,(a1)"),
    (0x1_049c, 0x80c5_a52f, "amomin.w a0,a2,(a1)"),
    (0x1_04ac, 0xa0c5_a52f, "amomax.w a0,a2,(a1)"),
    (0x1_04bc, 0xc0c5_a52f, "amominu.w a0,a2,(a1)"),
    (0x1_04c4, 0xc4c5_a52f, "amominu.w.aq a0,a2,(a1)"),
    (0x1_04cc, 0xe0c5_a52f, "amomaxu.w a0,a2,(a1)"),
    (0x1_04d8, 0xe6c5_a52f, "amomaxu.w.aqrl a0,a2,(a1)"),
    (0x1_04dc, 0x0800_202f, "amoswap.w zero,zero,(zero)"),
    (0x1_04e0, 0x1800_202f, "sc.w zero,zero,(zero)"),
];

const REGISTERS: [Row; 32] = [
    (0x1_04e4, 0x001f_c033, "xor zero,t6,ra"),
    (0x1_04e8, 0x002f_40b3, "xor ra,t5,sp"),
    (0x1_04ec, 0x003e_c133, "xor sp,t4,gp"),
    (0x1_04f0, 0x004e_41b3, "xor gp,t3,tp"),
    (0x1_04f4, 0x005d_c233, "xor tp,s11,t0"),
    (0x1_04f8, 0x006d_42b3, "xor t0,s10,t1"),
    (0x1_04fc, 0x007c_c333, "xor t1,s9,t2"),
    (0x1_0500, 0x008c_43b3, "xor t2,s8,s0"),
    (0x1_0504, 0x009b_c433, "xor s0,s7,s1"),
    (0x1_0508, 0x00ab_44b3, "xor s1,s6,a0"),
    (0x1_050c, 0x00ba_c533, "xor a0,s5,a1"),
    (0x1_0510, 0x00ca_45b3, "xor a1,s4,a2"),
    (0x1_0514, 0x00d9_c633, "xor a2,s3,a3"),
    (0x1_0518, 0x00e9_46b3, "xor a3,s2,a4"),
    (0x1_051c, 0x00f8_c733, "xor a4,a7,a5"),
    (0x1_0520, 0x0108_47b3, "xor a5,a6,a6"),
    (0x1_0524, 0x0117_c833, "xor a6,a5,a7"),
    (0x1_0528, 0x0127_48b3, "xor a7,a4,s2"),
    (0x1_052c, 0x0136_c933, "xor s2,a3,s3"),
    (0x1_0530, 0x0146_49b3, "xor s3,a2,s4"),
    (0x1_0534, 0x0155_ca33, "xor s4,a1,s5"),
    (0x1_0538, 0x0165_4ab3, "xor s5,a0,s6"),
    (0x1_053c, 0x0174_cb33, "xor s6,s1,s7"),
    (0x1_0540, 0x0184_4bb3, "xor s7,s0,s8"),
    (0x1_0544, 0x0193_cc33, "xor s8,t2,s9"),
    (0x1_0548, 0x01a3_4cb3, "xor s9,t1,s10"),
    (0x1_054c, 0x01b2_cd33, "xor s10,t0,s11"),
    (0x1_0550, 0x01c2_4db3, "xor s11,tp,t3"),
    (0x1_0554, 0x01d1_ce33, "xor t3,gp,t4"),
    (0x1_0558, 0x01e1_4eb3, "xor t4,sp,t5"),
    (0x1_055c, 0x01f0_cf33, "xor t5,ra,t6"),
    (0x1_0560, 0x0000_4fb3, "xor t6,zero,zero"),
];

#[test]
fn jumps(rt: HostRuntime) -> Result<(), Fail> {
    agree(&rt, rt.alloc(), &JUMPS)
}

#[test]
fn accesses(rt: HostRuntime) -> Result<(), Fail> {
    agree(&rt, rt.alloc(), &ACCESSES)
}

#[test]
fn operations(rt: HostRuntime) -> Result<(), Fail> {
    agree(&rt, rt.alloc(), &OPERATIONS)
}

#[test]
fn atomics_and_fences(rt: HostRuntime) -> Result<(), Fail> {
    agree(&rt, rt.alloc(), &ATOMICS)
}

#[test]
fn registers(rt: HostRuntime) -> Result<(), Fail> {
    agree(&rt, rt.alloc(), &REGISTERS)
}

/// What is no instruction here, and fences whose reserved fields are not zero.
#[test]
fn other_words(rt: HostRuntime) -> Result<(), Fail> {
    let rows = [
        (0, 0, ".4byte 0x0"),
        (0, 0xffff_ffff, ".4byte 0xffffffff"),
        (0, 0x0000_100f, ".4byte 0x100f"),
        (0, 0x0400_0033, ".4byte 0x4000033"),
        (0, 0x0ff5_050f, "fence"),
        (0, 0x8ff0_000f, "fence"),
    ];
    agree(&rt, rt.alloc(), &rows)
}
