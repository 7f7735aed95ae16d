// Words and instructions, and their cycles.
use crpd_base::{Platform, Switching};
use rv_decode::{Ins, cost, decode, encode};

// A word of each row, in the order of the table.
static ROWS: [u32; 48] = [
    0x1234_52B7, // lui x5,74565
    0xFFFF_F317, // auipc x6,1048575
    0x0140_00EF, // jal x1,20
    0x0000_8067, // jalr x0,0(x1)
    0x7E62_8FE3, // beq x5,x6,4094
    0xFE02_9EE3, // bne x5,x0,-4
    0x8083_C063, // blt x7,x8,-4096
    0x00A4_D0E3, // bge x9,x10,2048
    0x02C5_E063, // bltu x11,x12,32
    0xFFEF_FFE3, // bgeu x31,x30,-2
    0xFFF3_0283, // lb x5,-1(x6)
    0x7FF4_1383, // lh x7,2047(x8)
    0x00C1_2083, // lw x1,12(x2)
    0x8005_4483, // lbu x9,-2048(x10)
    0x0006_5583, // lhu x11,0(x12)
    0xFED7_0FA3, // sb x13,-1(x14)
    0x00F8_1FA3, // sh x15,31(x16)
    0x0011_2623, // sw x1,12(x2)
    0xFFF3_0293, // addi x5,x6,-1
    0x0054_2393, // slti x7,x8,5
    0x8005_3493, // sltiu x9,x10,-2048
    0x7FF6_4593, // xori x11,x12,2047
    0x0017_6693, // ori x13,x14,1
    0xFF08_7793, // andi x15,x16,-16
    0x01F9_1893, // slli x17,x18,31
    0x001A_5993, // srli x19,x20,1
    0x4010_5013, // srai x0,x0,1
    0x0073_02B3, // add x5,x6,x7
    0x40A4_8433, // sub x8,x9,x10
    0x00D6_15B3, // sll x11,x12,x13
    0x0107_A733, // slt x14,x15,x16
    0x0139_38B3, // sltu x17,x18,x19
    0x016A_CA33, // xor x20,x21,x22
    0x019C_5BB3, // srl x23,x24,x25
    0x41CD_DD33, // sra x26,x27,x28
    0x01FF_6EB3, // or x29,x30,x31
    0x0031_70B3, // and x1,x2,x3
    0x0273_02B3, // mul x5,x6,x7
    0x02A4_9433, // mulh x8,x9,x10
    0x02D6_25B3, // mulhsu x11,x12,x13
    0x0307_B733, // mulhu x14,x15,x16
    0x0273_42B3, // div x5,x6,x7
    0x0339_58B3, // divu x17,x18,x19
    0x036A_EA33, // rem x20,x21,x22
    0x039C_7BB3, // remu x23,x24,x25
    0x0FF0_000F, // fence
    0x0000_0073, // ecall
    0x0010_0073, // ebreak
];

#[test]
fn every_row(rt: HostRuntime) {
    for &word in &ROWS {
        let ins = decode(word).expect(&rt, "a row");
        assert!(rt; encode(&ins) == word);
    }
}

#[test]
fn fields(rt: HostRuntime) {
    let fence = Ins::Fence {
        rd: 1,
        rs1: 2,
        bits: 0x8AB,
    };
    let srai = Ins::Srai {
        rd: 0,
        rs1: 0,
        amount: 1,
    };
    let store = Ins::Sw {
        rs1: 2,
        rs2: 1,
        imm: 12,
    };
    assert!(rt;
        matches!(
            decode(0x8AB1_008F), // fence
            Some(Ins::Fence {
                rd: 1,
                rs1: 2,
                bits: 0x8AB
            })
        )
    );
    assert!(rt; encode(&fence) == 0x8AB1_008F); // fence
    assert!(rt; fence.reads() == (0, 0) && srai.reads() == (0, 0) && store.reads() == (2, 1));
}

static PLATFORM: Platform = Platform {
    line: 16,
    sets: 4,
    hit: 1,
    miss: 10,
    memory: 3,
    taken: 2,
    switch: 5,
    mul: 4,
    div: 30,
    switching: Switching::Cycle,
};

// A word, whether it misses and whether it is taken, and its cycles.
static COSTS: [(u32, bool, bool, u64); 10] = [
    (0x0010_0293, true, false, 11), // addi x5,x0,1
    (0x0010_0293, false, true, 1), // addi x5,x0,1
    (0x0011_2623, false, false, 4), // sw x1,12(x2)
    (0x0140_00EF, false, true, 3), // jal x1,20
    (0xFE02_9EE3, true, true, 13), // bne x5,x0,-4
    (0xFE02_9EE3, false, false, 1), // bne x5,x0,-4
    (0x0273_42B3, false, false, 31), // div x5,x6,x7
    (0x0273_02B3, true, false, 15), // mul x5,x6,x7
    (0x0000_8067, true, true, 13), // jalr x0,0(x1)
    (0x0000_0073, false, true, 1), // ecall
];

#[test]
fn costs(rt: HostRuntime) {
    for &(word, miss, taken, cycles) in &COSTS {
        let ins = decode(word).expect(&rt, "a row");
        assert!(rt; cost(&PLATFORM, &ins, miss, taken) == cycles);
    }
}
