// Instructions, and small programs of them.
pub(crate) const ECALL: u32 = 0x0000_0073; // ecall

pub(crate) const RET: u32 = 0x0000_8067; // jalr x0,0(x1)

const NEXT: u32 = 0x0010_0293; // addi x5,x0,1

// An instruction and ECALL.
pub(crate) const TWO_WORDS: [u32; 2] = [NEXT, ECALL];

// A loop of three iterations, of the second word and the third.
pub(crate) const LOOP: [u32; 4] = [
    0x0030_0293, // addi x5,x0,3
    0xFFF2_8293, // addi x5,x5,-1
    0xFE02_9EE3, // bne x5,x0,-4
    ECALL,
];

// A loop around a loop of one instruction.
pub(crate) const NESTED: [u32; 4] = [
    0x0030_0293, // addi x5,x0,3
    0x0002_9063, // bne x5,x0,0
    0xFE02_9CE3, // bne x5,x0,-8
    ECALL,
];

// A function that saves x1 on its stack and calls another one twice.
pub(crate) const CALLS: [u32; 8] = [
    0xFF01_0113, // addi x2,x2,-16
    0x0011_2623, // sw x1,12(x2)
    0x0140_00EF, // jal x1,20
    0x0100_00EF, // jal x1,16
    0x00C1_2083, // lw x1,12(x2)
    0x0101_0113, // addi x2,x2,16
    RET,
    RET,
];

// The same without the store of x1.
pub(crate) const LOST: [u32; 8] = [
    0xFF01_0113, // addi x2,x2,-16
    0x0000_0013, // addi x0,x0,0
    0x0140_00EF, // jal x1,20
    0x0100_00EF, // jal x1,16
    0x00C1_2083, // lw x1,12(x2)
    0x0101_0113, // addi x2,x2,16
    RET,
    RET,
];

// A loop around a call.
pub(crate) const CALL_LOOP: [u32; 7] = [
    0x0020_0313, // addi x6,x0,2
    0x0140_00EF, // jal x1,20
    0xFFF3_0313, // addi x6,x6,-1
    0xFE03_1CE3, // bne x6,x0,-8
    ECALL,
    0x0000_0013, // addi x0,x0,0
    RET,
];

// From line to line of 16 bytes by `jal x0,16`, and at the fourth to `ecall`.
pub(crate) const LINES: [u32; 13] = [
    0x0100_006F, // jal x0,16
    0,
    0,
    0,
    0x0100_006F, // jal x0,16
    0,
    0,
    0,
    0x0100_006F, // jal x0,16
    0,
    0,
    0,
    ECALL,
];

// To the next line by `jal x0,16`, back by `jal x0,-12`, and to the next line again.
pub(crate) const BACK: [u32; 6] = [
    0x0100_006F, // jal x0,16
    0x0100_006F, // jal x0,16
    0,
    0,
    0xFF5F_F06F, // jal x0,-12
    ECALL,
];
