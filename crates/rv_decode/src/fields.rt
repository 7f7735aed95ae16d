// The fields of a word.
ghost use Rattle.std.specs.Prelude.{◌≡◌, ℕ, ◌+◌, ◌-◌, ◌<◌, ◌≤◌, ◌^◌};
ghost use Rattle.rv_decode.specs.Table.{bits, signed, rd, rs1, rs2, i_imm, s_imm, b_imm, j_imm};
ghost use Rattle.rv_decode.specs.Table.{fits_key};
ghost use Rattle.rv_decode.specs.Table.Key.{Opcode, Funct3, Funct7, Whole};

/// The `count` bits of a word from bit `low` on.
fn field(word: u32, low: u32, count: u32) -> u32
    requires below { low < 32 }
    requires some { count < 32 }
    ensures { result ≡ bits low count word }
{
    (word >> low) % (1 << count)
}

/// A number of `count` bits, of which the highest is the sign.
fn sign_extended(number: u32, count: u32) -> i32
    requires some { 1 ≤ count }
    requires few { count ≤ 21 }
    requires below { number < 2 ^ count }
    ensures { result ≡ signed count number }
{
    let half = 1u32 << (count - 1);
    if number < half {
        number as i32
    } else {
        number as i32 - 2 * half as i32
    }
}

/// The fields of a word, for each form.
#[derive(Clone, Copy)]
pub(crate) struct Fields {
    pub(crate) rd: u8,
    pub(crate) rs1: u8,
    pub(crate) rs2: u8,
    pub(crate) upper: u32,
    pub(crate) bits: u16,
    pub(crate) i_imm: i32,
    pub(crate) s_imm: i32,
    pub(crate) b_imm: i32,
    pub(crate) j_imm: i32,
}

impl Fields {
    pub(crate) fn split(word: u32) -> Self
        ensures rd { result.rd ≡ rd word }
        ensures rs1 { result.rs1 ≡ rs1 word }
        ensures rs2 { result.rs2 ≡ rs2 word }
        ensures upper { result.upper ≡ bits 12 20 word }
        ensures bits { result.bits ≡ bits 20 12 word }
        ensures i_imm { result.i_imm ≡ i_imm word }
        ensures s_imm { result.s_imm ≡ s_imm word }
        ensures b_imm { result.b_imm ≡ b_imm word }
        ensures j_imm { result.j_imm ≡ j_imm word }
    {
        Fields {
            rd: field(word, 7, 5) as u8,
            rs1: field(word, 15, 5) as u8,
            rs2: field(word, 20, 5) as u8,
            upper: field(word, 12, 20),
            bits: field(word, 20, 12) as u16,
            i_imm: i_imm(word),
            s_imm: s_imm(word),
            b_imm: b_imm(word),
            j_imm: j_imm(word),
        }
    }
}

fn i_imm(word: u32) -> i32
    ensures { result ≡ i_imm word }
{
    sign_extended(field(word, 20, 12), 12)
}

fn s_imm(word: u32) -> i32
    ensures { result ≡ s_imm word }
{
    sign_extended((field(word, 25, 7) << 5) + field(word, 7, 5), 12)
}

fn b_imm(word: u32) -> i32
    ensures { result ≡ b_imm word }
{
    let high = (field(word, 31, 1) << 12) + (field(word, 7, 1) << 11);
    sign_extended(
        high + (field(word, 25, 6) << 5) + (field(word, 8, 4) << 1),
        13,
    )
}

fn j_imm(word: u32) -> i32
    ensures { result ≡ j_imm word }
{
    let high = (field(word, 31, 1) << 20) + (field(word, 12, 8) << 12);
    sign_extended(
        high + (field(word, 20, 1) << 11) + (field(word, 21, 10) << 1),
        21,
    )
}

pub(crate) fn has_opcode(word: u32, opcode: u32) -> bool
    ensures { result ≡ fits_key (Opcode opcode) word }
{
    field(word, 0, 7) == opcode
}

pub(crate) fn has_funct3(word: u32, opcode: u32, funct3: u32) -> bool
    ensures { result ≡ fits_key (Funct3 opcode funct3) word }
{
    field(word, 0, 7) == opcode && field(word, 12, 3) == funct3
}

pub(crate) fn has_funct7(word: u32, opcode: u32, funct3: u32, funct7: u32) -> bool
    ensures { result ≡ fits_key (Funct7 opcode funct3 funct7) word }
{
    field(word, 0, 7) == opcode && field(word, 12, 3) == funct3 && field(word, 25, 7) == funct7
}
