// The registers that an instruction reads.
ghost use Rattle.std.specs.Prelude.{◌≡◌};
ghost use Rattle.rv_decode.specs.Sources.{sources};

use crate::Ins;
use crate::operands::Operands;

impl Ins {
    /// The source registers: rs1 and rs2 if the instruction reads them, otherwise 0. FENCE reads
    /// none. In constant time; it takes no memory.
    pub fn reads(&self) -> (u8, u8)
        ensures { result ≡ sources self.now }
    {
        match self.operands() {
            Operands::R { rs1, rs2, .. }
            | Operands::S { rs1, rs2, .. }
            | Operands::B { rs1, rs2, .. } => (rs1, rs2),
            Operands::Shift { rs1, .. } | Operands::I { rs1, .. } | Operands::Address { rs1, .. } =>
                (rs1, 0),
            Operands::U { .. } | Operands::J { .. } | Operands::Plain { .. } => (0, 0),
        }
    }
}
