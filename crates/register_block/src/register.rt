// The registers, and where each stands for the controller.
ghost use Rattle.std.specs.Prelude.{◌≡◌};
ghost use Rattle.register_block.specs.Kinds.{register_of, offset_of};

// A register, by its offset; at other offsets nothing is held.
#[derive(Clone, Copy, Debug, PartialEq, Eq, Drop)]
pub enum Register {
    Control = 0,
    Status = 4,
    Flags = 8,
    Mask = 12,
    Accepted = 16,
    Discarded = 20,
    Sent = 24,
    Choice = 28,
}

// Why an offset is no register's of these.
#[derive(Clone, Copy, Debug, PartialEq, Eq, Drop)]
pub struct NoRegister;

impl TryFrom<u32> for Register {
    type Error = NoRegister;

    ghost try_from_gives = { λ offset answer. answer ≡ register_of offset };

    // The register at an offset.
    fn try_from(offset: u32) -> Result<Register, NoRegister> {
        match offset {
            0 => Ok(Register::Control),
            4 => Ok(Register::Status),
            8 => Ok(Register::Flags),
            12 => Ok(Register::Mask),
            16 => Ok(Register::Accepted),
            20 => Ok(Register::Discarded),
            24 => Ok(Register::Sent),
            28 => Ok(Register::Choice),
            _ => Err(NoRegister),
        }
    }
}

impl From<Register> for u32 {
    ghost from_gives = { λ register offset. offset ≡ offset_of register };

    // The register's offset.
    fn from(register: Register) -> u32 {
        register as u32
    }
}
