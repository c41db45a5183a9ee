// The registers of the calling convention, by what becomes of them.

ghost use Rattle.std.specs.Prelude.{◌≡◌, ◌<◌, ◌+◌};
ghost use Rattle.functions.specs.Below.{argument_registers, link_register, result_register, saved_registers};
ghost use Rattle.functions.specs.Below.{scratch_registers};

use rv_code::Reg;

/// ra: where a function goes back to.
pub fn link() -> Reg
    ensures { result ≡ link_register }
{
    Reg::from_bits(1)
}

/// a0: the result.
pub fn result() -> Reg
    ensures { result ≡ result_register }
{
    Reg::from_bits(10)
}

/// s0 to s11, which a function leaves as they were.
pub fn saved() -> [Reg; 12]
    ensures { result ≡ saved_registers }
{
    [
        Reg::from_bits(8),
        Reg::from_bits(9),
        Reg::from_bits(18),
        Reg::from_bits(19),
        Reg::from_bits(20),
        Reg::from_bits(21),
        Reg::from_bits(22),
        Reg::from_bits(23),
        Reg::from_bits(24),
        Reg::from_bits(25),
        Reg::from_bits(26),
        Reg::from_bits(27),
    ]
}

/// That of a0 to a7 in which an argument is passed.
pub fn argument(index: u16) -> Reg
    requires { index < 8 }
    ensures { result ≡ 10 + index }
{
    Reg::from_bits(10 + u32::from(index))
}

/// a0 to a7: the first arguments.
pub fn arguments() -> [Reg; 8]
    ensures { result ≡ argument_registers }
{
    [
        Reg::from_bits(10),
        Reg::from_bits(11),
        Reg::from_bits(12),
        Reg::from_bits(13),
        Reg::from_bits(14),
        Reg::from_bits(15),
        Reg::from_bits(16),
        Reg::from_bits(17),
    ]
}

/// The others that a function may change: t0 to t2, a1 to a7, t3 to t6.
pub fn scratch() -> [Reg; 14]
    ensures { result ≡ scratch_registers }
{
    [
        Reg::X5,
        Reg::X6,
        Reg::X7,
        Reg::from_bits(11),
        Reg::from_bits(12),
        Reg::from_bits(13),
        Reg::from_bits(14),
        Reg::from_bits(15),
        Reg::from_bits(16),
        Reg::from_bits(17),
        Reg::X28,
        Reg::X29,
        Reg::X30,
        Reg::X31,
    ]
}
