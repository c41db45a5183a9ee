// Where the stack ends, and the address that the function returns to.

ghost use Rattle.std.specs.Prelude.{◌≡◌, ◌<◌, ◌≤◌, ◌^◌};
ghost use Rattle.elf_memory.specs.Arguments.{pushed_size, rounded, stack_pointer};

/// Where the stack ends. This is fixed, so that the addresses that a run shows do not depend on the other segments. It
/// is high, since RAM, flash and ROM are below it.
pub const STACK_END: u32 = 0xffff_fff0;

/// The address that the function returns to. It lies behind the stack, where no segment is: so a run that comes to it
/// stops there.
pub const RETURN_ADDRESS: u32 = 0xffff_fff8;

/// The next multiple of 16.
pub fn rounded(n: u64) -> u64
    requires { n < 2 ^ 60 }
    ensures { result ≡ rounded n }
{
    n.div_ceil(16) * 16
}

/// Where the stack pointer stands before a function with so many arguments.
pub fn stack_pointer(count: usize) -> u32
    requires { pushed_size count ≤ 2 ^ 24 }
    ensures { result ≡ stack_pointer count }
{
    STACK_END - rounded(4 * count.saturating_sub(8) as u64) as u32
}
