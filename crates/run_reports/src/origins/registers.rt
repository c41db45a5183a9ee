// Where what is unknown of each register comes from.

ghost use Rattle.std.specs.Prelude.{◌≡◌, Some};
ghost use Rattle.run_reports.specs.origins.Origins.{origins_in, with_origin};
ghost use Rattle.run_reports.specs.declared.origins.registers.Origin.TheVariants.{Start};

use rv_code::Reg;

/// Where what is unknown of a register comes from.
#[derive(Clone, Copy, PartialEq, Eq)]
pub enum Origin {
    /// What this register held as the run began.
    Start(Reg),
    /// A load from this address. The entry for its program counter, which is this, is shown there, counted from 0.
    Load { entry: u64, pc: u32, address: u32 },
}

/// Where what is unknown of each register comes from. Of one that is known it says nothing.
#[derive(Clone, Copy)]
pub struct Origins {
    /// What registers got since the run began.
    pub kept: [Option<Origin>; 32],
}

impl Origins {
    /// At first, from the registers themselves.
    pub fn new() -> Origins
        ensures { origins_in result.kept ≡ Start }
    {
        Origins { kept: [None; 32] }
    }

    /// Where what is unknown of a register comes from.
    pub fn of(&self, r: Reg) -> Origin
        ensures { result ≡ origins_in self.now.kept r }
    {
        match self.kept[r.number() as usize] {
            Some(origin) => origin,
            None => Origin::Start(r),
        }
    }

    // Makes this where what is unknown of a register comes from.
    #[inline(always)]
    pub(crate) fn set(&mut self, rd: Reg, origin: Origin)
        ensures { origins_in self.new.kept ≡ with_origin (origins_in self.old.kept) (Some rd) (Some origin) }
    {
        self.kept[rd.number() as usize] = Some(origin);
    }
}
