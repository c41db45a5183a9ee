// Where what is unknown of registers comes from, step by step of a certified run.

ghost use Rattle.std.specs.Prelude.{◌≡◌, ℕ, ◌<◌, ◌^◌, List, None, is_some, IfSome};
ghost use Rattle.rv_machine.specs.Bytes.{ByteMap};
ghost use Rattle.run_reports.specs.Below.{CertifiedRun, known_of, Observation, same, state_of, Stop};
ghost use Rattle.run_reports.specs.origins.Below.{register_masks, Shifts};
ghost use Rattle.run_reports.specs.origins.Origins.{first_unknown, origin_if_unknown, origin_of, origins_in};
ghost use Rattle.run_reports.specs.origins.Origins.{register_written, with_origin};
ghost use Rattle.run_reports.specs.origins.Reading.{listed_reads};
ghost use Rattle.run_reports.specs.origins.Traced.{ComesToDiffer};

use crate::origins::reading::{Reads, reads_of, register_written};
use crate::origins::registers::{Origin, Origins};
use crate::origins::steps::{StepEnd, known_step};
use certified_runs::KnownParts;
use rv_code::{Instr, Reg};
use rv_machine::{Hart, Memory, Running, address};
use rv_programs::{Fetched, Program};

/// The instruction of a step that may differ, and what is unknown of the registers then.
#[derive(Clone, Copy)]
pub struct Undecided {
    pub instr: Instr,
    /// The unknown bits of each register. x0 has none, whatever stands here.
    pub masks: [u32; 32],
    pub origins: Origins,
}

impl Undecided {
    /// Where what is unknown of a register comes from. `None` where all of it is known.
    pub fn origin(&self, r: Reg) -> Option<Origin>
        ensures { result ≡ origin_if_unknown (register_masks self.now.masks) (origins_in self.now.origins.kept) r }
    {
        origin_if_unknown(&self.masks, &self.origins, r)
    }
}

/// Where what is unknown of a register comes from, by the unknown bits of registers.
fn origin_if_unknown(masks: &[u32; 32], origins: &Origins, r: Reg) -> Option<Origin>
    ensures { result ≡ origin_if_unknown (register_masks masks.now) (origins_in origins.now.kept) r }
{
    if r == Reg::X0 || masks[r.number() as usize] == 0 {
        None
    } else {
        Some(origins.of(r))
    }
}

/// Where the first of these registers comes from that is unknown.
fn first_unknown(masks: &[u32; 32], origins: &Origins, reads: Reads) -> Option<Origin>
    ensures { result ≡ first_unknown (register_masks masks.now) (origins_in origins.now.kept) (listed_reads reads) }
{
    match reads {
        Reads::Nothing => None,
        Reads::One(r) => origin_if_unknown(masks, origins, r),
        Reads::Two(r, s) => match origin_if_unknown(masks, origins, r) {
            Some(origin) => Some(origin),
            None => origin_if_unknown(masks, origins, s),
        },
    }
}

/// Where what an instruction makes comes from, if it is unknown. So many entries were shown before it.
fn origin_of(
    instr: &Instr,
    entry: u64,
    hart: &Hart,
    masks: &[u32; 32],
    origins: &Origins,
) -> Option<Origin>
    ensures { (bytes marks : ByteMap) (shifts : Shifts)
        → result ≡ origin_of entry (known_of (state_of hart.now bytes) masks.now marks shifts)
        (origins_in origins.now.kept) instr.now }
{
    match *instr {
        Instr::Load(_, _, rs1, offset) => Some(Origin::Load {
            entry,
            pc: hart.pc(),
            address: address(hart, rs1, offset),
        }),
        _ => first_unknown(masks, origins, reads_of(instr)),
    }
}

/// Makes this where what an instruction gave a register comes from, if any of it is unknown.
fn note(origins: &mut Origins, instr: &Instr, origin: Option<Origin>)
    ensures { origins_in origins.new.kept
        ≡ with_origin (origins_in origins.old.kept) (register_written instr.now) origin }
{
    if let (Some(rd), Some(origin)) = (register_written(instr), origin) {
        origins.set(rd, origin);
    }
}

/// Makes a certified run once more, up to the step that may differ: what is unknown of the registers there, and where
/// it comes from. `None` where no step of the run may differ. It takes no memory, and uses up the run.
pub fn trace<P: Program, M: Memory>(
    program: &P,
    run: &mut Running<M>,
    known: &mut KnownParts<M>,
) -> Option<Undecided>
    requires few { run.old.steps_left < 2 ^ 62 }
    requires extent { (a : ℕ) → is_some (M.bytes known.old.marks a) ≡ is_some (M.bytes run.old.memory a) }
    ensures found { IfSome result (λ undecided. ComesToDiffer (P.program program.now)
        (known_of (state_of run.old.hart (M.bytes run.old.memory)) known.old.registers (M.bytes known.old.marks)
        known.old.shifts) undecided.instr (register_masks undecided.masks) (origins_in undecided.origins.kept)) }
    ensures none { result ≡ None → (seen : List Observation) × (stop : Stop)
        × CertifiedRun (P.program program.now) run.old.steps_left
        (known_of (state_of run.old.hart (M.bytes run.old.memory)) known.old.registers (M.bytes known.old.marks)
        known.old.shifts) seen (same stop) }
{
    let mut origins = Origins::new();
    let mut entries = 0;
    for _step in 0..run.steps_left {
        let Fetched::Instruction(instr, _) = program.fetch(run.hart.pc()) else {
            return None;
        };
        let masks = known.registers;
        let origin = origin_of(instr, entries, &run.hart, &masks, &origins);
        match known_step(program, run, known) {
            StepEnd::LeadsOn(more) => entries += more,
            StepEnd::Ends => return None,
            StepEnd::Depends => {
                return Some(Undecided {
                    instr: *instr,
                    masks,
                    origins,
                });
            }
        }
        note(&mut origins, instr, origin);
    }
    None
}
