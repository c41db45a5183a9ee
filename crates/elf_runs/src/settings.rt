// What is secret, and what is set.

ghost use Rattle.std.specs.Prelude.{◌≡◌, ◌≤◌, Some, None, length, map, OnOk, IfOk, IfErr};
ghost use Rattle.std.specs.List.{fold};
ghost use Rattle.elf_memory.specs.Memory.{hide_in, range_of, set_in};
ghost use Rattle.elf_runs.specs.Needs.{IsTold, Meets, each_from, first_unmet, secret_needs, setting_needs};
ghost use Rattle.elf_memory.specs.Objects.{object_of};

use crate::fault::{Part, StartFault, Unmet};
use crate::objects::object_of;
use elf::{ElfRule, Object, Program};
use elf_memory::{MemoryRange, Secret, Setting, hide_object, set_object};
use std::alloc::Global;

/// The object of a secret.
fn secret_object(program: &Program<'_>, k: usize, secret: &Secret) -> Result<Object, Unmet>
    ensures met { Meets result (secret_needs program.now k secret.now) }
    ensures object { IfOk result (λ object. object_of program.now secret.now.object.items ≡ Some object) }
{
    match object_of(program, &secret.object) {
        Some(object) => Ok(object),
        None => Err(Unmet {
            rule: ElfRule::Symbol,
            part: Part::Secret(k),
        }),
    }
}

/// The object that is set.
fn object_to_set(program: &Program<'_>, k: usize, setting: &Setting) -> Result<Object, Unmet>
    ensures met { Meets result (setting_needs program.now k setting.now) }
    ensures object { IfOk result (λ object. object_of program.now setting.now.object.items ≡ Some object) }
    ensures fits { IfOk result (λ object. length setting.now.bytes.items ≤ object.size) }
{
    let part = Part::Setting(k);
    let Some(object) = object_of(program, &setting.object) else {
        return Err(Unmet {
            rule: ElfRule::Symbol,
            part,
        });
    };
    if setting.bytes.len() <= object.size as usize {
        Ok(object)
    } else {
        Err(Unmet {
            rule: ElfRule::Argument,
            part,
        })
    }
}

/// Makes each bit of what is secret unknown.
pub(crate) fn hide_secrets(
    alloc: Global,
    ranges: &mut Vec<MemoryRange>,
    program: &Program<'_>,
    secrets: &[Secret],
) -> Result<(), StartFault>
    ensures met { OnOk result (first_unmet (each_from (secret_needs program.now) 0 secrets.now) ≡ None) }
    ensures memory { OnOk result (map range_of ranges.new.items
        ≡ fold (hide_in program.now) (map range_of ranges.old.items) secrets.now) }
    ensures fault { IfErr result (λ fault. IsTold fault
        (each_from (secret_needs program.now) 0 secrets.now)) }
{
    'secrets: for (k, secret) in secrets.iter().enumerate() {
        let object = secret_object(program, k, secret)?;
        hide_object(alloc, ranges, object)?;
    }
    Ok(())
}

/// Sets what is set, in its order.
pub(crate) fn set_objects(
    ranges: &mut Vec<MemoryRange>,
    program: &Program<'_>,
    settings: &[Setting],
) -> Result<(), Unmet>
    ensures met { Meets result (each_from (setting_needs program.now) 0 settings.now) }
    ensures memory { OnOk result (map range_of ranges.new.items
        ≡ fold (set_in program.now) (map range_of ranges.old.items) settings.now) }
{
    'settings: for (k, setting) in settings.iter().enumerate() {
        let object = object_to_set(program, k, setting)?;
        set_object(ranges, object, &setting.bytes);
    }
    Ok(())
}
