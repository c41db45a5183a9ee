ghost use Rattle.std.specs.Prelude.{◌≡◌, ◌+◌, OnOk, OnErr, IfErr};
ghost use Rattle.source_eval.specs.declared.fault.EvalFault.TheVariants.{Budget};

use crate::EvalFault;

/// Counts a node that is evaluated.
pub fn spend(left: &mut u64) -> Result<(), EvalFault>
    ensures ok { OnOk result (left.old ≡ left.new + 1) }
    ensures err { OnErr result (left.old ≡ 0) }
    ensures budget { IfErr result (λ fault. fault ≡ Budget) }
{
    if *left == 0 {
        return Err(EvalFault::Budget);
    }
    *left -= 1;
    Ok(())
}
