// Lines of a file of harts, taken one after another up to the first faulty one.

ghost use Rattle.std.specs.Prelude.{◌≡◌, ◌+◌, ◌∷◌, ◌++◌, [], length, List, Option, None, true, OnOk, IfErr};
ghost use Rattle.input_files.specs.harts_file.Lines.{LineContent, said_of};
ghost use Rattle.input_files.specs.harts_file.private.Reading.{given_to, HasTaken, TakesLine};

use crate::harts_file::fault::PlanFault;
use crate::harts_file::reader::PlanReader;
use harts::HartsRule;
use std::alloc::Global;

/// A faulty line, counted from 1, and the first rule that it breaks.
#[derive(Clone, Copy, Debug, PartialEq, Eq)]
pub struct LineFault {
    pub rule: HartsRule,
    pub line: usize,
}

/// What was taken of lines.
#[derive(Debug, Drop)]
pub struct TakenLines {
    /// What they give, up to the first faulty one.
    pub plan: PlanReader,
    pub first: Option<LineFault>,
    /// Whether all of them are UTF-8.
    pub is_text: bool,
    /// How many there are.
    pub count: usize,
}

impl TakenLines {
    /// No line.
    pub fn new(alloc: Global) -> Self
        ensures taken { HasTaken [] result.first (given_to result.plan) }
        ensures first { result.first ≡ None }
        ensures is_text { result.is_text ≡ true }
        ensures none { result.count ≡ 0 }
    {
        TakenLines {
            plan: PlanReader::new(alloc),
            first: None,
            is_text: true,
            count: 0,
        }
    }

    /// Takes the next line, which stands without its end. More lines than can be counted are as much as there is
    /// no memory for.
    pub fn take(&mut self, alloc: Global, line: &[u8]) -> Result<(), PlanFault>
        ensures takes { OnOk result (TakesLine self.old self.new line.now) }
        ensures memory { IfErr result (λ fault. fault ≡ PlanFault.Memory) }
    {
        let Some(count) = self.count.checked_add(1) else {
            return Err(PlanFault::Memory);
        };
        self.count = count;
        match str::from_utf8(line) {
            Ok(text) => self.take_text(alloc, text),
            Err(_) => {
                self.is_text = false;
                Ok(())
            }
        }
    }

    /// Takes the line that was counted last, unless one before it is faulty.
    fn take_text(&mut self, alloc: Global, text: &str) -> Result<(), PlanFault>
        ensures kept { OnOk result ((said : List (Option LineContent)) → length said + 1 ≡ self.old.count
            → HasTaken said self.old.first (given_to self.old.plan)
            → HasTaken (said ++ said_of text.now ∷ []) self.new.first (given_to self.new.plan)) }
        ensures counted { self.new.count ≡ self.old.count }
        ensures is_text { self.new.is_text ≡ self.old.is_text }
        ensures memory { IfErr result (λ fault. fault ≡ PlanFault.Memory) }
    {
        if self.first.is_some() {
            return Ok(());
        }
        if let Some(rule) = self.plan.take(alloc, text)? {
            let line = self.count;
            self.first = Some(LineFault { rule, line });
        }
        Ok(())
    }
}
