// How registers are given out: to temporaries, and to variables and control values as their homes.

ghost use Rattle.std.specs.Prelude.{◌≡◌, ◌≤◌, ◌+◌, [], true, false};
ghost use Rattle.expression_code.specs.Allocation.{home_of, is_unread, mirror_of};

use language::Kind;
use rv_code::Reg;
use std::marker::Model;

/// How many temporaries have registers where nothing has a home. Never more have one.
pub const REGISTER_COUNT: u32 = 16;

/// A register that follows a variable: it has the frame's base, and on it the variable's value times the bytes of an
/// element of a kind.
#[derive(Clone, Copy)]
pub struct Mirror {
    pub register: Reg,
    pub kind: Kind,
}

/// How many temporaries have registers, the home of each variable and each control value that has one, a register in
/// which it lives for the whole run, whether numbers go into instructions, which control values nothing reads, and the
/// mirror of each variable that has one.
#[derive(Drop)]
pub struct Allocation<'f> {
    count: u32,
    homes: &'f [Option<Reg>],
    immediates: bool,
    unread: &'f [bool],
    mirrors: &'f [Option<Mirror>],
}

impl<'f> Model for Allocation<'f> {
    ghost use Rattle.std.specs.Prelude.{◌≤◌};
    ghost use Rattle.expression_code.specs.Allocation.{Allocation};

    ghost Value = { Allocation };

    ghost view = { λ a. record {
      count = a.count;
      homes = a.homes.now;
      immediates = a.immediates;
      unread = a.unread.now;
      mirrors = a.mirrors.now;
    } };

    ghost invariant = { λ a. a.count ≤ 16 };
}

impl<'f> Allocation<'f> {
    /// Registers for so many temporaries, and homes by the numbers of variables, those of control values behind them;
    /// what comes behind the last has none. Each number gets a register.
    pub fn new(count: u32, homes: &'f [Option<Reg>]) -> Self
        requires { count ≤ 16 }
        ensures { result ≡ record { count = count; homes = homes.now; immediates = false; unread = []; mirrors = [] } }
    {
        Allocation {
            count,
            homes,
            immediates: false,
            unread: &[],
            mirrors: &[],
        }
    }

    /// The same registers, with numbers in the instructions that hold them, where nothing reads these control values,
    /// and variables have these mirrors, by their numbers.
    pub fn with_immediates(self, unread: &'f [bool], mirrors: &'f [Option<Mirror>]) -> Self
        ensures { result ≡ record {
          count = self.entry.count;
          homes = self.entry.homes;
          immediates = true;
          unread = unread.now;
          mirrors = mirrors.now;
        } }
    {
        Allocation {
            count: self.count,
            homes: self.homes,
            immediates: true,
            unread,
            mirrors,
        }
    }

    /// Whether numbers go into instructions.
    pub fn immediates(&self) -> bool
        ensures { result ≡ self.now.immediates }
    {
        self.immediates
    }

    /// Whether nothing reads a control value.
    pub fn is_unread(&self, control: u32) -> bool
        ensures { result ≡ is_unread self.now control }
    {
        self.unread.get(control as usize).copied().unwrap_or(false)
    }

    /// How many temporaries have registers.
    pub fn count(&self) -> u32
        ensures value { result ≡ self.now.count }
        ensures few { result ≤ 16 }
    {
        self.count
    }

    /// The homes of variables, by their numbers, and behind them those of control values.
    pub fn homes(&self) -> &[Option<Reg>]
        ensures { result.now ≡ self.now.homes }
    {
        self.homes
    }

    /// The home of a variable.
    pub fn home(&self, number: u32) -> Option<Reg>
        ensures { result ≡ home_of self.now.homes number }
    {
        self.homes.get(number as usize).copied().unwrap_or(None)
    }

    /// The mirrors of variables, by their numbers.
    pub fn mirrors(&self) -> &[Option<Mirror>]
        ensures { result.now ≡ self.now.mirrors }
    {
        self.mirrors
    }

    /// The mirror of a variable. One without a home has none.
    pub fn mirror(&self, number: u32) -> Option<Mirror>
        ensures { result ≡ mirror_of self.now number }
    {
        self.home(number)?;
        self.mirrors.get(number as usize).copied().unwrap_or(None)
    }

    /// The home of a control value, where there are so many variables.
    pub fn control_home(&self, variables: usize, control: u32) -> Option<Reg>
        ensures { result ≡ home_of self.now.homes (variables + control) }
    {
        if self.homes.len() < variables {
            return None;
        }
        let controls = self.homes.split_at(variables).1;
        controls.get(control as usize).copied().unwrap_or(None)
    }
}
