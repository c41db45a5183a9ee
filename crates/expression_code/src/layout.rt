// Where a program's words lie in the frame.

ghost use Rattle.std.specs.Prelude.{◌≡◌, ℕ, ◌≤◌, ◌<◌, ◌+◌, ◌*◌, length, map, slice_get, unwrap_or, if◌then◌else◌};
ghost use Rattle.std.specs.Prelude.{◌++◌, IfOk, IfSome, OnOk};
ghost use Rattle.expression_code.specs.Layout.{variable_offset, variable_location, result_offset};
ghost use Rattle.expression_code.specs.Layout.{control_offset, control_location, word_offset, next_offset};
ghost use Rattle.expression_code.specs.Layout.{temporaries_offset, term_layout, offsets_from, slots_from};
ghost use Rattle.expression_code.specs.Layout.{has_slot, slotted, without_words};
ghost use Rattle.expression_code.specs.Allocation.{is_unread, slots_to, temporary, working_register};
ghost use Rattle.expression_code.specs.Registers.{value_register};
ghost use Rattle.expression_code.specs.TermCode.{kind_at, near_offset, near_element, is_word, keeps_words};
ghost use Rattle.expression_code.specs.TermCode.{sum_offset, computed_index, access_offset, IsAmong};
ghost use Rattle.expression_code.specs.TermCode.{added, mirror_code, mirrored_at, mirrored_place, near_place};
ghost use Rattle.expression_code.specs.TermCode.{near_sum};
ghost use Rattle.expression_code.specs.TermCode.{home_of_term, is_at_home, operand};
ghost use Rattle.expression_code.specs.Below.{declaration_of, declared_words, height_of, term_tree, words_of};

use crate::allocation::{Allocation, Mirror};
use crate::emit::{NEAR, NearPlace, mirror};
use crate::image_fields::Slot;
use crate::locations::Location;
use crate::numbers::number;
use inline::{FlatVariable, Term};
use language::{BinaryOperator, Kind, Param};
use rv_code::{Instr, Reg};
use std::alloc::{AllocError, Global};
use std::marker::Model;
use word::{Width, negate};

/// The bytes of a slot that holds a word.
pub const WORD_BYTES: u32 = 4;

/// The number of the first temporary's register.
const FIRST_REGISTER: u32 = 5;

/// The bytes of the two words of a loop.
const LOOP_BYTES: u32 = 8;

/// The variables with where they lie, how many control values there are, how many loops stand in one another at most,
/// and how registers are given out.
#[derive(Drop)]
pub struct Layout<'f> {
    declared: &'f [FlatVariable],
    /// The offset of each variable, and that of the result behind them.
    offsets: &'f [u32],
    controls: u32,
    depths: u32,
    allocation: Allocation<'f>,
}

impl<'f> Model for Layout<'f> {
    ghost use Rattle.std.specs.Prelude.{◌≡◌, ◌≤◌};
    ghost use Rattle.expression_code.specs.Layout.{Frame, offsets_from, temporaries_offset};

    ghost Value = { Frame };

    ghost view = { λ l. record {
      declared = l.declared.now;
      controls = l.controls;
      depths = l.depths;
      allocation = l.allocation;
    } };

    ghost invariant = { λ l. (l.offsets.now ≡ offsets_from 0 l.declared.now)
        × (temporaries_offset (record {
          declared = l.declared.now;
          controls = l.controls;
          depths = l.depths;
          allocation = l.allocation;
        }) ≤ 65536) };
}

impl<'f> Layout<'f> {
    /// The layout of variables that lie at these offsets, with the words behind them.
    pub fn new(
        declared: &'f [FlatVariable],
        offsets: &'f [u32],
        controls: u32,
        depths: u32,
        allocation: Allocation<'f>,
    ) -> Self
        requires offsets { offsets.now ≡ offsets_from 0 declared.now }
        requires room { temporaries_offset (record {
          declared = declared.now;
          controls = controls;
          depths = depths;
          allocation = allocation;
        }) ≤ 65536 }
        ensures { result ≡ record {
          declared = declared.now;
          controls = controls;
          depths = depths;
          allocation = allocation.entry;
        } }
    {
        Layout {
            declared,
            offsets,
            controls,
            depths,
            allocation,
        }
    }

    /// The variables as they are laid out.
    pub fn declared(&self) -> &[FlatVariable]
        ensures { result.now ≡ self.now.declared }
    {
        self.declared
    }

    /// Where a variable lies.
    pub fn variable(&self, number: u32) -> u32
        requires { number < length self.now.declared }
        ensures { result ≡ variable_offset self.now.declared number }
    {
        self.offset_at(number as usize)
    }

    /// The same by its index among the variables.
    pub fn offset_at(&self, index: usize) -> u32
        requires { index < length self.now.declared }
        ensures { result ≡ variable_offset self.now.declared index }
    {
        found(self.offsets, index)
    }

    /// The kind of a variable, or of its elements.
    pub fn kind(&self, number: u32) -> Kind
        requires { number < length self.now.declared }
        ensures { result ≡ kind_at self.now.declared number }
    {
        self.declared[number as usize].word.kind
    }

    /// The result's slot, behind the variables.
    pub fn result(&self) -> u32
        ensures place { result ≡ result_offset self.now.declared }
        ensures room { temporaries_offset self.now ≤ 65536 }
    {
        self.offsets[self.declared.len()]
    }

    /// A control value's slot, behind the result.
    pub fn control(&self, number: u32) -> u32
        requires { number ≤ self.now.controls }
        ensures { result ≡ control_offset self.now.declared number }
    {
        self.result() + WORD_BYTES * (1 + number)
    }

    /// The slot of a word that may have a home: a variable's, and behind all variables a control value's.
    pub fn word(&self, number: usize) -> u32
        requires { number < length self.now.declared + self.now.controls }
        ensures { result ≡ word_offset self.now.declared number }
    {
        let variables = self.declared.len();
        if number < variables {
            self.offset_at(number)
        } else {
            self.control((number - variables) as u32)
        }
    }

    /// The two words of a loop that so many others are around, behind the control values.
    pub fn next(&self, depth: u32) -> u32
        requires { depth ≤ self.now.depths }
        ensures { result ≡ next_offset self.now depth }
    {
        self.control(self.controls) + LOOP_BYTES * depth
    }

    /// Where the slots of temporaries lie, behind the loops.
    pub fn temporaries(&self) -> u32
        ensures { result ≡ temporaries_offset self.now }
    {
        self.next(self.depths)
    }

    /// How registers are given out.
    pub fn allocation(&self) -> &Allocation<'f>
        ensures { result.now ≡ self.now.allocation }
    {
        &self.allocation
    }

    /// The homes of the variables, by their numbers, and behind them those of the control values.
    pub fn homes(&self) -> &[Option<Reg>]
        ensures { result.now ≡ self.now.allocation.homes }
    {
        self.allocation.homes()
    }

    /// How many temporaries have registers.
    pub fn register_count(&self) -> u32
        ensures { result ≡ self.now.allocation.count }
    {
        self.allocation.count()
    }

    /// Whether numbers go into instructions.
    pub fn immediates(&self) -> bool
        ensures { result ≡ self.now.allocation.immediates }
    {
        self.allocation.immediates()
    }

    /// The offset of an array's element at an index that is a number, where numbers go into instructions and its access
    /// holds that.
    pub fn near_element(&self, array: u32, index: &Term) -> Option<u32>
        requires { array < length self.now.declared }
        ensures { result ≡ near_element self.now.declared self.now.allocation array (term_tree index.now) }
    {
        if self.allocation.immediates() {
            near_offset(self.variable(array), self.kind(array), number(index))
        } else {
            None
        }
    }

    /// The offset that an access at an index e + n or e - n adds where only e is computed, of the operator and its
    /// right operand, where numbers go into instructions.
    pub fn sum_offset(&self, array: u32, operator: BinaryOperator, right: &Term) -> Option<u32>
        requires { array < length self.now.declared }
        ensures { result ≡ sum_offset self.now.declared self.now.allocation array operator (term_tree right.now) }
    {
        if self.allocation.immediates() {
            let number = added(operator, number(right));
            near_sum(self.variable(array), self.kind(array), number)
        } else {
            None
        }
    }

    /// The part of an index that is computed.
    pub fn computed_index<'t>(&self, array: u32, index: &'t Term) -> &'t Term
        requires { array < length self.now.declared }
        ensures part { term_tree result.now
            ≡ computed_index self.now.declared self.now.allocation array (term_tree index.now) }
        ensures among { (count : ℕ) → IsAmong count (term_tree index.now) → IsAmong count (term_tree result.now) }
        ensures height { height_of (term_tree result.now) ≤ height_of (term_tree index.now) }
    {
        if let Term::Binary(_, operator, _, left, right) = index {
            if self.sum_offset(array, *operator, right).is_some() {
                return left;
            }
        }
        index
    }

    /// The offset that the access adds then.
    pub fn access_offset(&self, array: u32, index: &Term) -> u32
        requires { array < length self.now.declared }
        ensures { result ≡ access_offset self.now.declared self.now.allocation array (term_tree index.now) }
    {
        let own = self.variable(array);
        match index {
            Term::Binary(_, operator, _, _, right) => {
                self.sum_offset(array, *operator, right).unwrap_or(own)
            }
            _ => own,
        }
    }

    /// Where an access finds an array's element at an index at once: an offset on the frame's base, or one on a mirror
    /// of the part of the index that is computed.
    pub fn near_place(&self, array: u32, index: &Term) -> Option<NearPlace>
        requires { array < length self.now.declared }
        ensures place { result ≡ near_place self.now.declared self.now.allocation array (term_tree index.now) }
        ensures near { IfSome result (λ place. place.offset < 2048) }
    {
        if let Some(offset) = self.near_element(array, index) {
            return Some(NearPlace {
                base: Reg::X2,
                offset,
            });
        }
        let offset = self.access_offset(array, index);
        let part = self.computed_index(array, index);
        self.mirrored_place(self.kind(array), offset, part)
    }

    /// The place on the mirror of an index, of an array of a kind at an offset.
    fn mirrored_place(&self, kind: Kind, offset: u32, index: &Term) -> Option<NearPlace>
        ensures place { result ≡ mirrored_place self.now.allocation kind offset (term_tree index.now) }
        ensures near { IfSome result (λ place. place.offset < 2048) }
    {
        match index {
            Term::Variable(number) => mirrored_at(kind, offset, self.allocation.mirror(*number)),
            _ => None,
        }
    }

    /// The mirror of a variable follows it, where it has one.
    pub fn mirror(&self, code: &mut Vec<Instr>, number: u32) -> Result<(), AllocError>
        ensures { OnOk result (code.new.items ≡ code.old.items ++ mirror_code self.now.allocation number) }
    {
        let home = self.allocation.home(number);
        mirror(code, home, self.allocation.mirror(number))
    }

    /// Where a variable is: in its home, or in its slot.
    pub fn variable_location(&self, number: u32) -> Location
        requires { number < length self.now.declared }
        ensures { result ≡ variable_location self.now.declared self.now.allocation number }
    {
        Location::InSlot(self.variable(number)).unless_home(self.allocation.home(number))
    }

    /// Where a control value is: in its home, or in its slot.
    pub fn control_location(&self, number: u32) -> Location
        requires { number < self.now.controls }
        ensures { result ≡ control_location self.now number }
    {
        let home = self.allocation.control_home(self.declared.len(), number);
        Location::InSlot(self.control(number)).unless_home(home)
    }

    /// Whether nothing reads a control value.
    pub fn is_unread(&self, control: u32) -> bool
        ensures { result ≡ is_unread self.now.allocation control }
    {
        self.allocation.is_unread(control)
    }

    /// Where the temporary of a place is.
    pub fn temporary(&self, place: u32) -> Location
        requires { temporaries_offset self.now + 4 * slots_to self.now.allocation.count place ≤ 65536 }
        ensures { result ≡ temporary self.now.allocation.count (temporaries_offset self.now) place }
    {
        let count = self.allocation.count();
        if place < count {
            Location::InRegister(own_register(place))
        } else {
            Location::InSlot(self.temporaries() + WORD_BYTES * (place - count))
        }
    }

    /// The place so many behind one.
    pub fn place_behind(&self, place: u32, distance: u32) -> u32
        requires near { distance ≤ 2 }
        requires room { temporaries_offset self.now + 4 * slots_to self.now.allocation.count place ≤ 65536 }
        ensures { result ≡ place + distance }
    {
        // Few temporaries have registers, so the number of this one is not large.
        let _count = self.allocation.count();
        place + distance
    }

    /// The register that the value of a place is computed in: its temporary's own, or the spare one.
    pub fn working_register(&self, place: u32, spare: Reg) -> Reg
        ensures { result ≡ working_register self.now.allocation.count place spare }
    {
        if place < self.allocation.count() {
            own_register(place)
        } else {
            spare
        }
    }

    /// Whether a conversion to a kind leaves each value as it is, so that it needs no code.
    pub fn keeps_words(&self, kind: Kind) -> bool
        ensures { result ≡ keeps_words self.now.allocation kind }
    {
        self.allocation.immediates() && is_word(kind)
    }

    /// The home of an expression: of a variable that has one, also where a conversion keeps its value.
    pub fn home_of_term(&self, term: &Term) -> Option<Reg>
        ensures { result ≡ home_of_term self.now.allocation (term_tree term.now) }
    {
        match term {
            Term::Variable(number) => self.allocation.home(*number),
            Term::Convert(kind, operand) => {
                if self.keeps_words(*kind) {
                    self.home_of_term(operand)
                } else {
                    None
                }
            }
            Term::Number(_, _)
            | Term::Truth(_)
            | Term::Prefix(_, _, _)
            | Term::Binary(_, _, _, _, _)
            | Term::Rotate(_, _, _)
            | Term::Select(_, _, _)
            | Term::Element(_, _, _, _) => None,
        }
    }

    /// Whether an expression has a home.
    pub fn is_at_home(&self, term: &Term) -> bool
        ensures { result ≡ is_at_home self.now.allocation (term_tree term.now) }
    {
        self.home_of_term(term).is_some()
    }

    /// Where the value of an expression is behind its code.
    pub fn operand(&self, place: u32, term: &Term) -> Location
        requires { temporaries_offset self.now + 4 * slots_to self.now.allocation.count place ≤ 65536 }
        ensures { result ≡ operand (term_layout self.now) place (term_tree term.now) }
    {
        self.temporary(place).unless_home(self.home_of_term(term))
    }
}

/// Whether a kind is that of whole words.
fn is_word(kind: Kind) -> bool
    ensures { result ≡ is_word kind }
{
    match kind {
        Kind::Uint32 => true,
        Kind::Boolean | Kind::Uint8 | Kind::Uint16 => false,
    }
}

/// The offset of the element at an index that is known, of an array at an offset, where its access holds that.
fn near_offset(base: u32, kind: Kind, index: Option<u32>) -> Option<u32>
    ensures { result ≡ near_offset base kind index }
{
    let offset = u64::from(base) + u64::from(kind.element_bytes()) * u64::from(index?);
    if offset < u64::from(NEAR) {
        Some(offset as u32)
    } else {
        None
    }
}

/// What a mirror makes of an offset for an array of a kind, where that is the mirror's width and the access holds the
/// offset.
fn mirrored_at(kind: Kind, offset: u32, mirror: Option<Mirror>) -> Option<NearPlace>
    ensures place { result ≡ mirrored_at kind offset mirror }
    ensures near { IfSome result (λ place. place.offset < 2048) }
{
    let mirror = mirror?;
    if mirror.kind.element_bytes() == kind.element_bytes() && offset < NEAR {
        Some(NearPlace {
            base: mirror.register,
            offset,
        })
    } else {
        None
    }
}

/// The number that an operator adds to its left operand, modulo 2^32.
fn added(operator: BinaryOperator, right: Option<u32>) -> Option<u32>
    ensures { result ≡ added operator right }
{
    match operator {
        BinaryOperator::Add => right,
        BinaryOperator::Subtract => Some(negate(Width::W32, right?)),
        _ => None,
    }
}

/// An offset with so many elements on top, modulo 2^32, where an access holds that.
fn near_sum(base: u32, kind: Kind, number: Option<u32>) -> Option<u32>
    ensures { result ≡ near_sum base kind number }
{
    let past = u64::from(kind.element_bytes()) * u64::from(number?);
    let offset = (u64::from(base) + past) % (1_u64 << 32);
    if offset < u64::from(NEAR) {
        Some(offset as u32)
    } else {
        None
    }
}

/// The offset that is listed for an index.
fn found(offsets: &[u32], index: usize) -> u32
    ensures { result ≡ unwrap_or (slice_get offsets.now index) 0 }
{
    offsets.get(index).copied().unwrap_or(0)
}

/// The register of a place that has one.
fn own_register(place: u32) -> Reg
    requires { place < 16 }
    ensures { result ≡ value_register + place }
{
    Reg::from_bits(FIRST_REGISTER + place)
}

/// How many words a variable takes.
fn words(variable: &FlatVariable) -> u32
    requires { words_of variable.now ≤ 16384 }
    ensures { result ≡ words_of variable.now }
{
    match variable.elements {
        None => 1,
        Some(size) => {
            let bytes = u64::from(size) * u64::from(variable.word.kind.element_bytes());
            bytes.div_ceil(4) as u32
        }
    }
}

/// Whether a word has a slot: it has no home, or it is one of the first so many, the parameters.
fn has_slot(given: usize, homes: &[Option<Reg>], number: usize) -> bool
    ensures { result ≡ has_slot given homes.now number }
{
    number < given || homes.get(number).copied().unwrap_or(None).is_none()
}

/// A variable as it is laid out: one that has no slot takes no words, as an array of no elements.
fn laid(variable: FlatVariable, has_slot: bool) -> FlatVariable
    ensures { result ≡ (if has_slot then variable else without_words variable) }
{
    if has_slot {
        variable
    } else {
        FlatVariable {
            word: variable.word,
            mutable: variable.mutable,
            elements: Some(0),
        }
    }
}

/// The variables as they are laid out, where so many first ones are parameters.
pub fn slotted(
    alloc: Global,
    given: usize,
    homes: &[Option<Reg>],
    declared: &[FlatVariable],
) -> Result<Vec<FlatVariable>, AllocError>
    ensures { IfOk result (λ laid. laid.items ≡ slotted given homes.now declared.now) }
{
    let mut all = Vec::with_capacity(alloc, declared.len())?;
    for (number, variable) in declared.iter().enumerate() {
        all.push(laid(*variable, has_slot(given, homes, number)))?;
    }
    Ok(all)
}

/// Where each variable lies, and what comes behind them.
pub fn offsets(alloc: Global, declared: &[FlatVariable]) -> Result<Vec<u32>, AllocError>
    requires { 4 * declared_words declared.now ≤ 65536 }
    ensures { IfOk result (λ offsets. offsets.items ≡ offsets_from 0 declared.now) }
{
    let mut offsets = Vec::new(alloc);
    let mut low = 0;
    for variable in declared {
        offsets.push(low)?;
        low += WORD_BYTES * words(variable);
    }
    offsets.push(low)?;
    Ok(offsets)
}

/// How many words the variable of a parameter takes.
fn parameter_words(parameter: Param) -> u32
    ensures { result ≡ words_of (declaration_of parameter) }
{
    parameter.words()
}

/// The parameters with their slots, whose offsets these are.
pub fn slots(alloc: Global, parameters: &[Param]) -> Result<Vec<Slot>, AllocError>
    requires { 4 * declared_words (map declaration_of parameters.now) ≤ 65536 }
    ensures { IfOk result (λ slots. slots.items ≡ slots_from 0 parameters.now) }
{
    let mut slots = Vec::with_capacity(alloc, parameters.len())?;
    let mut low = 0;
    for parameter in parameters {
        slots.push(Slot {
            param: *parameter,
            offset: low,
        })?;
        low += WORD_BYTES * parameter_words(*parameter);
    }
    Ok(slots)
}
