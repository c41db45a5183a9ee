ghost use Rattle.std.specs.Prelude.{◌≡◌, ◌≤◌, ◌<◌, List, Option, OnOk, length, map};
ghost use Rattle.std.specs.Option.{option_map};
ghost use Rattle.syntax.specs.private.Machine.{ParserState, exported, result_type as result_type_state, parameter_name};
ghost use Rattle.syntax.specs.private.Machine.{array_parameter, fixed_parameter, labelled, mutable_parameter};
ghost use Rattle.syntax.specs.private.Machine.{parameter as parameter_state};
ghost use Rattle.syntax.specs.private.Machine.{parameters as parameters_state, returned as returned_state};
ghost use Rattle.syntax.specs.private.Machine.{procedure as procedure_state};
ghost use Rattle.syntax.specs.private.ParserViews.{Leads};
ghost use Rattle.syntax.specs.Below.{parameter_tree, ParameterTree, Place as PlaceOf, procedure_tree, ProcedureTree};
ghost use Rattle.syntax.specs.Below.{return_tree, ReturnTree, WordType as WordTypeOf};

use super::{ParseFault, Parser};
use crate::{
    Form, Keyword, Kind, Label, Parameter, Place, Procedure, Return, Sign, TokenKind, WordType,
};

impl<'t> Parser<'t> {
    pub fn procedure(&mut self) -> Result<Procedure, ParseFault>
        ensures leads { (k : ProcedureTree → ParserState)
            → Leads (procedure_state k) (λ p. k (procedure_tree p)) result self.old self.new }
        ensures shorter { OnOk result (length self.new.rest.now < length self.old.rest.now) }
    {
        let export = self.exported()?;
        let result = self.result_type()?;
        let name = self.expect(TokenKind::Name)?;
        self.pass(TokenKind::Sign(Sign::OpenRound))?;
        let parameters = self.parameters()?;
        self.pass(TokenKind::Sign(Sign::OpenCurly))?;
        let body = self.statements()?;
        let returned = self.returned()?;
        let text = self.name(name)?;
        Ok(Procedure {
            export,
            result,
            place: name.place,
            name: text,
            parameters,
            body,
            returned,
        })
    }

    /// Where `export` stands.
    fn exported(&mut self) -> Result<Option<Place>, ParseFault>
        ensures leads { (k : Option PlaceOf → ParserState) → Leads (exported k) k result self.old self.new }
        ensures shorter { OnOk result (length self.new.rest.now ≤ length self.old.rest.now) }
    {
        match self.takes(TokenKind::Keyword(Keyword::Export))? {
            Some(word) => Ok(Some(word.place)),
            None => Ok(None),
        }
    }

    /// The type of a result, where there is one.
    fn result_type(&mut self) -> Result<Option<WordType>, ParseFault>
        ensures leads { (k : Option WordTypeOf → ParserState) → Leads (result_type_state k) k result self.old self.new }
        ensures shorter { OnOk result (length self.new.rest.now < length self.old.rest.now) }
    {
        if self.skips(TokenKind::Keyword(Keyword::Void))? {
            return Ok(None);
        }
        let label = self.label()?;
        let kind = self.kind()?;
        Ok(Some(WordType { kind, label }))
    }

    /// The parameters, after their opening bracket, and the closing one.
    fn parameters(&mut self) -> Result<Vec<Parameter>, ParseFault>
        ensures leads { (k : List ParameterTree → ParserState)
            → Leads (parameters_state k) (λ ps. k (map parameter_tree ps.items)) result self.old self.new }
        ensures shorter { OnOk result (length self.new.rest.now ≤ length self.old.rest.now) }
    {
        let mut parameters = Vec::new(self.alloc);
        if self.skips(TokenKind::Sign(Sign::CloseRound))? {
            return Ok(parameters);
        }
        'list: loop {
            parameters.push(self.parameter()?)?;
            if !self.skips(TokenKind::Sign(Sign::Comma))? {
                break 'list;
            }
        }
        self.pass(TokenKind::Sign(Sign::CloseRound))?;
        Ok(parameters)
    }

    fn parameter(&mut self) -> Result<Parameter, ParseFault>
        ensures leads { (k : ParameterTree → ParserState)
            → Leads (parameter_state k) (λ p. k (parameter_tree p)) result self.old self.new }
        ensures shorter { OnOk result (length self.new.rest.now < length self.old.rest.now) }
    {
        let label = self.label()?;
        self.labelled(label)
    }

    /// A parameter, after its label.
    fn labelled(&mut self, label: Label) -> Result<Parameter, ParseFault>
        ensures leads { (k : ParameterTree → ParserState)
            → Leads (labelled label k) (λ p. k (parameter_tree p)) result self.old self.new }
        ensures shorter { OnOk result (length self.new.rest.now ≤ length self.old.rest.now) }
    {
        if self.skips(TokenKind::Keyword(Keyword::Mut))? {
            return self.mutable_parameter(label);
        }
        self.fixed_parameter(label)
    }

    /// A parameter that may be changed, after `mut`: an array.
    fn mutable_parameter(&mut self, label: Label) -> Result<Parameter, ParseFault>
        ensures leads { (k : ParameterTree → ParserState)
            → Leads (mutable_parameter label k) (λ p. k (parameter_tree p)) result self.old self.new }
        ensures shorter { OnOk result (length self.new.rest.now ≤ length self.old.rest.now) }
    {
        let kind = self.kind()?;
        self.pass(TokenKind::Sign(Sign::OpenSquare))?;
        self.array_parameter(label, kind, Form::MutableArray)
    }

    /// A parameter that stays as it is, after its label.
    fn fixed_parameter(&mut self, label: Label) -> Result<Parameter, ParseFault>
        ensures leads { (k : ParameterTree → ParserState)
            → Leads (fixed_parameter label k) (λ p. k (parameter_tree p)) result self.old self.new }
        ensures shorter { OnOk result (length self.new.rest.now ≤ length self.old.rest.now) }
    {
        let kind = self.kind()?;
        if self.skips(TokenKind::Sign(Sign::OpenSquare))? {
            return self.array_parameter(label, kind, Form::FixedArray);
        }
        self.parameter_name(label, kind, Form::SingleWord, 1)
    }

    /// An array as a parameter, after the opening bracket of its length.
    fn array_parameter(
        &mut self,
        label: Label,
        kind: Kind,
        form: Form,
    ) -> Result<Parameter, ParseFault>
        ensures leads { (k : ParameterTree → ParserState)
            → Leads (array_parameter label kind form k) (λ p. k (parameter_tree p)) result self.old self.new }
        ensures shorter { OnOk result (length self.new.rest.now ≤ length self.old.rest.now) }
    {
        let length = self.length()?;
        self.parameter_name(label, kind, form, length)
    }

    /// The name of a parameter, after its type.
    fn parameter_name(
        &mut self,
        label: Label,
        kind: Kind,
        form: Form,
        words: u16,
    ) -> Result<Parameter, ParseFault>
        ensures leads { (k : ParameterTree → ParserState)
            → Leads (parameter_name label kind form words k) (λ p. k (parameter_tree p)) result self.old self.new }
        ensures shorter { OnOk result (length self.new.rest.now ≤ length self.old.rest.now) }
    {
        let token = self.expect(TokenKind::Name)?;
        let name = self.name(token)?;
        Ok(Parameter {
            label,
            kind,
            form,
            length: words,
            place: token.place,
            name,
        })
    }

    /// The `return` of a body, where it has one, and the closing bracket.
    fn returned(&mut self) -> Result<Option<Return>, ParseFault>
        ensures leads { (k : Option ReturnTree → ParserState)
            → Leads (returned_state k) (λ r. k (option_map return_tree r)) result self.old self.new }
        ensures shorter { OnOk result (length self.new.rest.now ≤ length self.old.rest.now) }
    {
        let Some(word) = self.takes(TokenKind::Keyword(Keyword::Return))? else {
            self.pass(TokenKind::Sign(Sign::CloseCurly))?;
            return Ok(None);
        };
        let value = self.expression_to(TokenKind::Sign(Sign::Semicolon))?;
        self.pass(TokenKind::Sign(Sign::CloseCurly))?;
        Ok(Some(Return {
            place: word.place,
            value,
        }))
    }
}
