// An expression, read from its text.
ghost use Rattle.std.specs.Prelude.{◌≡◌, ◌≤◌, ◌+◌, ◌-◌, length, take, IfOk, IfErr};
ghost use Rattle.meaning_texts.specs.Limits.{expression_limit};
ghost use Rattle.meaning_texts.specs.Expressions.{ExpressionText};
ghost use Rattle.request_parser.specs.Reads.{HaltsIn, IsOfGrammar, IsWrittenAs};
ghost use Rattle.request_parser.specs.Refused.{IsExpressionRefusal};

use crate::bytes::{Class, Wanted};
use crate::cursor::{Cursor, Stop};
use crate::fault::ExpressionFault;
use object_values::{EXPRESSION_LIMIT, Expression};
use std::alloc::Global;

/// The expression of a text. Of a longer text only the first 1,000 bytes are read.
pub fn read_expression(alloc: Global, text: &[u8]) -> Result<Expression, ExpressionFault>
    ensures ok { IfOk result (ExpressionText text.now) }
    ensures err { IfErr result (IsExpressionRefusal text.now) }
{
    let counted = &text[..text.len().min(EXPRESSION_LIMIT)];
    let mut cursor = Cursor::new(counted);
    match cursor.expression(alloc) {
        Ok(expression) => within_limit(text, expression),
        Err(Stop::Unexpected) => {
            Err(ExpressionFault::BadAt(place_before(cursor.left(), counted)))
        }
        Err(Stop::Memory) => Err(ExpressionFault::Memory),
    }
}

// The place, from 1, that stands before the last so many bytes.
fn place_before(left: usize, counted: &[u8]) -> u32
    requires within { left ≤ length counted.now }
    requires short { length counted.now ≤ expression_limit }
    ensures { result ≡ length counted.now - left + 1 }
{
    (counted.len() - left + 1) as u32
}

// The expression, unless the text goes on after the bytes that it was read from.
fn within_limit(text: &[u8], expression: Expression) -> Result<Expression, ExpressionFault>
    requires { IsWrittenAs (take expression_limit text.now) expression }
    ensures ok { IfOk result (ExpressionText text.now) }
    ensures err { IfErr result (IsExpressionRefusal text.now) }
{
    if text.len() > EXPRESSION_LIMIT {
        return Err(ExpressionFault::BadAt(EXPRESSION_LIMIT as u32 + 1));
    }
    Ok(expression)
}

impl<'t> Cursor<'t> {
    /// The expression that all bytes that are left are.
    fn expression(&mut self, alloc: Global) -> Result<Expression, Stop>
        ensures ok { IfOk result (IsWrittenAs self.old) }
        ensures err { IfErr result (HaltsIn IsOfGrammar self.old self.new) }
    {
        self.run(Class::Space);
        let source = self.word(alloc, Wanted::Name)?;
        let found = self.items(alloc)?;
        Ok(found.into_expression(source))
    }
}
