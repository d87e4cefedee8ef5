//! Heads of ranges.

ghost use Rattle.std.specs.Prelude.{option_map};
ghost use Rattle.row_grammar.specs.Limits.{reads};
ghost use Rattle.row_reader.specs.Expressions as rules;
ghost use Rattle.row_reader.specs.Expressions.{grammar};
ghost use Rattle.row_tokens.specs.View.{words_of};
ghost use Rattle.row_expressions.specs.GoesOn.{GoesOn};
ghost use Rattle.row_expressions.specs.View.{located};
ghost use Rattle.row_expressions.specs.Heads.{LeadsTo, low_step, negated_rule, range_rest};

use crate::build::{Located, Range};
use crate::leaves::in_list;
use memory::Heap;
use row_reader::reader::{Parsed, Reader, before, expect, sees};
use row_tokens::{Token, TokenKind};

/// The head of a range: its tokens up to the first expression in it.
#[derive(Drop)]
pub enum RangeHead<A: Heap> {
    /// The values of IN with the offset of a NOT before it, or no range.
    Whole(Option<(Option<u32>, Range<A>)>),
    /// BETWEEN, by the offset of a NOT before it and its own.
    Between(Option<u32>, u32),
}

// A NOT and the head of a range after it.
#[tactic(auto, unfolding(row_reader::specs::Expressions::negated_range, row_reader::specs::Expressions::range, row_reader::specs::Expressions::between))]
fn negated_head<'t, A: Heap>(reader: Reader<A>, tokens: &'t [Token<'t>]) -> Parsed<'t, RangeHead<A>>
    ensures { LeadsTo (range_rest reader.run_limit reader.depth_limit) result (reads grammar reader.run_limit reader.depth_limit negated_rule (words_of tokens.now)) }
{
    let (not, rest) = expect(TokenKind::Not, tokens)?;
    let not = Some(not.offset);
    if sees(TokenKind::Between, rest) {
        let (word, rest) = expect(TokenKind::Between, rest)?;
        return Ok((RangeHead::Between(not, word.offset), rest));
    }
    let (values, rest) = in_list(reader, rest)?;
    Ok((RangeHead::Whole(Some((not, values))), rest))
}

/// The range after an operand, whole where it contains no expression, or none.
#[tactic(auto, unfolding(row_reader::specs::Expressions::range_tail, row_reader::specs::Expressions::negated_range, row_reader::specs::Expressions::between, row_reader::specs::Expressions::in_list))]
pub fn range_head<'t, A: Heap>(
    reader: Reader<A>,
    tokens: &'t [Token<'t>],
) -> Parsed<'t, RangeHead<A>>
    ensures { LeadsTo (range_rest reader.run_limit reader.depth_limit) result (reads grammar reader.run_limit reader.depth_limit rules.range_tail (words_of tokens.now)) }
{
    if sees(TokenKind::Not, tokens) {
        negated_head(reader, tokens)
    } else if sees(TokenKind::Between, tokens) {
        let (word, rest) = expect(TokenKind::Between, tokens)?;
        Ok((RangeHead::Between(None, word.offset), rest))
    } else if sees(TokenKind::In, tokens) {
        let (values, rest) = in_list(reader, tokens)?;
        Ok((RangeHead::Whole(Some((None, values))), rest))
    } else {
        Ok((RangeHead::Whole(None), tokens))
    }
}

/// The low bound of a BETWEEN and the AND after it.
pub fn low_bound<'t, A: Heap>(read: Parsed<'t, Located<A>>) -> Parsed<'t, Located<A>>
    ensures { GoesOn (λ t. located t) low_step (λ t. located t) read.entry result }
{
    let (low, rest) = read?;
    let ((low, _), rest) = before(low, expect(TokenKind::And, rest))?;
    Ok((low, rest))
}
