//! Lines and their statements.
ghost use Rattle.std.specs.Prelude.{◌≡◌, ◌<◌, [], ◌∷◌, ◌++◌, length, map, OnOk, IfOk, IfSome, IfNone, All};
ghost use Rattle.kmp_base.specs.Gives.{Gives};
ghost use Rattle.asm_parse.specs.Lines.{labels_in, behind_labels, form_in, named_in, line_of};
ghost use Rattle.asm_parse.specs.Statements.{IsProperBody};

use crate::bodies::statement_in;
use crate::forms::{Form, form_of};
use crate::statement::{Body, Part};
use asm_token::{AsmCause, LineFault, Name, Token, tokens_of};
use kmp_base::Fault;
use std::alloc::{AllocError, Global};

/// The label at the front, and what stands behind its colon.
fn split_label<'t, 'a>(tokens: &'t [Token<'a>]) -> Option<(&'t Name<'a>, &'t [Token<'a>])>
    ensures labels { IfSome result (λ l. labels_in tokens.now ≡ l.0.now ∷ labels_in l.1.now) }
    ensures behind { IfSome result (λ l. behind_labels tokens.now ≡ behind_labels l.1.now) }
    ensures shorter { IfSome result (λ l. length l.1.now < length tokens.now) }
    ensures no_label { IfNone result (labels_in tokens.now ≡ []) }
    ensures all_behind { IfNone result (behind_labels tokens.now ≡ tokens.now) }
{
    match tokens {
        [name, Token::Colon, behind @ ..] => match name {
            Token::Name(label) => Some((label, behind)),
            _ => None,
        },
        _ => None,
    }
}

/// Puts the labels at the front behind `bodies`, and gives the tokens behind them.
fn take_labels<'t, 'a>(
    bodies: &mut Vec<Body<'a>>,
    tokens: &'t [Token<'a>],
) -> Result<&'t [Token<'a>], AllocError>
    requires proper { All IsProperBody bodies.old.items }
    ensures labels { OnOk result (bodies.new.items ≡ bodies.old.items ++ map Body.Label (labels_in tokens.now)) }
    ensures proper { OnOk result (All IsProperBody bodies.new.items) }
    ensures rest { IfOk result (λ rest. rest.now ≡ behind_labels tokens.now) }
{
    let (_, start) = tokens.split_at(0);
    let mut rest = start;
    'labels: while let Some((label, behind)) = split_label(rest) {
        bodies.push(Body::Label(label.copy()))?;
        rest = behind;
    }
    Ok(rest)
}

/// The statement of a form in the part in force, and the part that is in force behind it.
#[tactic(auto, unfolding(crate::specs::Lines::form_in))]
fn form_in<'a>(
    alloc: Global,
    part: Part,
    form: Form,
    tokens: &[Token<'a>],
) -> Result<(Vec<Body<'a>>, Part), LineFault>
    ensures value { Gives (λ x. (x.0.items, x.1)) result (form_in part form tokens.now) }
    ensures proper { IfOk result (λ x. All IsProperBody x.0.items) }
{
    if !form.stands_in(part) {
        return Err(Fault::Cause(AsmCause::BadOperand));
    }
    let bodies = statement_in(alloc, form, tokens)?;
    Ok((bodies, form.part_behind(part)))
}

/// What stands behind the labels.
#[tactic(auto, unfolding(crate::specs::Lines::named_in))]
fn named_in<'a>(
    alloc: Global,
    part: Part,
    tokens: &[Token<'a>],
) -> Result<(Vec<Body<'a>>, Part), LineFault>
    ensures value { Gives (λ x. (x.0.items, x.1)) result (named_in part tokens.now) }
    ensures proper { IfOk result (λ x. All IsProperBody x.0.items) }
{
    match tokens.split_first() {
        None => Ok((Vec::new(alloc), part)),
        Some((Token::Name(name), rest)) => match form_of(name.as_slice()) {
            Some(form) => form_in(alloc, part, form, rest),
            None => Err(Fault::Cause(AsmCause::UnknownName)),
        },
        _ => Err(Fault::Cause(AsmCause::BadOperand)),
    }
}

/// What a line holds in the part in force, and the part that is in force behind it.
#[tactic(auto, unfolding(crate::specs::Lines::line_of))]
pub fn line_of(alloc: Global, part: Part, line: &[u8]) -> Result<(Vec<Body<'_>>, Part), LineFault>
    ensures value { Gives (λ x. (x.0.items, x.1)) result (line_of part line.now) }
    ensures proper { IfOk result (λ x. All IsProperBody x.0.items) }
{
    let tokens = tokens_of(alloc, line)?;
    let mut bodies = Vec::new(alloc);
    let rest = take_labels(&mut bodies, &tokens)?;
    let (mut named, behind) = named_in(alloc, part, rest)?;
    bodies.append(&mut named)?;
    Ok((bodies, behind))
}
