// The tokens of texts.
use crate::outcome::EcmaOutcome;
use crate::reading::{Asked, EcmaOptions, answer};
use crate::room::Room;
use ecma_commands::findings::{Place, put_quoted};
use ecma_commands::listing::{kind_of, text_at};
use program_tokens::texts::tokens_of;
use reporting::Refusal;
use std::alloc::{AllocError, Global};
use swc_ecma_parser::input::token::{Token, TokenAndSpan};
use tree_types::tree::Goal;

/// Writes the tokens of a text. Without a goal it is read as a script.
pub(crate) fn tokens(
    alloc: Global,
    text: &[u8],
    options: EcmaOptions,
    room: &mut Room<'_>,
) -> EcmaOutcome {
    answer(
        text,
        options,
        |text, asked| put_tokens(alloc, text, asked, room),
    )
}

fn put_tokens(
    alloc: Global,
    text: &str,
    asked: Asked,
    room: &mut Room<'_>,
) -> Result<EcmaOutcome, AllocError> {
    let goal = asked.job.goal.unwrap_or(Goal::Script);
    let tokens = tokens_of(alloc, text, goal.is_module())?;
    if let Some(
        TokenAndSpan {
            token: Token::Error(fault),
            ..
        },
    ) = tokens.last()
    {
        let refusal = Refusal::Fault(fault.try_clone()?);
        return EcmaOutcome::refused(alloc, text, &refusal, asked.job.levels, room);
    }
    let place = Place::new(alloc, "", text.as_bytes())?;
    room.put("[");
    for (number, token) in tokens.iter().enumerate() {
        let mut item = String::new(alloc);
        if number > 0 {
            item.push_str(",")?;
        }
        put_token(&mut item, &place, text, token)?;
        room.put(item.as_str());
    }
    room.put("]");
    Ok(EcmaOutcome::written(Some(goal), room))
}

/// Writes a token: what it is, where, and how it is written.
fn put_token(
    out: &mut String,
    place: &Place<'_>,
    text: &str,
    token: &TokenAndSpan,
) -> Result<(), AllocError> {
    let kind = kind_of(&token.token);
    let (start, end) = (place.units(token.span.lo), place.units(token.span.hi));
    write!(
        out,
        "{{\"type\":\"{kind}\",\"start\":{start},\"end\":{end},\"text\":"
    )?;
    put_quoted(out, text_at(text, token.span))?;
    out.push_str("}")
}
