// Lines about the active document's history, and the replies that tell how it stands.
ghost use Rattle.std.specs.Prelude.{◌≡◌, ◌⊎◌, Some};
ghost use Rattle.session.specs.declared.line.Line.TheVariants.{Begin};
ghost use Rattle.refusals.specs.declared.refusal.Refusal.TheVariants as refusals;
ghost use Rattle.session.specs.declared.reply.Reply.TheVariants as replies;
ghost use Rattle.map_json.specs.Trees.{text_of};
ghost use Rattle.undo_stack.specs.Reading.{text_at};
ghost use Rattle.undo_stack.specs.Macros.{Begins};
ghost use Rattle.undo_stack.specs.Stacks.{history, macros, nestings, Holds};
ghost use Rattle.document_lines.specs.Acts.{LimitsTo, Calls, action_or};
ghost use Rattle.document_lines.specs.Answers.{call_reply, state_reply, step_text_reply};
ghost use Rattle.document_lines.specs.Kinds.{DoneKinds};
ghost use Rattle.document_lines.specs.Planning.{IsDone, refused};
ghost use Rattle.document_lines.specs.declared.planned.Planned.TheVariants as planned;

use crate::planned::Planned;
use crate::planning::refused;
use command_api::Command;
use map_json::write_map;
use map_model::{Document, MapText};
use refusals::{EditFault, Refusal, StackFault};
use session::{MapBytes, Reply, Text};
use std::alloc::Global;
use undo_stack::Stack;
use undo_stack::limits::MAX_LIMIT;

/// How a stack stands.
pub fn state_of<C: Command>(stack: &Stack<C>) -> Reply
    ensures { result ≡ state_reply (history C.change stack.now) }
{
    Reply::State {
        index: stack.index() as u64,
        count: stack.count() as u64,
        is_clean: stack.is_clean(),
        depth: stack.depth() as u64,
    }
}

/// The reply that gives a text, where there is memory for it.
pub fn text_reply(alloc: Global, text: &str) -> Reply
    ensures { (result ≡ replies.Text text.now) ⊎ (result ≡ replies.Refused refusals.NoMemory) }
{
    match String::from_str(alloc, text) {
        Ok(text) => Reply::Text(MapText::new(text)),
        Err(_) => Reply::Refused(Refusal::NoMemory),
    }
}

/// The reply to a call of the stack that has been answered so: how the stack stands, or the refusal.
pub fn answered<C: Command>(stack: &Stack<C>, answer: Result<(), StackFault>) -> Reply
    ensures { result ≡ call_reply answer (history C.change stack.now) }
{
    match answer {
        Ok(()) => state_of(stack),
        Err(fault) => Reply::Refused(Refusal::from(fault)),
    }
}

/// The plan of a line that was such a call.
#[inline(never)]
pub fn plan_answered<C: Command>(stack: &Stack<C>, answer: Result<(), StackFault>) -> Planned
    ensures { result ≡ planned.Reply (call_reply answer (history C.change stack.now)) }
{
    Planned::Reply(answered(stack, answer))
}

/// Plans the text of the document's map, where there is memory for it.
#[inline(never)]
pub fn plan_show(alloc: Global, document: &Document) -> Planned
    ensures { (result ≡ planned.Reply (replies.Map (text_of document.now.map))) ⊎ (result ≡ refused refusals.NoMemory) }
{
    match write_map(alloc, document.map()) {
        Ok(bytes) => Planned::Reply(Reply::Map(MapBytes::new(bytes))),
        Err(_) => refused(Refusal::NoMemory),
    }
}

/// Plans the text for lists of the step with a number.
#[inline(never)]
pub fn plan_step_text<C: Command>(alloc: Global, stack: &Stack<C>, number: u32) -> Planned
    ensures { (result ≡ planned.Reply (step_text_reply (text_at (history C.change stack.now) number))) ⊎ (result ≡ refused refusals.NoMemory) }
{
    match stack.text(number as usize) {
        Some(text) => Planned::Reply(text_reply(alloc, text)),
        None => refused(Refusal::Edit(EditFault::OutOfRange)),
    }
}

/// Begins a macro. If the line gives no action text, the macro's text is that too.
#[inline(never)]
pub fn plan_begin<C: Command>(
    stack: &mut Stack<C>,
    text: &Text<'_>,
    action: &Option<Text<'_>>,
) -> Planned
    requires { Holds C.change stack.old }
    ensures sound { Holds C.change stack.new }
    ensures plans { IsDone (Calls (Begins text.now (action_or text.now action.now))) (history C.change stack.old) result (history C.change stack.new) }
    ensures kinds { DoneKinds (Begin text.now action.now) (history C.change stack.old) result (macros stack.old) (macros stack.new) }
{
    let text = text.as_str();
    let action = match action {
        Some(action) => action.as_str(),
        None => text,
    };
    let answer = stack.begin_macro(text, action);
    Planned::Reply(answered(stack, answer))
}

/// Sets the undo limit of a document.
#[inline(never)]
pub fn plan_limit<C: Command>(stack: &mut Stack<C>, limit: u32) -> Planned
    requires { Holds C.change stack.old }
    ensures sound { Holds C.change stack.new }
    ensures plans { IsDone (LimitsTo limit) (history C.change stack.old) result (history C.change stack.new) }
    ensures kept { nestings stack.new ≡ nestings stack.old }
{
    let limit = limit as usize;
    if stack.count() > 0 {
        return refused(Refusal::Stack(StackFault::NotEmpty));
    }
    if limit > MAX_LIMIT {
        return refused(Refusal::Edit(EditFault::OutOfRange));
    }
    let answer = stack.set_undo_limit(limit);
    Planned::Reply(answered(stack, answer))
}
