// What a step does, and who does it.
ghost use Rattle.std.specs.Prelude.{◌≡◌, ◌≢◌, Ok, Err, IfOk, IfErr, codes, option_and_then};
ghost use Rattle.serde_json.specs.View.{view};
ghost use Rattle.serde_json.specs.Find.{as_bool};
ghost use Rattle.cj_manifest.specs.Members.{present as member_in};
ghost use Rattle.cj_explain.specs.declared.members.wrong.Wrong.TheVariants.{Memory};
ghost use Rattle.cj_explain.specs.members.Actions as said;

use crate::members::member::{may, must};
use crate::members::want::{Range, Want, Word};
use crate::members::wrong::{Wrong, told};
use cj_script::{Plain, Verb, Write, present, verb_named};
use serde_json::Value;
use std::alloc::Global;

fn moment(alloc: Global, path: &str, step: &Value) -> Result<(), Wrong>
    ensures ok { IfOk result (λ _. said.moment path.now (view step.now) ≡ Ok tt) }
    ensures err { IfErr result (λ e. e ≢ Memory → said.moment path.now (view step.now) ≡ Err e) }
{
    must(alloc, path, step, "at", Want::Text(Word::Time))
}

fn key(alloc: Global, path: &str, step: &Value) -> Result<(), Wrong>
    ensures ok { IfOk result (λ _. said.key path.now (view step.now) ≡ Ok tt) }
    ensures err { IfErr result (λ e. e ≢ Memory → said.key path.now (view step.now) ≡ Err e) }
{
    must(alloc, path, step, "key", Want::Text(Word::Key))
}

fn most(alloc: Global, path: &str, step: &Value) -> Result<(), Wrong>
    ensures ok { IfOk result (λ _. said.most path.now (view step.now) ≡ Ok tt) }
    ensures err { IfErr result (λ e. e ≢ Memory → said.most path.now (view step.now) ≡ Err e) }
{
    must(alloc, path, step, "max", Want::Number(Range::Max))
}

fn manifest(alloc: Global, path: &str, step: &Value) -> Result<(), Wrong>
    ensures ok { IfOk result (λ _. said.manifest path.now (view step.now) ≡ Ok tt) }
    ensures err { IfErr result (λ e. e ≢ Memory → said.manifest path.now (view step.now) ≡ Err e) }
{
    must(alloc, path, step, "object", Want::Manifest)
}

fn created(alloc: Global, path: &str, step: &Value) -> Result<(), Wrong>
    ensures ok { IfOk result (λ _. said.created path.now (view step.now) ≡ Ok tt) }
    ensures err { IfErr result (λ e. e ≢ Memory → said.created path.now (view step.now) ≡ Err e) }
{
    moment(alloc, path, step)?;
    manifest(alloc, path, step)
}

fn written(alloc: Global, path: &str, verb: Write, step: &Value) -> Result<(), Wrong>
    ensures ok { IfOk result (λ _. said.written path.now verb (view step.now) ≡ Ok tt) }
    ensures err { IfErr result (λ e. e ≢ Memory →
        said.written path.now verb (view step.now) ≡ Err e) }
{
    match verb {
        Write::CreateCron => created(alloc, path, step),
        Write::UpdateCron => manifest(alloc, path, step),
        Write::CreateJob => created(alloc, path, step),
        Write::UpdateJob => manifest(alloc, path, step),
    }
}

fn ended(alloc: Global, path: &str, step: &Value) -> Result<(), Wrong>
    ensures ok { IfOk result (λ _. said.ended path.now (view step.now) ≡ Ok tt) }
    ensures err { IfErr result (λ e. e ≢ Memory → said.ended path.now (view step.now) ≡ Err e) }
{
    moment(alloc, path, step)?;
    must(alloc, path, step, "outcome", Want::Text(Word::End))?;
    key(alloc, path, step)
}

fn watched(alloc: Global, path: &str, step: &Value) -> Result<(), Wrong>
    ensures ok { IfOk result (λ _. said.watched path.now (view step.now) ≡ Ok tt) }
    ensures err { IfErr result (λ e. e ≢ Memory → said.watched path.now (view step.now) ≡ Err e) }
{
    must(alloc, path, step, "version", Want::Number(Range::Any))?;
    most(alloc, path, step)
}

fn is_again(step: &Value) -> bool
    ensures { result ≡ said.is_again
        (option_and_then as_bool (member_in (codes "retry") (view step.now))) }
{
    match present(step, "retry") {
        None => false,
        Some(found) => found.as_bool().unwrap_or(false),
    }
}

fn retried(alloc: Global, path: &str, step: &Value) -> Result<(), Wrong>
    ensures ok { IfOk result (λ _. said.retried path.now (view step.now) ≡ Ok tt) }
    ensures err { IfErr result (λ e. e ≢ Memory → said.retried path.now (view step.now) ≡ Err e) }
{
    if is_again(step) {
        moment(alloc, path, step)
    } else {
        Ok(())
    }
}

fn finished(alloc: Global, path: &str, step: &Value) -> Result<(), Wrong>
    ensures ok { IfOk result (λ _. said.finished path.now (view step.now) ≡ Ok tt) }
    ensures err { IfErr result (λ e. e ≢ Memory → said.finished path.now (view step.now) ≡ Err e) }
{
    may(alloc, path, step, "retry", Want::Truth)?;
    retried(alloc, path, step)?;
    may(alloc, path, step, "reasons", Want::Reasons)
}

fn plain(alloc: Global, path: &str, verb: Plain, step: &Value) -> Result<(), Wrong>
    ensures ok { IfOk result (λ _. said.plain path.now verb (view step.now) ≡ Ok tt) }
    ensures err { IfErr result (λ e. e ≢ Memory →
        said.plain path.now verb (view step.now) ≡ Err e) }
{
    match verb {
        Plain::DeleteCron => key(alloc, path, step),
        Plain::DeleteJob => key(alloc, path, step),
        Plain::EndJob => ended(alloc, path, step),
        Plain::Watch => watched(alloc, path, step),
        Plain::Add => key(alloc, path, step),
        Plain::Tick => moment(alloc, path, step),
        Plain::Feed => most(alloc, path, step),
        Plain::Claim => moment(alloc, path, step),
        Plain::Finish => finished(alloc, path, step),
        _ => Ok(()),
    }
}

fn done(alloc: Global, path: &str, verb: Verb, step: &Value) -> Result<(), Wrong>
    ensures ok { IfOk result (λ _. said.done_by path.now verb (view step.now) ≡ Ok tt) }
    ensures err { IfErr result (λ e. e ≢ Memory →
        said.done_by path.now verb (view step.now) ≡ Err e) }
{
    match verb {
        Verb::Writes(verb) => written(alloc, path, verb, step),
        Verb::Does(verb) => plain(alloc, path, verb, step),
    }
}

fn verb_in(step: &Value) -> Option<Verb>
    ensures { result ≡ said.verb_in (view step.now) }
{
    verb_named(present(step, "do")?.as_str()?)
}

/// The action of a step, with the members that it needs.
pub(crate) fn action(alloc: Global, path: &str, step: &Value) -> Result<(), Wrong>
    ensures ok { IfOk result (λ _. said.action path.now (view step.now) ≡ Ok tt) }
    ensures err { IfErr result (λ e. e ≢ Memory → said.action path.now (view step.now) ≡ Err e) }
{
    must(alloc, path, step, "do", Want::Text(Word::Verb))?;
    match verb_in(step) {
        Some(verb) => done(alloc, path, verb, step),
        None => Ok(()),
    }
}

const CALLER: &str = "the name of one of the callers";

fn is_caller(whole: &Value, who: &Value) -> bool
    ensures { result ≡ said.is_caller (view whole.now) (view who.now) }
{
    let Some(name) = who.as_str() else {
        return false;
    };
    match present(whole, "callers") {
        Some(callers) => present(callers, name).is_some(),
        None => false,
    }
}

/// Who acts in a step: one of the callers of the script.
pub(crate) fn caller(alloc: Global, path: &str, whole: &Value, step: &Value) -> Result<(), Wrong>
    ensures ok { IfOk result (λ _. said.caller path.now (view whole.now) (view step.now) ≡ Ok tt) }
    ensures err { IfErr result (λ e. e ≢ Memory →
        said.caller path.now (view whole.now) (view step.now) ≡ Err e) }
{
    match present(step, "who") {
        None => Err(told(alloc, path, "who", ": missing, want ", CALLER)),
        Some(who) => {
            if is_caller(whole, who) {
                Ok(())
            } else {
                Err(told(alloc, path, "who", ": want ", CALLER))
            }
        }
    }
}
