// The program: what a recipe is, which of many recipes serves best, what becomes of a single word, and the pages of an image.
#![tactic(auto)]

mod actions;
mod cells;
mod describe;
mod failure;
mod image;
mod inspection;
mod misuse;
mod output;
mod picture;
mod refusal;
mod save;
mod session;
mod single;
mod survey;
mod told;
mod usage;
mod watch;

use crate::actions::Action;
use crate::describe::{describe, recipe_of};
use crate::failure::Failure;
use crate::misuse::Misuse;
use crate::session::Session;
use crate::single::{damage, decode, encode};
use crate::usage::{Help, Usage};
use anyhow::anyhow;
use std::alloc::Global;
use std::env;
use std::process::ExitCode;

const VERSION: &str = "pizqarod 0.1.0";

fn describe_all(rt: &HostRuntime, recipes: &[&str]) -> anyhow::Result<()> {
    for text in recipes {
        let told = describe(rt.alloc(), text)?;
        rt.print(told.as_str())?;
    }
    Ok(())
}

fn survey_input(rt: &HostRuntime) -> anyhow::Result<()> {
    let mut survey = survey::Survey::new(rt.alloc());
    for line in rt.lines(rt.alloc()) {
        survey.note(line?.as_str())?;
    }
    rt.print(survey.table()?.as_str())?;
    Ok(())
}

fn tell(rt: &HostRuntime, told: Result<String, Failure>) -> anyhow::Result<()> {
    rt.print(told?.as_str())?;
    Ok(())
}

// Why words are no command line.
fn misused(words: &[&str]) -> anyhow::Error {
    let Some(name) = words.first() else {
        return anyhow!("usage: pizqarod COMMAND WORD.., see pizqarod --help");
    };
    match Usage::of(name) {
        Some(usage) => anyhow!("usage: {usage}"),
        None => anyhow!("usage: pizqarod COMMAND WORD.., see pizqarod --help").context(format_args!(
            "'{name}' is no command"
        )),
    }
}

// Does one action on an image and gives how many calls were refused.
fn act(rt: &HostRuntime, words: &[&str]) -> anyhow::Result<usize> {
    let [name, image, recipe, rest @ ..] = words else {
        return Err(misused(words));
    };
    match Action::parse(name, rest) {
        Ok(action) => Session::open(rt, image, recipe)?.run_action(action),
        Err(misuse @ (Misuse::NotANumber(_) | Misuse::NotAState(_))) => Err(anyhow!("{misuse}")),
        Err(_) => Err(misused(words)),
    }
}

// Does a script and gives how many refused calls count.
fn run_script(
    rt: &HostRuntime,
    image: &str,
    recipe: &str,
    script: &str,
    strict: bool,
) -> anyhow::Result<usize> {
    let refused = Session::open(rt, image, recipe)?.run_script(script)?;
    Ok(if strict { refused } else { 0 })
}

// Does a command on a single word of a recipe.
fn run_single(rt: &HostRuntime, heap: Global, words: &[&str]) -> anyhow::Result<()> {
    match words {
        ["encode", recipe, message] => tell(rt, encode(heap, &recipe_of(heap, recipe)?, message)),
        ["damage", recipe, word, changes @ ..] if !changes.is_empty() => {
            tell(rt, damage(heap, &recipe_of(heap, recipe)?, word, changes))
        }
        ["decode", recipe, word] => tell(rt, decode(heap, &recipe_of(heap, recipe)?, word)),
        _ => Err(misused(words)),
    }
}

// Does what works on no image, where words order that.
fn run_other(rt: &HostRuntime, heap: Global, words: &[&str]) -> anyhow::Result<()> {
    match words {
        ["--help" | "-h" | "help"] => Ok(rt.print(Help)?),
        ["--version"] => Ok(rt.println(VERSION)?),
        ["describe", recipes @ ..] if !recipes.is_empty() => describe_all(rt, recipes),
        ["survey"] => survey_input(rt),
        _ => run_single(rt, heap, words),
    }
}

// Does what words order, and gives how many refused calls count.
fn run(rt: &HostRuntime, words: &[&str]) -> anyhow::Result<usize> {
    match words {
        ["run", image, recipe, script] => run_script(rt, image, recipe, script, false),
        ["run", image, recipe, script, "--strict"] => run_script(rt, image, recipe, script, true),
        [name, ..] if Usage::of_action(name).is_some() => act(rt, words),
        _ => {
            run_other(rt, rt.alloc(), words)?;
            Ok(0)
        }
    }
}

fn run_arguments(rt: &HostRuntime) -> anyhow::Result<ExitCode> {
    let words: Vec<String> = env::args(rt)?.skip(1).collect(rt.alloc())?;
    let words: Vec<&str> = words.iter().map(|word| word.as_str()).collect(rt.alloc())?;
    match run(rt, words.as_slice())? {
        0 => Ok(ExitCode::SUCCESS),
        _ => Ok(ExitCode::FAILURE),
    }
}

fn main(rt: HostRuntime) -> ExitCode {
    match run_arguments(&rt) {
        Ok(code) => code,
        Err(error) => {
            // There is nobody else to tell.
            let _ = eprintln!(rt; "Error: {error:#}");
            ExitCode::FAILURE
        }
    }
}
