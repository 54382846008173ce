//! Configurations (B.1.7).

ghost use Rattle.std.specs.Prelude.{◌≡◌, refl, pos, codes};
ghost use Rattle.sfc_tokens.specs.Tokens.{kinds};
ghost use Rattle.sfc_text.specs.declared.tree.Instance.{Instance as InstanceValue};
ghost use Rattle.sfc_text.specs.declared.tree.Task.{Task as TaskValue};
ghost use Rattle.sfc_text.specs.Grammar as grammar;
ghost use Rattle.sfc_text.specs.Parsing.Depth.{reads};
ghost use Rattle.sfc_text.specs.Parsing.Reading.{Gives, behind, in_one_list, made, view, view_by};
ghost use Rattle.sfc_text.specs.Parsing.Takes.{task_takes, instance_takes};
ghost use Rattle.sfc_text.specs.Terms.{else_given, gathered, maybe, some_of, ◌▸◌, ◌◂◌};
ghost use Rattle.sfc_text.specs.Terms as terms;
ghost use Rattle.sfc_base.specs.declared.delimiter.Delimiter.TheVariants as delimiter;
ghost use Rattle.sfc_base.specs.declared.keyword.Keyword.TheVariants as reserved;

use crate::parse::fault::ParseFault;
use crate::parse::list::{Item, list, list_behind};
use crate::parse::place::span_between;
use crate::parse::terminal::{
    begins_named, begins_word, duration, integer, name, named, sign, syntax, word,
};
use crate::tree::{Configuration, Declaration, Instance, Task};
use sfc_base::delimiter::Delimiter;
use sfc_base::items::Items;
use sfc_base::keyword::Keyword;
use sfc_base::name::Name;
use sfc_base::time_value::TimeValue;
use sfc_tokens::placed::Placed;
use sfc_tokens::token::Token;
use std::alloc::Global;

// The variable that starts a task once at each rise, where there is one.
#[tactic(auto, unfolding(crate::specs::Grammar::single))]
fn maybe_single(
    alloc: Global,
    tokens: &[Token],
) -> Result<(Option<Placed<Name>>, &[Token]), ParseFault>
    ensures { Gives view result (reads (maybe grammar.single) (kinds tokens.now)) }
{
    if begins_named(tokens, b"SINGLE") {
        let tokens = named(tokens, b"SINGLE")?;
        let tokens = sign(tokens, Delimiter::Assign)?;
        let (name, tokens) = name(alloc, tokens)?;
        let tokens = sign(tokens, Delimiter::Comma)?;
        Ok((Some(name), tokens))
    } else {
        Ok((None, tokens))
    }
}

// The interval of a task, or 0 where it is left out.
#[tactic(auto, unfolding(crate::specs::Grammar::interval))]
fn maybe_interval(tokens: &[Token]) -> Result<(Placed<TimeValue>, &[Token]), ParseFault>
    ensures { Gives view result (reads (else_given (pos 0) grammar.interval) (kinds tokens.now)) }
{
    if !begins_named(tokens, b"INTERVAL") {
        let none = Placed::new(TimeValue::new(0), span_between(tokens, tokens));
        return Ok((none, tokens));
    }
    let tokens = named(tokens, b"INTERVAL")?;
    let tokens = sign(tokens, Delimiter::Assign)?;
    match duration(tokens) {
        Ok((interval, rest)) => {
            let span = span_between(tokens, rest);
            let rest = sign(rest, Delimiter::Comma)?;
            Ok((Placed::new(interval, span), rest))
        }
        Err(fault) => Err(fault),
    }
}

// The priority of a task, and the end of its parentheses.
fn task_priority(tokens: &[Token]) -> Result<(u32, &[Token]), ParseFault>
    ensures { Gives view result (reads (terms.named (codes "PRIORITY") ▸ terms.sign delimiter.Assign ▸ grammar.integer ◂ terms.sign delimiter.Close) (kinds tokens.now)) }
{
    let tokens = named(tokens, b"PRIORITY")?;
    let tokens = sign(tokens, Delimiter::Assign)?;
    let (priority, tokens) = integer(tokens)?;
    let tokens = sign(tokens, Delimiter::Close)?;
    Ok((priority, tokens))
}

// What stands before the interval of a task.
struct Called {
    name: Placed<Name>,
    single: Option<Placed<Name>>,
}

// By hand, so that a caller that drops one proves one call.
impl Drop for Called {
    fn drop(self) {
        let Called { name: _, single: _ } = self;
    }
}

impl Called {
    // The task with this interval and this priority.
    fn into_task(self, interval: Placed<TimeValue>, priority: u32) -> Task
        ensures { result ≡ record { name = self.name; single = self.single; interval = interval; priority = priority } }
    {
        let Called { name, single } = self;
        Task {
            name,
            single,
            interval,
            priority,
        }
    }
}

// A task up to its interval.
#[tactic(auto, unfolding(crate::specs::Grammar::before_interval))]
fn before_interval(alloc: Global, tokens: &[Token]) -> Result<(Called, &[Token]), ParseFault>
    ensures { Gives (view_by (λ called. (called.name, called.single))) result (reads grammar.before_interval (kinds tokens.now)) }
{
    let tokens = word(tokens, Keyword::Task)?;
    let (name, tokens) = name(alloc, tokens)?;
    let tokens = sign(tokens, Delimiter::Open)?;
    let (single, tokens) = maybe_single(alloc, tokens)?;
    Ok((Called { name, single }, tokens))
}

// A task.
#[tactic(auto, unfolding(crate::specs::Grammar::task))]
fn task(alloc: Global, tokens: &[Token]) -> Result<(Task, &[Token]), ParseFault>
    ensures { Gives view result (reads grammar.task (kinds tokens.now)) }
{
    let (called, tokens) = before_interval(alloc, tokens)?;
    match maybe_interval(tokens) {
        Ok((interval, tokens)) => {
            let (priority, tokens) = task_priority(tokens)?;
            Ok((called.into_task(interval, priority), tokens))
        }
        Err(fault) => Err(fault),
    }
}

impl Item for Placed<Task> {
    ghost Tree = { TaskValue };

    ghost tree = { λ task. task };

    ghost trees = { λ tasks. tasks };

    ghost rule = { grammar.task_line };

    #[tactic(auto, unfolding(crate::specs::Grammar::task_line, crate::specs::Grammar::before_interval, crate::specs::Grammar::task))]
    fn begins(tokens: &[Token]) -> bool {
        begins_word(tokens, Keyword::Task)
    }

    #[tactic(auto, unfolding(crate::specs::Grammar::task_line))]
    fn read(alloc: Global, tokens: &[Token]) -> Result<(Placed<Task>, &[Token]), ParseFault> {
        let (task, rest) = task(alloc, tokens)?;
        let rest = sign(rest, Delimiter::Semicolon)?;
        Ok((Placed::new(task, span_between(tokens, rest)), rest))
    }

    ghost takes_a_token = { task_takes };

    ghost no_trees = { refl };

    ghost one_more = { λ found item. refl };
}

// The task that an instance is given to, where there is one.
fn maybe_with(
    alloc: Global,
    tokens: &[Token],
) -> Result<(Option<Placed<Name>>, &[Token]), ParseFault>
    ensures { Gives view result (reads (maybe (terms.word reserved.With ▸ grammar.name)) (kinds tokens.now)) }
{
    if begins_word(tokens, Keyword::With) {
        let tokens = word(tokens, Keyword::With)?;
        let (name, tokens) = name(alloc, tokens)?;
        Ok((Some(name), tokens))
    } else {
        Ok((None, tokens))
    }
}

// A program instance.
#[tactic(auto, unfolding(crate::specs::Grammar::instance))]
fn instance(alloc: Global, tokens: &[Token]) -> Result<(Instance, &[Token]), ParseFault>
    ensures { Gives view result (reads grammar.instance (kinds tokens.now)) }
{
    let tokens = word(tokens, Keyword::Program)?;
    let (instance, tokens) = name(alloc, tokens)?;
    let (task, tokens) = maybe_with(alloc, tokens)?;
    let tokens = sign(tokens, Delimiter::Colon)?;
    let (program, tokens) = name(alloc, tokens)?;
    let instance = Instance {
        name: instance,
        task,
        program,
    };
    Ok((instance, tokens))
}

impl Item for Placed<Instance> {
    ghost Tree = { InstanceValue };

    ghost tree = { λ instance. instance };

    ghost trees = { λ instances. instances };

    ghost rule = { grammar.instance_line };

    #[tactic(auto, unfolding(crate::specs::Grammar::instance_line, crate::specs::Grammar::instance))]
    fn begins(tokens: &[Token]) -> bool {
        begins_word(tokens, Keyword::Program)
    }

    #[tactic(auto, unfolding(crate::specs::Grammar::instance_line))]
    fn read(alloc: Global, tokens: &[Token]) -> Result<(Placed<Instance>, &[Token]), ParseFault> {
        let (instance, rest) = instance(alloc, tokens)?;
        let rest = sign(rest, Delimiter::Semicolon)?;
        Ok((Placed::new(instance, span_between(tokens, rest)), rest))
    }

    ghost takes_a_token = { instance_takes };

    ghost no_trees = { refl };

    ghost one_more = { λ found item. refl };
}

// Program instances, one at least.
fn instances(
    alloc: Global,
    tokens: &[Token],
) -> Result<(Items<Placed<Instance>>, &[Token]), ParseFault>
    ensures { Gives view result (reads (some_of grammar.instance_line grammar.instance_line) (kinds tokens.now)) }
{
    let (first, tokens) = <Placed<Instance> as Item>::read(alloc, tokens)?;
    let mut found = Vec::new(alloc);
    found.push(first)?;
    let (found, tokens) = list_behind(alloc, found, tokens)?;
    Ok((Items::from_vec(found), tokens))
}

// A block of global variables, behind those found.
#[tactic(auto, unfolding(crate::specs::Grammar::globals))]
fn globals(
    alloc: Global,
    found: Vec<Placed<Declaration>>,
    tokens: &[Token],
) -> Result<(Vec<Placed<Declaration>>, &[Token]), ParseFault>
    ensures { Gives (view_by (λ v. v.items)) result (behind found.items (reads grammar.globals (kinds tokens.now))) }
{
    let tokens = word(tokens, Keyword::VarGlobal)?;
    let (found, tokens) = list_behind(alloc, found, tokens)?;
    let tokens = word(tokens, Keyword::EndVar)?;
    Ok((found, tokens))
}

// The blocks of global variables there, behind those found.
fn all_globals(
    alloc: Global,
    found: Vec<Placed<Declaration>>,
    tokens: &[Token],
) -> Result<(Vec<Placed<Declaration>>, &[Token]), ParseFault>
    ensures { Gives (view_by (λ v. v.items)) result (behind found.items (reads (gathered grammar.globals) (kinds tokens.now))) }
{
    let mut found = found;
    let mut rest = tokens;
    'blocks: while begins_word(rest, Keyword::VarGlobal) {
        let (longer, behind) = globals(alloc, found, rest)?;
        found = longer;
        rest = behind;
    }
    Ok((found, rest))
}

// The name of a configuration, and its own global variables.
struct Level {
    name: Placed<Name>,
    globals: Vec<Placed<Declaration>>,
}

// What stands before the tasks of a configuration.
struct Head {
    name: Placed<Name>,
    resource: Placed<Name>,
    processor: Placed<Name>,
    globals: Vec<Placed<Declaration>>,
}

// By hand, so that a caller that drops one proves one call.
impl Drop for Head {
    fn drop(self) {
        let Head {
            name: _,
            resource: _,
            processor: _,
            globals: _,
        } = self;
    }
}

impl Head {
    // The configuration with these tasks and instances.
    fn with_contents(
        self,
        tasks: Items<Placed<Task>>,
        instances: Items<Placed<Instance>>,
    ) -> Configuration
        ensures { result ≡ record { name = self.name; resource = self.resource; processor = self.processor; globals = self.globals.items; tasks = tasks; instances = instances } }
    {
        let Head {
            name,
            resource,
            processor,
            globals,
        } = self;
        Configuration {
            name,
            resource,
            processor,
            globals: Items::from_vec(globals),
            tasks,
            instances,
        }
    }
}

// A configuration up to RESOURCE.
#[tactic(auto, unfolding(crate::specs::Grammar::before_resource))]
fn before_resource(alloc: Global, tokens: &[Token]) -> Result<(Level, &[Token]), ParseFault>
    ensures { Gives (view_by (λ level. (level.name, level.globals.items))) result (reads grammar.before_resource (kinds tokens.now)) }
{
    let tokens = word(tokens, Keyword::Configuration)?;
    let (name, tokens) = name(alloc, tokens)?;
    let (globals, tokens) = all_globals(alloc, Vec::new(alloc), tokens)?;
    Ok((Level { name, globals }, tokens))
}

// A configuration up to its tasks.
#[tactic(auto, unfolding(crate::specs::Grammar::before_tasks))]
fn before_tasks(alloc: Global, tokens: &[Token]) -> Result<(Head, &[Token]), ParseFault>
    ensures { Gives (view_by (λ head. (((head.name, head.resource), head.processor), head.globals.items))) result (made in_one_list (reads grammar.before_tasks (kinds tokens.now))) }
{
    let (level, tokens) = before_resource(alloc, tokens)?;
    let Level {
        name: name_of_it,
        globals,
    } = level;
    let tokens = word(tokens, Keyword::Resource)?;
    let (resource, tokens) = name(alloc, tokens)?;
    let tokens = word(tokens, Keyword::On)?;
    let (processor, tokens) = name(alloc, tokens)?;
    let (globals, tokens) = all_globals(alloc, globals, tokens)?;
    let head = Head {
        name: name_of_it,
        resource,
        processor,
        globals,
    };
    Ok((head, tokens))
}

/// The configuration.
#[tactic(auto, unfolding(crate::specs::Grammar::configuration))]
pub fn configuration(
    alloc: Global,
    tokens: &[Token],
) -> Result<(Configuration, &[Token]), ParseFault>
    ensures { Gives view result (reads grammar.configuration (kinds tokens.now)) }
{
    let (head, tokens) = before_tasks(alloc, tokens)?;
    let (tasks, tokens) = list(alloc, tokens)?;
    let (instances, tokens) = instances(alloc, tokens)?;
    let tokens = word(tokens, Keyword::EndResource)?;
    let tokens = word(tokens, Keyword::EndConfiguration)?;
    Ok((head.with_contents(tasks, instances), tokens))
}
