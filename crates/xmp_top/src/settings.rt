// Reads the options of a command line.
ghost use Rattle.std.specs.Prelude.{◌≡◌, ◌++◌, ℕ, List, codes, nat_eq, map, string_bytes, IfSome, IfNone};
ghost use Rattle.std.specs.List.{starts_with};
ghost use Rattle.xmp_top.specs.declared.options.Name.{Name};
ghost use Rattle.xmp_top.specs.declared.options.Name.TheVariants.{Nodes, Steps, Input, Order, Node, Report};
ghost use Rattle.xmp_top.specs.Settings.{Settings, unset, settings_of, prefix_of, Adds, Says, Sets};

use crate::numbers::number;
use crate::options::{Name, Options};
use xmp_base::NODE_LIMIT;

/// Whether the word begins with `--`, which no name of a file does.
pub fn is_option(word: &str) -> bool
    ensures { result ≡ starts_with nat_eq word.now (codes "--") }
{
    word.as_bytes().starts_with(b"--")
}

// The value behind the name of an option.
fn value_of<'a>(word: &'a str, name: &str) -> Option<&'a str>
    ensures some { IfSome result (λ value. word.now ≡ name.now ++ value.now) }
    ensures none { IfNone result ((value : List ℕ) → word.now ≡ name.now ++ value → ⊥) }
{
    word.strip_prefix(name)
}

// The option that a word is, and its value.
fn option_at(word: &str) -> Option<(Name, &str)>
    ensures some { IfSome result (λ x. word.now ≡ prefix_of x.0 ++ x.1.now) }
    ensures none { IfNone result ((name : Name) (value : List ℕ) → word.now ≡ prefix_of name ++ value → ⊥) }
{
    if let Some(value) = value_of(word, "--nodes=") {
        return Some((Name::Nodes, value));
    }
    if let Some(value) = value_of(word, "--steps=") {
        return Some((Name::Steps, value));
    }
    if let Some(value) = value_of(word, "--input=") {
        return Some((Name::Input, value));
    }
    if let Some(value) = value_of(word, "--order=") {
        return Some((Name::Order, value));
    }
    if let Some(value) = value_of(word, "--node=") {
        return Some((Name::Node, value));
    }
    if let Some(value) = value_of(word, "--report") {
        return Some((Name::Report, value));
    }
    None
}

fn with_nodes<'a>(value: &str, old: &Options<'a>) -> Option<Options<'a>>
    ensures some { IfSome result (λ new. Adds Nodes value.now (settings_of old.now) (settings_of new)) }
    ensures none { IfNone result ((new : Settings) → Adds Nodes value.now (settings_of old.now) new → ⊥) }
{
    if old.nodes.is_some() {
        return None;
    }
    let nodes = number(value, 1, NODE_LIMIT as u64)?;
    Some(Options {
        nodes: Some(nodes),
        ..*old
    })
}

fn with_steps<'a>(value: &str, old: &Options<'a>) -> Option<Options<'a>>
    ensures some { IfSome result (λ new. Adds Steps value.now (settings_of old.now) (settings_of new)) }
    ensures none { IfNone result ((new : Settings) → Adds Steps value.now (settings_of old.now) new → ⊥) }
{
    if old.steps.is_some() {
        return None;
    }
    let steps = number(value, 0, u64::MAX)?;
    Some(Options {
        steps: Some(steps),
        ..*old
    })
}

fn with_input<'a>(value: &'a str, old: &Options<'a>) -> Option<Options<'a>>
    ensures some { IfSome result (λ new. Adds Input value.now (settings_of old.now) (settings_of new)) }
    ensures none { IfNone result ((new : Settings) → Adds Input value.now (settings_of old.now) new → ⊥) }
{
    if old.input.is_some() {
        return None;
    }
    if is_option(value) {
        return None;
    }
    Some(Options {
        input: Some(value),
        ..*old
    })
}

fn with_order<'a>(value: &str, old: &Options<'a>) -> Option<Options<'a>>
    ensures some { IfSome result (λ new. Adds Order value.now (settings_of old.now) (settings_of new)) }
    ensures none { IfNone result ((new : Settings) → Adds Order value.now (settings_of old.now) new → ⊥) }
{
    if old.order.is_some() {
        return None;
    }
    let order = number(value, 0, u64::MAX)?;
    Some(Options {
        order: Some(order),
        ..*old
    })
}

fn with_node<'a>(value: &str, old: &Options<'a>) -> Option<Options<'a>>
    ensures some { IfSome result (λ new. Adds Node value.now (settings_of old.now) (settings_of new)) }
    ensures none { IfNone result ((new : Settings) → Adds Node value.now (settings_of old.now) new → ⊥) }
{
    if old.node.is_some() {
        return None;
    }
    let node = number(value, 0, NODE_LIMIT as u64 - 1)?;
    Some(Options {
        node: Some(node),
        ..*old
    })
}

fn with_report<'a>(value: &str, old: &Options<'a>) -> Option<Options<'a>>
    ensures some { IfSome result (λ new. Adds Report value.now (settings_of old.now) (settings_of new)) }
    ensures none { IfNone result ((new : Settings) → Adds Report value.now (settings_of old.now) new → ⊥) }
{
    if old.report {
        return None;
    }
    if !value.is_empty() {
        return None;
    }
    Some(Options {
        report: true,
        ..*old
    })
}

// The options with one more, or none where it was set before or its value is none of its values.
fn with<'a>(name: Name, value: &'a str, old: &Options<'a>) -> Option<Options<'a>>
    ensures some { IfSome result (λ new. Adds name value.now (settings_of old.now) (settings_of new)) }
    ensures none { IfNone result ((new : Settings) → Adds name value.now (settings_of old.now) new → ⊥) }
{
    match name {
        Name::Nodes => with_nodes(value, old),
        Name::Steps => with_steps(value, old),
        Name::Input => with_input(value, old),
        Name::Order => with_order(value, old),
        Name::Node => with_node(value, old),
        Name::Report => with_report(value, old),
    }
}

// The options with what a word says, or none where it is no option that can be set.
fn said<'a>(word: &'a str, old: &Options<'a>) -> Option<Options<'a>>
    ensures some { IfSome result (λ new. Says word.now (settings_of old.now) (settings_of new)) }
    ensures none { IfNone result ((new : Settings) → Says word.now (settings_of old.now) new → ⊥) }
{
    match option_at(word) {
        Some((name, value)) => with(name, value, old),
        None => None,
    }
}

fn nothing_set<'a>() -> Options<'a>
    ensures { settings_of result ≡ unset }
{
    Options {
        nodes: None,
        steps: None,
        input: None,
        order: None,
        node: None,
        report: false,
    }
}

/// What the words set, or none where they aren't options, each at most once.
pub fn options_of(words: &[String]) -> Option<Options<'_>>
    ensures some { IfSome result (λ s. Sets (map (λ w. string_bytes w) words.now) (settings_of s)) }
    ensures none { IfNone result ((s : Settings) → Sets (map (λ w. string_bytes w) words.now) s → ⊥) }
{
    let mut set = nothing_set();
    let mut left = words.len();
    while left > 0 {
        left -= 1;
        set = said(words[left].as_str(), &set)?;
    }
    Some(set)
}
