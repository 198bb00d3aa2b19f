//! What completes a word by the context: words up to delimiters as bash's `complete -W` offers them, file names as
//! readline does, and commands of a shell of SQL.

use crate::prompt::{Prompt, new_prompt};
use std::alloc::Global;
use std::test::Fail;
use test_cases::{expect_rows, parted};
use tw_hosts::{Completer, Context, ContextCompleter, DirectoryEntry, Listing, WordList};
use tw_lineedit::LineEditorHost;

/// Parses a completer: `files`, `nothing`, `words WORDS`, or `names WORDS`, in either case and with more delimiters.
fn completer(alloc: Global, text: &str) -> Result<Completer, Fail> {
    let (kind, words) = text.split_once(' ').unwrap_or((text, ""));
    let ignores_case = kind == "names";
    let delimiters = if ignores_case { " (,=\u{f6}" } else { " " };
    Ok(match kind {
        "files" => Completer::FileNames,
        "nothing" => Completer::Nothing,
        _ => Completer::Words(WordList {
            words: parted(alloc, words, ' ')?,
            delimiters: String::from_str(alloc, delimiters)?,
            ignores_case,
        }),
    })
}

/// The contexts, `first CHARACTERS` or `argument COMMAND`, with their completers.
const CONTEXTS: &str = "\
first . words .help .mode .read
argument .mode words table csv
argument .read files
argument echo nothing
argument select names count Customers gr\u{f6}\u{df}e
";

/// Parses a line of `CONTEXTS`.
fn context_of(alloc: Global, line: &str) -> Result<ContextCompleter, Fail> {
    let (kind, rest) = line.split_once(' ').ok_or("no context")?;
    let (word, rest) = rest.split_once(' ').ok_or("no completer")?;
    let word = String::from_str(alloc, word)?;
    let context = if kind == "first" {
        Context::FirstWord(word)
    } else {
        Context::ArgumentOf(word)
    };
    let completer = completer(alloc, rest)?;
    Ok(ContextCompleter { context, completer })
}

/// Returns a listing of a directory, whose own directories have a slash at their ends.
fn listing(alloc: Global, directory: &str, names: &str) -> Result<Listing, Fail> {
    let mut entries = Vec::new(alloc);
    for name in names.split(' ') {
        entries.push(DirectoryEntry {
            name: String::from_str(alloc, name.trim_end_matches('/'))?,
            is_directory: name.ends_with('/'),
        })?;
    }
    Ok(Listing {
        directory: String::from_str(alloc, directory)?,
        entries,
    })
}

/// Adds commands to a prompt, which also completes words.
fn add_commands(alloc: Global, prompt: &mut Prompt) -> Result<(), Fail> {
    for line in CONTEXTS.lines() {
        prompt.completers.push(context_of(alloc, line)?)?;
    }
    prompt
        .listings
        .push(listing(alloc, "", "data.sql data/ notes")?)?;
    prompt
        .listings
        .push(listing(alloc, "data/", "one.sql two.sql old/")?)?;
    Ok(())
}

/// Returns the candidates at the end of a line, each after the offset of the text that it replaces.
fn offered_by(alloc: Global, prompt: &Prompt, line: &str) -> Result<String, Fail> {
    let mut output = String::new(alloc);
    let candidates = prompt.complete(alloc, line, line.len())?;
    for candidate in &candidates {
        write!(output, "{}{} ", candidate.range.start, candidate.text)?;
    }
    Ok(String::from_str(alloc, output.trim_end())?)
}

/// Returns those of a prompt that gets the commands first.
fn offered_with_commands(alloc: Global, prompt: &mut Prompt, line: &str) -> Result<String, Fail> {
    add_commands(alloc, prompt)?;
    offered_by(alloc, prompt, line)
}

/// Returns those of a new prompt.
fn offers(alloc: Global, line: &str) -> Result<String, Fail> {
    offered_with_commands(alloc, &mut new_prompt(alloc)?, line)
}

const LINES: &str = r"
// contexts choose what is completed
.m => 0.mode
  .m => 2.mode
.mode\u{20} => 6table 6csv
.mode table c => 12csv
.modes u => 7user
.modes user => 7users 7user_roles
user => 0users 0user_roles
echo u =>
x .m =>
x\n.m => 2.mode
x\n.read d => 8data
.read\nd =>
x\nselect a\nselect GR => 18größe

// file names are of the directory before them
.read d => 6data
.read data => 6data.sql 6data/
.read data/ => 11one.sql 11two.sql 11old/
.read data/o => 11one.sql 11old/
.read notes d => 12data
.read data/old/ =>
.read / =>

// delimiters and case are those of the list
select count(cu => 13Customers
select x=größe,C => 17count 17Customers
select GR => 7größe
select grö => 7größe
select customers => 7Customers
select customers1 =>
";

#[test]
fn contexts_choose_what_is_completed(rt: HostRuntime) -> Result<(), Fail> {
    expect_rows(rt.alloc(), LINES, offers)
}
