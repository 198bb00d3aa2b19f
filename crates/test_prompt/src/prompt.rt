//! A prompt with all parts, and scripts that are played on it.

use crate::tables::table_host;
use std::alloc::Global;
use std::test::Fail;
use test_cases::{expect_rows, painted_text, script_events};
use tw_hosts::{PromptScreen, TableHost};
use tw_input::{InputEvent, KeyCode, KeyEvent, Modifiers};
use tw_key_parts::RowKeys;
use tw_lineedit::{BasicHistory, LineEditor, LineEditorHost};
use tw_prompt::{AllKeys, all_keys};
use tw_prompt_host::{Going, Hints, MenuStyle, NestedLines, PromptHost, Rows, common_pairs};
use tw_surface::{CellAttributes, Intensity};
use tw_terminal::{ScreenSize, ScriptTerminal};

type Keys = (RowKeys, AllKeys);

/// A prompt with all parts.
pub type Prompt = PromptHost<TableHost<BasicHistory>, BasicHistory, Keys, NestedLines>;

/// Returns a menu whose chosen candidate is bold.
fn bold_menu(cols: usize, rows: usize) -> MenuStyle {
    let mut chosen = CellAttributes::default();
    chosen.intensity = Intensity::Bold;
    MenuStyle { cols, rows, chosen }
}

/// Returns a prompt on 80 columns that completes some words.
pub fn new_prompt(alloc: Global) -> Result<Prompt, Fail> {
    let host = table_host(alloc, "users user_roles orders")?;
    let pairs = common_pairs(alloc)?;
    let screen = PromptScreen {
        cols: 80,
        prompt: String::from_str(alloc, "> ")?,
    };
    Ok(PromptHost {
        host,
        history: BasicHistory::new(alloc),
        completers: Vec::new(alloc),
        listings: Vec::new(alloc),
        keys: (RowKeys::new(), all_keys(alloc)),
        hints: Hints::dim(),
        stops_failing_searches: true,
        validator: NestedLines { pairs },
        menu: bold_menu(80, 4),
        screen,
        rows: Rows::One,
        going: Going::new(),
    })
}

/// Changes the menu and the words that are completed: `COLS ROWS WORDS`.
fn set_menu(alloc: Global, prompt: &mut Prompt, setup: &str) -> Result<(), Fail> {
    let (cols, rest) = setup.split_once(' ').ok_or("no rows")?;
    let (rows, words) = rest.split_once(' ').ok_or("no words")?;
    prompt.menu = bold_menu(cols.parse()?, rows.parse()?);
    prompt.host = table_host(alloc, words)?;
    Ok(())
}

/// Returns the text of the last painting, with `{half}` for the attributes of a hint.
fn shown_text(alloc: Global, terminal: &ScriptTerminal) -> Result<String, Fail> {
    let mut attributes = CellAttributes::default();
    attributes.intensity = Intensity::Half;
    let half = format!(in alloc; "{attributes:?}")?;
    let painted = painted_text(alloc, terminal)?;
    Ok(painted.replace(alloc, half.as_str(), "half")?)
}

/// Returns the key of a line that scripts have not.
fn other_key(line: &str) -> Option<KeyEvent> {
    let (key, modifiers) = match line {
        "key S-Tab" => (KeyCode::Tab, Modifiers::SHIFT),
        "key C-Delete" => (KeyCode::Delete, Modifiers::CTRL),
        _ => return None,
    };
    Some(KeyEvent { key, modifiers })
}

/// Returns the events of a script, in which `key S-Tab` and `key C-Delete` are keys too.
fn events_of(alloc: Global, script: &str) -> Result<Vec<InputEvent>, Fail> {
    let mut events = Vec::new(alloc);
    for line in script.lines() {
        match other_key(line) {
            Some(key) => events.push(InputEvent::Key(key))?,
            None => events.append(&mut script_events(alloc, line)?)?,
        }
    }
    Ok(events)
}

/// Reads a line from a script. Returns the line, or `cancelled`, and the text of the last painting.
fn read_script(alloc: Global, prompt: &mut Prompt, script: &str) -> Result<(String, String), Fail> {
    prompt.begin_line();
    let size = ScreenSize { rows: 24, cols: 80 };
    let mut terminal = ScriptTerminal::new(alloc, size, events_of(alloc, script)?);
    let answer = LineEditor::new(alloc, &mut terminal)?.read_line(prompt);
    let line = match answer {
        Ok(Some(line)) => line,
        Ok(None) => String::from_str(alloc, "cancelled")?,
        Err(error) => format!(in alloc; "refusal {}", error.number())?,
    };
    Ok((line, shown_text(alloc, &terminal)?))
}

/// Obeys `remember LINE`, `cols COLS`, `hints under`, `searches accept`, `rows CONTINUATION` or `menu COLS ROWS WORDS`.
/// Returns false for any other command.
fn is_setup(alloc: Global, prompt: &mut Prompt, command: &str) -> Result<bool, Fail> {
    if let Some(line) = command.strip_prefix("remember ") {
        prompt.remember(line.replace(alloc, r"\t", "\t")?.as_str())?;
    } else if let Some(cols) = command.strip_prefix("cols ") {
        prompt.screen.cols = cols.parse()?;
    } else if command == "hints under" {
        prompt.hints = Hints::Under;
    } else if command == "searches accept" {
        prompt.stops_failing_searches = false;
    } else if let Some(continuation) = command.strip_prefix("rows ") {
        prompt.rows = Rows::Several(String::from_str(alloc, continuation)?);
    } else if let Some(setup) = command.strip_prefix("menu ") {
        set_menu(alloc, prompt, setup)?;
    } else {
        return Ok(false);
    }
    Ok(true)
}

/// Runs commands, separated by `; `, on a new prompt, and returns their answers: a script (its line), `ends TEXT`
/// (`yes` if the last painting ends with the text, and else the painting), or those of `is_setup`.
pub fn read_all(alloc: Global, commands: &str) -> Result<String, Fail> {
    let mut prompt = new_prompt(alloc)?;
    read_with(alloc, &mut prompt, commands)
}

/// Runs such commands on a prompt. It is lent: a function that owns it has a state for each of its fields at each `?`.
fn read_with(alloc: Global, prompt: &mut Prompt, commands: &str) -> Result<String, Fail> {
    let mut answers = Vec::new(alloc);
    let mut shown = String::new(alloc);
    for command in commands.split("; ") {
        if let Some(end) = command.strip_prefix("ends ") {
            let is_shown = shown.ends_with(end);
            answers.push(String::from_str(alloc, if is_shown { "yes" } else { shown.as_str() })?)?;
        } else if !is_setup(alloc, prompt, command)? {
            let (line, painted) = read_script(alloc, prompt, command)?;
            answers.push(line)?;
            shown = painted;
        }
    }
    Ok(answers.join(alloc, "; ")?)
}

/// Plays rows of commands. The first ones of each remember the lines of a history, separated by `;`, but for rows with
/// `no history; `.
pub fn expect_lines(alloc: Global, history: &str, rows: &str) -> Result<(), Fail> {
    let lines = history.replace(alloc, ";", "; remember ")?;
    expect_rows(alloc, rows, |alloc: Global, commands: &str| {
        if let Some(commands) = commands.strip_prefix("no history; ") {
            return read_all(alloc, commands);
        }
        let commands = format!(in alloc; "remember {lines}; {commands}")?;
        read_all(alloc, commands.as_str())
    })
}
