//! Statements of SQL, with what is known of them.

use sql_language::{
    Catalog, SqlTable, begun_word, completions, quoted_name, statement_len, tokenize,
};
use std::alloc::{AllocError, Global};
use std::test::Fail;

/// Splits a text at its commas.
fn parts(alloc: Global, text: &str) -> Result<Vec<String>, AllocError> {
    let mut parts = Vec::new(alloc);
    for part in text.split(',') {
        parts.push(String::from_str(alloc, part)?)?;
    }
    Ok(parts)
}

/// Creates the catalog of a database with three tables.
fn catalog(alloc: Global) -> Result<Catalog, AllocError> {
    let mut tables = Vec::new(alloc);
    for &(name, columns) in &[
        ("people", "id,name,height"),
        ("pets", "id,nick name,owner"),
        ("order", "number"),
    ] {
        let name = String::from_str(alloc, name)?;
        let columns = parts(alloc, columns)?;
        tables.push(SqlTable { name, columns })?;
    }
    let names = "height,id,name,nick name,number,order,owner,people,pets";
    Ok(Catalog {
        names: parts(alloc, names)?,
        tables,
    })
}

/// Answers `tokens TEXT`, `statement TEXT`, `quoted NAME` or `complete BEFORE|AFTER`, where a cursor is at the bar.
fn answer(alloc: Global, word: &str, text: &str) -> Result<String, Fail> {
    let mut told = String::new(alloc);
    match word {
        "tokens" => {
            let tokens = tokenize(alloc, text)?;
            for token in &tokens {
                write!(told, "{:?} {} ", token.kind, token.text)?;
            }
        }
        "statement" => write!(told, "{:?}", statement_len(text))?,
        "quoted" => return Ok(quoted_name(alloc, text)?),
        _ => {
            let (before, after) = text.split_once('|').ok_or("no cursor")?;
            let statement = format!(in alloc; "{before}{after}")?;
            let keywords = parts(alloc, "NULL,ORDER,SELECT")?;
            if let Some(word) = begun_word(alloc, before)? {
                let catalog = catalog(alloc)?;
                let found = completions(alloc, &keywords, &catalog, statement.as_str(), word)?;
                return Ok(found.join(alloc, ",")?);
            }
        }
    }
    Ok(told)
}

const ROWS: &str = r#"
tokens select* from größe$1- => Word select Mark * White   Word from White   Word größe$1 Mark - 
tokens 0x1f+2, 1.5e3; => Number 0x1f Mark + Number 2 Mark , White   Number 1.5e3 Mark ; 
tokens 'it''s'é'open; => Text 'it''s' Word é Text 'open; 
tokens "a""b"c`a``b`[a[b]] => Name "a""b" Word c Name `a``b` Name [a[b] Mark ] 
tokens -- x /*\n-/* x **//*/ x => Comment -- x /* White \n Mark - Comment /* x **/ Comment /*/ x 
statement select 1; select 2; => Some(9)
statement select ';' -- ; \n/* ; */, ";", [;], `;`;x => Some(40)
statement select 'a''; => None
statement ; => Some(1)
statement create table end (a); end; => Some(21)
statement explain /* ; */ create temp trigger t begin select 1; end , 2; x end; END -- ;\n ;more => Some(81)
statement create trigger t begin select 1; select end; => None
quoted a"b" => "a""b"""
complete select n| => name,"nick name",number,NULL
complete select N| from Pets => "nick name",NULL
complete select n| from pets, [People] => name,"nick name",NULL
complete select n| -- from "people" => name,"nick name",number,NULL
complete select n| from 'people' => name,"nick name",number,NULL
complete select ID| => id
complete select id from people, pets.p| => people,pets
complete select * from "order" where (or| => "order",ORDER
complete select x| => 
complete select 'a n| => 
complete select a -- n| => 
complete select 'a' -- b\n, n|u => name,"nick name",number,NULL
"#;

#[test]
fn statements_are_known(rt: HostRuntime) -> Result<(), Fail> {
    let alloc = rt.alloc();
    for row in ROWS.lines() {
        let Some((command, wanted)) = row.split_once(" => ") else {
            continue;
        };
        let (word, text) = command.split_once(' ').ok_or("no word")?;
        let text = text.replace(alloc, "\\n", "\n")?;
        let answer = answer(alloc, word, text.as_str())?.replace(alloc, "\n", "\\n")?;
        if answer.as_str() != wanted {
            return Err(Fail::new(format_args!("{row}: {answer}")));
        }
    }
    Ok(())
}
